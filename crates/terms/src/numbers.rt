// Three structs and no generic one, as the project wants it: each counts something else, and no call takes one for another.

// The number of a label in a rule table, from 0 in the order of first appearance.
#[derive(Clone, Copy, PartialEq, Eq, PartialOrd, Ord, Debug)]
pub struct LabelNo(pub u8);

// The number of a rule in a rule table, from 1.
#[derive(Clone, Copy, PartialEq, Eq, PartialOrd, Ord, Debug)]
pub struct RuleNo(pub u8);

// The index of a moment among the standing moments in their order, from 0.
#[derive(Clone, Copy, PartialEq, Eq, PartialOrd, Ord, Debug)]
pub struct Place(pub u16);
