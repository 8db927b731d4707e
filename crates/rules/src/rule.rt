use crate::relation::Relation;
use terms::LabelNo;

// The most rules that a table has.
pub(crate) const MOST_RULES: usize = 48;

// A rule by its label numbers: what its relation makes of a period of `first` and one of `second` has the label `label`.
#[derive(Clone, Copy, PartialEq, Eq, Debug)]
pub struct Rule {
    pub label: LabelNo,
    pub first: LabelNo,
    pub how: Relation,
    pub second: LabelNo,
}

// A rule as it is written: by the names of its labels.
#[derive(Clone, Copy, PartialEq, Eq, Debug)]
pub struct RuleWords<'a> {
    pub label: &'a str,
    pub first: &'a str,
    pub how: Relation,
    pub second: &'a str,
}
