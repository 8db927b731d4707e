// A group of a table: the places of the working order from `start` up to `end`, which it leaves out. It is ringed if its rules stand in
// a ring; else it is one rule that does not read its own label.
#[derive(Clone, Copy, PartialEq, Eq, Debug)]
pub struct Group {
    pub start: usize,
    pub end: usize,
    pub ringed: bool,
}
