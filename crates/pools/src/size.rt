// The three numbers of a pool, fixed when it is made.
#[derive(Clone, Copy, PartialEq, Eq, Debug)]
pub struct Size {
    // label numbers are below this
    pub labels: usize,
    // places are below this
    pub places: usize,
    // the most periods that it can have
    pub capacity: usize,
}
