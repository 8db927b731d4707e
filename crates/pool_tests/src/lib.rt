// Rows and pools on examples. The expected answers come from docs/POOLS.md, read by hand, or from a set of the standard library.
#![tactic(auto)]

#[cfg(test)]
mod asking;
#[cfg(test)]
mod grids;
#[cfg(test)]
mod lists;
#[cfg(test)]
mod load;
#[cfg(test)]
mod rows;
#[cfg(test)]
mod walks;
