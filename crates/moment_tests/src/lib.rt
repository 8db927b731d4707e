// Days and sheet stamps on examples. The expected answers come from the rules of the two kinds, worked out by hand.
#![tactic(auto)]

#[cfg(test)]
mod days;
#[cfg(test)]
mod kinds;
#[cfg(test)]
mod own;
#[cfg(test)]
mod stamps;
