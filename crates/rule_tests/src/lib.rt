// Rule files and rule tables on examples. The expected answers come from docs/FORMATS.md, docs/REFUSALS.md and docs/RULES.md, read by hand.
#![tactic(auto)]

#[cfg(test)]
mod asking;
#[cfg(test)]
mod limits;
#[cfg(test)]
mod refusals;
#[cfg(test)]
mod rings;
#[cfg(test)]
mod telling;
#[cfg(test)]
mod words;
