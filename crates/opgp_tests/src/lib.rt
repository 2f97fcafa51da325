//! Tests of what only a caller in the same process sees, by what the crates make public; in a crate
//! of their own, since a crate with tests is proved twice.
#![tactic(auto)]

#[cfg(test)]
mod allocations;
#[cfg(test)]
mod armor;
#[cfg(test)]
mod bodies;
#[cfg(test)]
mod report;
#[cfg(test)]
mod stream;
