//! Certificates of which only bound components stay, by verdicts on their signatures, and of
//! self-signatures only genuine ones.
#![tactic(auto)]

mod ahead;
mod bounding;
mod embedded;
mod issuers;
mod judged;
mod judging;
mod keeping;
pub mod laws;
mod newest;
pub mod newest_laws;
mod own;
mod replaced;
mod role;

pub use bounding::keep_bound;
pub use newest::keep_newest;
