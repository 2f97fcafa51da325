//! What changed between two keyrings, packet by packet (RFC 9580, 10.1).
#![tactic(auto)]

mod comparing;
mod growing;
pub mod laws;
mod place;
mod telling;
mod tree;
mod visiting;

pub use comparing::{Difference, compare};
pub use place::{PacketPlace, PlacedPacket};
