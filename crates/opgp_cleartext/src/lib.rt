//! Messages in the cleartext signature framework (RFC 9580, 7): documents with their signatures
//! behind them.
//!
//! [`Cleartext::read`] reads a message strictly: it finds the document's lines and the octets of
//! the armored signatures, or one fault with its place. It reads neither the armor nor the
//! signatures. [`Cleartext::write_document`] writes the document that is handed out,
//! [`Cleartext::write_hashed`] what its signatures of type 01 hash.
#![tactic(auto)]

mod cleartext;
mod hashes;
pub mod laws;
mod line;
mod reading;
mod writing;

pub use cleartext::Cleartext;
