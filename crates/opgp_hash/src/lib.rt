//! Fingerprints and key IDs of OpenPGP keys (RFC 9580, 5.5.4), and the data that a signature hashes
//! (5.2.4).
#![tactic(auto)]

mod asking;
mod bodies;
mod certificate_hasher;
mod digesting;
mod digests;
mod fingerprints;
mod hashers;
mod kept;
mod key_hash;
mod kinds;
pub mod laws;
mod part;
mod parts;
mod question;
mod reopening;
mod signed;
mod site;
mod subject;
mod why;
mod writing;

pub use asking::{ask, ask_at, ask_view};
pub use certificate_hasher::CertificateHasher;
pub use digesting::digest;
pub use digests::Digest;
pub use fingerprints::{Fingerprint, KeyId};
pub use hashers::Sha1Hasher;
pub use key_hash::{fingerprint, fingerprint_of_view, key_id};
pub use question::Question;
pub use reopening::reopen;
pub use site::Site;
pub use subject::Subject;
pub use why::Why;
pub use writing::write_octets;
