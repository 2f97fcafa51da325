//! Documents that signatures are made over (RFC 9580, 5.2.1.1, 5.2.1.2, 5.2.4), hashed in pieces.
//!
//! [`SignedDocument`] hashes one document for several signatures in one pass, [`SignatureHasher`]
//! for one. A signature of type 00 is over the document's octets as they are, one of type 01 over
//! its canonical text, in which each line ends in a carriage return and a line feed;
//! [`CanonicalText`] writes that. For callers who hash elsewhere, [`OwnOctets`] has what a
//! signature hashes in front of its document and behind it.
#![tactic(auto)]

mod canonical_text;
mod document_hasher;
mod document_why;
pub mod laws;
mod octets_as_text;
mod open_fault;
mod own_octets;
mod place;
mod short_table;
mod signature_hasher;
mod signed_document;
mod stray_return;

pub use canonical_text::CanonicalText;
pub use document_hasher::DocumentHasher;
pub use document_why::DocumentWhy;
pub use open_fault::OpenFault;
pub use own_octets::OwnOctets;
pub use short_table::ShortTable;
pub use signature_hasher::SignatureHasher;
pub use signed_document::{DocumentAnswers, MOST_SIGNATURES, SignedDocument};
pub use stray_return::StrayReturn;
