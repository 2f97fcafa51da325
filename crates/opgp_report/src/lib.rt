//! What can be said of the signatures of a keyring: which key each names as its issuer, what it
//! hashes, and the verdict of a verifier.
#![tactic(auto)]

mod checking;
mod finding;
mod fingerprinted;
mod fingerprinting;
mod issuer_name;
mod key_index;
pub mod laws;
mod left_octets;
mod met;
mod place;
mod report;
mod reporter;
mod reporting;
mod row;
mod row_maker;
mod signers;
mod signing;
mod verifier;
mod walk;

pub use checking::check;
pub use finding::{question_at, rows_left};
pub use fingerprinted::{FingerprintedReport, FingerprintedRow, FingerprintedRows};
pub use fingerprinting::FingerprintedReporting;
pub use issuer_name::IssuerName;
pub use key_index::KeyIndex;
pub use left_octets::LeftOctets;
pub use met::{Met, Posed};
pub use place::Place;
pub use report::Report;
pub use reporting::Reporting;
pub use row::{Finding, Row};
pub use signers::{index_keys, print_of};
pub use signing::{issuer_named, signer};
pub use verifier::{Job, Verdict, Verifier};
pub use walk::{Visitor, visit, visit_certificate};
