//! What each octet means that a signature hashes (RFC 9580, 5.2.4): the fields, one after the
//! other, each with its place, its meaning and the section that says so.
#![tactic(auto)]

mod area;
mod explaining;
mod field;
mod key;
pub mod laws;
mod lines;
mod meaning;
mod names;
mod sections;
mod subject;
mod telling;

pub use explaining::fields_of;
pub use field::Field;
pub use lines::add_fields;
pub use meaning::{BodyPart, KeyPart, Meaning, Role, SignaturePart, SubpacketPart, TrailerPart};
