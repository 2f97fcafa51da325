//! What the program does with an input: its texts, its tasks, and a run of one. The engine's
//! reading and writing stand here too.
#![tactic(auto)]

mod all_octets;
mod around;
mod bounding;
mod canonical;
mod checking;
mod checking_fingerprints;
mod checking_places;
mod cleartext;
mod differing;
mod digest_lines;
mod digesting;
mod hashing;
mod key_file;
mod key_name;
mod key_size;
mod key_text;
mod keyring_text;
pub mod laws;
mod listing;
mod made;
mod making;
mod making_from;
mod named_certificates;
mod nth_certificate;
mod packet_text;
mod part_text;
mod reading_octets;
mod row_found;
mod run_fault;
mod running;
mod showing;
mod showing_from;
mod signature_lines;
mod stating;
mod task;
mod time;
mod valued;
mod valued_listing;
mod values;
mod wanted_keys;
mod writing_listing;
mod writing_report;
mod writing_shown;

pub use around::{Around, run_around};
pub use bounding::{BoundTask, run_bound};
pub use canonical::run_canonical;
pub use cleartext::{CleartextPart, run_cleartext};
pub use differing::run_difference;
pub use digesting::run_digests;
pub use key_file::keys_in;
pub use key_name::KeyName;
pub use opgp_codec::{
    Answer, Draft, DraftError, EngineError, Mode, NoSpool, Out, PacketsAnswer, PacketsText,
    ReadError, SignedAnswer, Sink, Source, Spool, Text, Watched, read_keyring, read_packets,
    read_signatures, read_signed, write, write_certificate, write_certificates, write_keyring,
};
pub use opgp_merge::Choice;
pub use opgp_valid::Policy;
pub use reading_octets::read_octets;
pub use run_fault::RunFault;
pub use running::{run, run_last, run_spooled};
pub use signature_lines::run_signatures;
pub use stating::{StateTask, run_states};
pub use task::{Action, Task, Top};
pub use time::time_in;
pub use writing_listing::write_listing;
pub use writing_report::{write_fingerprinted_report, write_placed_report, write_report};
pub use writing_shown::write_shown;
