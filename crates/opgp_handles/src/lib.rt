//! What the calls of the library for C do: `opgp_c` exports them.
//!
//! A handle keeps a keyring that was read once, a reading of one, or signatures over a document;
//! a call fills tables of the caller from it, and answers by a status.
#![tactic(auto)]

mod beliefs;
mod beliefs_at;
mod calls;
mod cause_row;
mod causes;
mod counted;
mod document;
mod documents;
mod finding;
pub mod laws;
mod making;
mod names;
mod parts;
mod place_row;
mod reader;
mod readers;
mod reading;
mod revocations;
mod ring;
mod rings;
mod signed;
mod signed_tables;
mod signed_texts;
mod sizes;
mod slot;
mod standings;
mod state_row;
mod states;
mod status;
mod tables;
mod text;
mod texts;
mod user_ids;
mod verdict_files;
mod whys;

pub use beliefs::document_standing;
pub use beliefs_at::document_standings;
pub use cause_row::CauseRow;
pub use causes::ring_cause;
pub use document::Document;
pub use documents::{
    document_clear, document_close, document_end, document_jobs, document_octets, document_open,
    document_push, document_subpackets,
};
pub use finding::{FoundRow, find_blocks};
pub use making::{Making, keep_chosen, keep_made, keep_picked};
pub use names::{put_fault_line, put_name};
pub use place_row::PlaceRow;
pub use reader::Reader;
pub use readers::{reader_clear, reader_close, reader_end, reader_open, reader_push, reader_take};
pub use revocations::{RevocationRow, ring_revocations};
pub use ring::Ring;
pub use rings::{
    ring_certificate, ring_clear, ring_close, ring_join, ring_octets, ring_open, ring_open_mode,
    ring_skipped, ring_write,
};
pub use signed_texts::cleartext_open;
pub use sizes::Sizes;
pub use slot::{Held, Reading, Signed};
pub use standings::{ring_revocation, ring_standing};
pub use state_row::StateRow;
pub use states::ring_states;
pub use tables::{TableRow, Window, put_hashed, put_table};
pub use texts::{TextState, canonical, canonical_end};
pub use user_ids::{UserIdFacts, user_id};
pub use verdict_files::ring_verdicts;
