//! Lines of what is found of the signatures, keys and user IDs of a keyring, and files of verdicts.
#![tactic(auto)]

mod basis;
mod claiming;
mod claims;
mod date;
mod keyring_digest;
mod keyring_states;
pub mod laws;
mod line_sink;
mod place_maker;
mod placing;
mod reporting;
mod row_front;
mod row_place;
mod state_lines;
mod verdict_file;
mod verdict_lines;

pub use basis::Basis;
pub use claims::claimed_verdicts;
pub use date::{DAY, Date, add_date, add_date_or_none, add_date_word, date_text};
pub use keyring_states::KeyringStates;
pub use placing::Placing;
pub use reporting::{
    add_fingerprinted_report, add_placed_report, add_report, left_of, verdict_words,
};
pub use row_place::RowPlace;
pub use state_lines::add_states;
pub use verdict_file::read_verdicts;
