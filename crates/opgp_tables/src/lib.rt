//! Keyrings as flat tables: rows of numbers, and octets that the rows point into. A caller in
//! another language can be handed them.
#![tactic(auto)]

mod copying;
mod document_jobs;
mod document_subpackets;
mod fault_row;
mod given_limits;
mod hashed_octets;
mod hashed_row;
mod hashed_table;
mod hashing;
mod job_counter;
mod job_filler;
mod job_row;
mod job_table;
mod key_counter;
mod key_row;
mod key_table;
pub mod laws;
mod names;
mod packet_counter;
mod packet_row;
mod packet_table;
mod parts;
mod putting;
mod subpacket_counter;
mod subpacket_filler;
mod subpacket_row;
mod subpacket_table;
mod subpacket_values;
mod table_sizes;

pub use copying::fill;
pub use document_jobs::{document_job_sizes, fill_document_jobs, is_over_text};
pub use document_subpackets::{document_subpacket_sizes, fill_document_subpackets};
pub use fault_row::FaultRow;
pub use given_limits::GivenLimits;
pub use hashed_octets::row_octets;
pub use hashed_row::HashedRow;
pub use hashing::hashed_rows;
pub use job_counter::job_sizes;
pub use job_row::JobRow;
pub use job_table::fill_jobs;
pub use key_counter::key_sizes;
pub use key_row::{KeyRow, NONE};
pub use key_table::keys;
pub use names::NumberTable;
pub use opgp_octets::{FAULT_LINE, short_line};
pub use packet_counter::packet_sizes;
pub use packet_row::PacketRow;
pub use packet_table::fill_packets;
pub use subpacket_counter::subpacket_sizes;
pub use subpacket_filler::fill_subpackets;
pub use subpacket_row::SubpacketRow;
pub use table_sizes::TableSizes;
