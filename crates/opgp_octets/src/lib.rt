//! The basics that all other crates use: limits, faults, lengths, registered numbers and
//! multiprecision integers.
#![tactic(auto)]

mod appending;
mod fault;
mod fault_text;
mod hash_algorithm;
mod hexadecimal;
mod key_algorithm;
pub mod laws;
mod limits;
mod malformed;
mod mpi;
mod mpi_view;
mod number;
mod outside;
mod packet_len;
mod packet_type;
mod refusal;
mod rows;
mod signature_type;
mod sub_len;
mod subpacket_kind;

pub use appending::put;
pub use fault::{BodyFault, Fault, Layer, Reason};
pub use fault_text::{FAULT_LINE, fault_line, short_line};
pub use hash_algorithm::HashAlgorithm;
pub use hexadecimal::{write_digits, write_hexadecimal};
pub use key_algorithm::KeyAlgorithm;
pub use limits::{Limits, Range};
pub use malformed::Malformed;
pub use mpi::Mpi;
pub use mpi_view::MpiView;
pub use number::{u16_at, u32_at};
pub use outside::Outside;
pub use packet_len::{PacketLen, read_len, shortest, write_len};
pub use packet_type::PacketType;
pub use refusal::{MpiFault, OutOfMemory, ParseFault, PushFault};
pub use signature_type::SignatureType;
pub use sub_len::{SubLen, read_sub_len, write_sub_len};
pub use subpacket_kind::SubpacketKind;
