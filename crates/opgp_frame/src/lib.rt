//! Packets and their framing (RFC 9580, 4.2): both formats, partial lengths, input in pieces of any
//! size.
#![tactic(auto)]

mod deframe;
mod form;
mod header;
pub mod laws;
mod length;
mod packet;
mod parts;
mod pieces;
mod spelling;
mod spot;
mod view;
mod whole;
mod writing;

pub use deframe::Deframe;
pub use form::Form;
pub use packet::{Packet, Placed};
pub use pieces::{LastForm, Pieces};
pub use spelling::{HeaderOctets, Spelling};
pub use spot::Spot;
pub use view::{PacketView, PlacedView};
pub use writing::{reframe, spelled_len_of, write_packet, write_parts};
