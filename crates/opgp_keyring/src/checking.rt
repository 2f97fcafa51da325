//! The faults of packets' bodies.

ghost use Rattle.std.specs.Prelude.{All, MatchOption};
ghost use Rattle.opgp_octets.specs.declared.malformed.Malformed.TheVariants.{Refuse};
ghost use Rattle.opgp_frame.specs.View.{viewed};
ghost use Rattle.opgp_keyring.specs.Bodies.{IsSound, IsFirstBodyFault, IsPlacedFault};
ghost use Rattle.opgp_keyring.specs.Block.{placed_of};

use crate::block_of::BlockOf;
use crate::packet_body::body_fault;
use opgp_frame::{Placed, PlacedView};
use opgp_octets::{Fault, Malformed, PacketType};

/// The fault of the first packet whose body has one, in order of blocks (RFC 9580, 5). Takes no
/// memory.
///
/// Keys, signatures, literals and user attributes can have one.
pub fn check_bodies(blocks: &[BlockOf]) -> Option<Fault>
    ensures { MatchOption result (All (IsSound Refuse) (placed_of blocks.now))
        (IsFirstBodyFault Refuse (placed_of blocks.now)) }
{
    check_bodies_by(blocks, Malformed::Refuse)
}

/// The same, by this policy for malformed signatures: where they are kept, no signature has a
/// fault.
pub fn check_bodies_by(blocks: &[BlockOf], malformed: Malformed) -> Option<Fault>
    ensures { MatchOption result (All (IsSound malformed) (placed_of blocks.now))
        (IsFirstBodyFault malformed (placed_of blocks.now)) }
{
    for block in blocks {
        if let Some(fault) = check_packets(&block.packets, malformed) {
            return Some(fault);
        }
    }
    None
}

/// The fault of the first packet whose body has one.
pub(crate) fn check_packets(packets: &[Placed], malformed: Malformed) -> Option<Fault>
    ensures { MatchOption result (All (IsSound malformed) packets.now)
        (IsFirstBodyFault malformed packets.now) }
{
    for placed in packets {
        if let Some(fault) = packet_fault(placed, malformed) {
            return Some(fault);
        }
    }
    None
}

/// The fault of the packet's body, if it has one (RFC 9580, 5). Allocates nothing.
///
/// Keys, literals and user attributes can have one, and signatures where malformed ones are
/// refused.
pub fn packet_fault(placed: &Placed, malformed: Malformed) -> Option<Fault>
    ensures { MatchOption result (IsSound malformed placed.now)
        (IsPlacedFault malformed placed.now) }
{
    view_fault(PlacedView::of(placed), malformed)
}

/// The same of a packet that is lent.
pub fn view_fault(placed: PlacedView<'_>, malformed: Malformed) -> Option<Fault>
    ensures { MatchOption result (IsSound malformed (viewed placed.entry))
        (IsPlacedFault malformed (viewed placed.entry)) }
{
    let PlacedView { packet, block, pos } = placed;
    match body_fault(PacketType::from(packet.kind()), packet.body(), malformed) {
        Some(fault) => Some(fault.placed(block, pos)),
        None => None,
    }
}
