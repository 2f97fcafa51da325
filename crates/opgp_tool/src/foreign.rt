//! The type of a packet that no keyring has.

ghost use Rattle.std.specs.Prelude.{◌≡◌, [], ℕ, List, Option, false};
ghost use Rattle.opgp_octets.specs.declared.limits.Limits.{Limits};
ghost use Rattle.opgp_codec.specs.IncomingPackets.{PacketsCame};
ghost use Rattle.opgp_codec.specs.declared.mode.Mode.{Mode};

use opgp_codec::{IncomingPackets, Mode, ReadError};
use opgp_frame::PlacedView;
use opgp_octets::{Fault, Limits, Malformed, Reason};
use opgp_stack::{RunFault, Source, Watched};
use std::alloc::Global;

/// The type of a packet, if there is one, and it is at this place.
fn kind_here(packet: Option<PlacedView<'_>>, block: u64, pos: u64) -> Option<u8> {
    match packet {
        Some(placed) => {
            if placed.block == block && placed.pos == pos {
                Some(placed.packet.kind())
            } else {
                None
            }
        }
        None => None,
    }
}

/// The type of the packet at this place, if a source gives it.
fn kind_at<R: Source>(
    packets: &mut IncomingPackets,
    source: &mut R,
    block: u64,
    pos: u64,
) -> Result<Option<u8>, ReadError>
    requires sound { R.has_failed source.old ≡ false }
    requires came { (mode : Mode) × (limits : Limits) × (before : Option (List ℕ))
        × PacketsCame mode limits before (R.left source.old) packets.old [] }
{
    'packets: while packets.next(source)? {
        let found = kind_here(packets.packet(), block, pos);
        if found.is_some() {
            return Ok(found);
        }
    }
    Ok(None)
}

/// The usual limits, where no malformed signature ends the reading.
fn kept() -> Limits {
    Limits::usual().with_malformed(Malformed::Keep)
}

/// The type of the packet for which an input that begins with these octets is refused, since no
/// keyring has such a packet; None if that isn't the reason, or the packet isn't whole among them.
pub fn foreign_kind(
    alloc: Global,
    mode: Mode,
    outcome: &Result<(), RunFault>,
    octets: &[u8],
) -> Option<u8> {
    match outcome {
        Err(
            RunFault::Refused(
                Fault {
                    reason: Reason::NotInKeyring,
                    block,
                    pos,
                    ..
                },
            ),
        ) => match IncomingPackets::new(alloc, mode, kept()) {
            Ok(mut packets) => {
                match kind_at(&mut packets, &mut Watched::new(octets), *block, *pos) {
                    Ok(found) => found,
                    Err(_) => None,
                }
            }
            Err(_) => None,
        },
        _ => None,
    }
}
