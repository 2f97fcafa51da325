//! Packets in one piece, of which all octets are there.

ghost use Rattle.std.specs.Prelude.{◌≡◌, IfSome, IsSome};
ghost use Rattle.opgp_frame.specs.Whole.{LiesWhole, BeginInOnePiece};

use crate::header::{header_fault, kind_in};
use crate::length::read_length;
use crate::parts::form_of;
use crate::spot::Spot;
use opgp_octets::Limits;
use std::alloc::Global;

/// Where the allowed packet of one piece lies that the octets begin with, if all of it is there;
/// its place in the input is this one. Allocates nothing.
#[inline(always)]
pub(crate) fn whole_in(
    alloc: Global,
    limits: Limits,
    octets: &[u8],
    block: u64,
    pos: u64,
) -> Option<Spot>
    ensures whole { IfSome result (λ spot. LiesWhole limits spot octets.now) }
    ensures place { IfSome result (λ spot. (spot.block ≡ block) × (spot.pos ≡ pos)) }
    ensures some { BeginInOnePiece limits octets.now → IsSome result }
{
    let [header, behind @ ..] = octets else {
        return None;
    };
    if header_fault(*header).is_some() {
        return None;
    }
    let (last, size) = read_length(*header, behind)?;
    let amount = last.amount();
    if last.is_partial() || amount > limits.body() {
        return None;
    }
    let from = 1 + size;
    let amount = amount as usize;
    if amount > octets.len() - from {
        return None;
    }
    let form = form_of(Vec::new(alloc), last)?;
    Some(Spot {
        form,
        kind: kind_in(*header),
        from,
        until: from + amount,
        block,
        pos,
    })
}
