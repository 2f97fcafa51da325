//! Composing a signed literal from blocks of packets.

ghost use Rattle.std.specs.Prelude.{◌<◌, ◌^◌, IfOk, MatchResult};
ghost use Rattle.opgp_octets.specs.declared.malformed.Malformed.TheVariants.{Refuse};
ghost use Rattle.opgp_keyring.specs.Block.{items_of};
ghost use Rattle.opgp_keyring.specs.Signed.{IsSignedFault, IsSignedOf, end_pos};
ghost use Rattle.opgp_keyring.specs.SignedGathering.{GathersSigned};
ghost use Rattle.opgp_keyring.specs.SignedLiteral.{signed_packets};

use crate::block_of::BlockOf;
use crate::signed_gathering::SignedGathering;
use crate::signed_literal::SignedLiteral;
use opgp_octets::{Fault, Malformed, OutOfMemory};
use std::alloc::Global;

/// The signed literal of the packets of all blocks, in order (RFC 9580, 10.3), or the one fault:
/// that of the first body that has one, else the first in the order, where a block's label comes
/// before its packets.
///
/// Fillers aside, the packets are one-pass signatures, at least one, then the literal, then as many
/// signatures. The fault is at the first packet with which no such list begins; if packets are
/// missing, at the end of the last block. The condition is that this end is at most 2^64 - 1, which
/// [`end_fits`](crate::end_fits) tells.
///
/// Fails only when out of memory.
pub fn compose_signed(
    alloc: Global,
    blocks: Vec<BlockOf>,
) -> Result<Result<SignedLiteral, Fault>, OutOfMemory>
    requires { end_pos (items_of blocks.items) < 2 ^ 64 }
    ensures { IfOk result (λ r. MatchResult r
        (λ l. IsSignedOf Refuse (items_of blocks.items) (signed_packets l))
        (IsSignedFault Refuse (items_of blocks.items))) }
{
    compose_signed_by(alloc, blocks, Malformed::Refuse)
}

/// The same, by this policy for malformed signatures. The condition is that of [`compose_signed`].
///
/// Fails only when out of memory.
pub fn compose_signed_by(
    alloc: Global,
    blocks: Vec<BlockOf>,
    malformed: Malformed,
) -> Result<Result<SignedLiteral, Fault>, OutOfMemory>
    requires { end_pos (items_of blocks.items) < 2 ^ 64 }
    ensures { IfOk result (λ r. MatchResult r
        (λ l. IsSignedOf malformed (items_of blocks.items) (signed_packets l))
        (IsSignedFault malformed (items_of blocks.items))) }
{
    let gathering = gather(alloc, blocks, malformed)?;
    Ok(gathering.finish())
}

/// The packets of all blocks.
fn gather(
    alloc: Global,
    blocks: Vec<BlockOf>,
    malformed: Malformed,
) -> Result<SignedGathering, OutOfMemory>
    ensures { IfOk result (λ g. GathersSigned malformed g (items_of blocks.items)) }
{
    let mut gathering = SignedGathering::new(alloc, malformed);
    for block in blocks {
        gathering.add_block(block)?;
    }
    Ok(gathering)
}
