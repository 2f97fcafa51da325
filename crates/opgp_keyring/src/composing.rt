//! Composing a keyring from blocks of packets.

ghost use Rattle.std.specs.Prelude.{◌≡◌, ◌++◌, ◌∷◌, [], List, false, IfOk, OnOk};
ghost use Rattle.opgp_octets.specs.declared.limits.Limits.{Limits};
ghost use Rattle.opgp_keyring.specs.Block.{items_of};
ghost use Rattle.opgp_keyring.specs.Composition.{Item, of_packet};
ghost use Rattle.opgp_keyring.specs.Answered.{IsComposedOf};
ghost use Rattle.opgp_keyring.specs.Fed.{is_ready};
ghost use Rattle.opgp_keyring.specs.Gathering.{Gathers};

use crate::block_of::BlockOf;
use crate::composer::Composer;
use crate::keyring::Keyring;
use opgp_frame::Placed;
use opgp_octets::{Fault, Limits, OutOfMemory};
use std::alloc::{AllocError, Global};

/// The result of composing packets.
#[derive(Drop)]
pub enum Composed {
    /// The keyring (RFC 9580, 10.1).
    Ring(Keyring),
    /// The fault of the first body that has one, else the first in the order.
    Refused(Fault),
}

/// The keyring of the packets of all blocks, in order (RFC 9580, 10.1), or the one fault: that of
/// the first body that has one, else the first in the order, where a block's label comes before its
/// packets.
///
/// Fails only when out of memory.
pub fn compose(
    alloc: Global,
    blocks: Vec<BlockOf>,
    limits: &Limits,
) -> Result<Composed, OutOfMemory>
    ensures { IfOk result (IsComposedOf limits.now (items_of blocks.items)) }
{
    let mut composer = Composer::new(alloc, *limits);
    let mut ring = Keyring::empty(alloc);
    for block in blocks {
        let BlockOf {
            block,
            label_fits,
            packets,
        } = block;
        composer.begin_block(block, label_fits);
        for placed in packets {
            add(&mut composer, &mut ring, placed)?;
        }
    }
    finish(composer, ring)
}

/// Adds the next packet of a block, and to the keyring the part that it makes ready. The condition
/// is that no part is ready.
///
/// Fails only when out of memory.
fn add(composer: &mut Composer, ring: &mut Keyring, placed: Placed) -> Result<(), OutOfMemory>
    requires { is_ready composer.old ≡ false }
    ensures added { OnOk result ((limits : Limits) (given : List Item)
        → Gathers limits composer.old ring.old given
        → Gathers limits composer.new ring.new (given ++ of_packet placed ∷ [])) }
    ensures free { OnOk result (is_ready composer.new ≡ false) }
{
    match composer.push(placed) {
        Ok(()) => {}
        Err(_) => return Err(AllocError),
    }
    if let Some(part) = composer.take() {
        ring.keep(part)?;
    }
    Ok(())
}

/// Ends the packets: the keyring with its last part, or the one fault. The condition is that no
/// part is ready.
///
/// Fails only when out of memory.
fn finish(composer: Composer, mut ring: Keyring) -> Result<Composed, OutOfMemory>
    requires { is_ready composer ≡ false }
    ensures { IfOk result (λ answer. (limits : Limits) (given : List Item)
        → Gathers limits composer ring given
        → IsComposedOf limits given answer) }
{
    match composer.finish() {
        Ok(None) => Ok(Composed::Ring(ring)),
        Ok(Some(part)) => {
            ring.keep(part)?;
            Ok(Composed::Ring(ring))
        }
        Err(fault) => Ok(Composed::Refused(fault)),
    }
}
