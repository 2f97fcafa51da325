//! The end of the last block.

ghost use Rattle.std.specs.Prelude.{◌<◌, ◌^◌, ◌↔◌, IsTrue};
ghost use Rattle.opgp_keyring.specs.Block.{items_of};
ghost use Rattle.opgp_keyring.specs.Signed.{end_pos};

use crate::block_of::BlockOf;

/// Whether the last block ends at 2^64 - 1 at most: the place of its last packet plus that packet's
/// length. Allocates nothing.
pub fn end_fits(blocks: &[BlockOf]) -> bool
    ensures { IsTrue result ↔ (end_pos (items_of blocks.now) < 2 ^ 64) }
{
    let Some(block) = blocks.last() else {
        return true;
    };
    match block.packets.last() {
        Some(placed) => {
            let octets = placed.packet.spelled_len();
            octets <= u64::MAX - placed.pos
        }
        None => true,
    }
}
