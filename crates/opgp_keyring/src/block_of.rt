//! Blocks of packets.

ghost use Rattle.std.specs.Prelude.{◌≡◌, IfOk};

use crate::copying::copy_all;
use opgp_frame::Placed;
use opgp_octets::OutOfMemory;
use std::alloc::Global;

/// The packets of a block (RFC 9580, 6).
#[derive(Drop)]
pub struct BlockOf {
    /// The number of the armored block; 0 for binary input.
    pub block: u64,
    /// Whether its label is the expected one; true for binary input.
    pub label_fits: bool,
    /// Its packets, in order.
    pub packets: Vec<Placed>,
}

impl BlockOf {
    /// A copy of this block. Fails only when out of memory.
    pub fn copy(&self, alloc: Global) -> Result<BlockOf, OutOfMemory>
        ensures block { IfOk result (λ b. b.block ≡ self.now.block) }
        ensures label_fits { IfOk result (λ b. b.label_fits ≡ self.now.label_fits) }
        ensures packets { IfOk result (λ b. b.packets.items ≡ self.now.packets.items) }
    {
        let packets = copy_all(alloc, &self.packets, |placed| placed.copy(alloc))?;
        Ok(BlockOf {
            block: self.block,
            label_fits: self.label_fits,
            packets,
        })
    }
}
