//! The packets of an input that wait to be taken.

ghost use Rattle.std.specs.Prelude.{◌≡◌, ◌++◌, ◌∷◌, [], None, OnOk};
ghost use Rattle.opgp_codec.specs.PacketReader.{handed, packets_in};

use opgp_frame::Placed;
use opgp_octets::OutOfMemory;
use std::alloc::Global;
use std::collections::VecDeque;

/// Packets that are complete and weren't taken yet, in order.
#[derive(Drop)]
pub struct WaitingPackets {
    packets: VecDeque<Placed>,
}

impl WaitingPackets {
    /// None yet. Allocates nothing; additions do, from `alloc`.
    pub(crate) fn new(alloc: Global) -> WaitingPackets
        ensures { packets_in result ≡ [] }
    {
        WaitingPackets {
            packets: VecDeque::new(alloc),
        }
    }

    /// Adds a packet behind the others. Fails only when out of memory.
    pub(crate) fn add(&mut self, packet: Placed) -> Result<(), OutOfMemory>
        ensures { OnOk result (packets_in self.new ≡ packets_in self.old ++ packet ∷ []) }
    {
        self.packets.push_back(packet)?;
        Ok(())
    }

    /// Takes the first of them.
    pub fn take(&mut self) -> Option<Placed>
        ensures packets { packets_in self.old ≡ handed result ++ packets_in self.new }
        ensures none { result ≡ None → packets_in self.old ≡ [] }
    {
        self.packets.pop_front()
    }
}
