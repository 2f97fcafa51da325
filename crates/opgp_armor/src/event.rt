//! What a reader of armor hands out.

ghost use Rattle.std.specs.Prelude.{◌≡◌, IfOk};
ghost use Rattle.opgp_armor.specs.Events.{event_of};

use crate::label::Label;
use opgp_octets::OutOfMemory;
use std::alloc::Global;

/// What a line of an armored text yields (RFC 9580, 6.2): one event or none.
#[derive(Drop)]
pub enum ArmorEvent {
    /// A begin line with this label (RFC 9580, 6.2.1).
    Begin(Label),
    /// A header: its key and its value (RFC 9580, 6.2.2).
    Header(Vec<u8>, Vec<u8>),
    /// The octets of the groups of four letters that a data line completes (RFC 9580, 6).
    Octets(Vec<u8>),
    /// The end line of the block (RFC 9580, 6.2.3).
    End,
}

impl ArmorEvent {
    /// A copy of this event. Fails only when out of memory.
    pub fn copy(&self, alloc: Global) -> Result<ArmorEvent, OutOfMemory>
        ensures { IfOk result (λ e. event_of e ≡ event_of self.now) }
    {
        match self {
            ArmorEvent::Begin(label) => Ok(ArmorEvent::Begin(*label)),
            ArmorEvent::Header(key, value) => {
                let key = Vec::from_slice(alloc, key.as_slice())?;
                let value = Vec::from_slice(alloc, value.as_slice())?;
                Ok(ArmorEvent::Header(key, value))
            }
            ArmorEvent::Octets(octets) => {
                let octets = Vec::from_slice(alloc, octets.as_slice())?;
                Ok(ArmorEvent::Octets(octets))
            }
            ArmorEvent::End => Ok(ArmorEvent::End),
        }
    }
}
