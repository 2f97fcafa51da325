//! A fault as numbers.

ghost use Rattle.std.specs.Prelude.{◌≡◌};
ghost use Rattle.opgp_tables.specs.FaultRow.{fault_of, fault_row};

use opgp_octets::{Fault, Layer, Reason};

/// A fault as numbers.
#[repr(C)]
#[derive(Clone, Copy)]
pub struct FaultRow {
    /// The number of the armored block, from 0; 0 for binary input.
    pub block: u64,
    /// Where the line begins in the text, or the packet in its block's octets.
    pub pos: u64,
    /// Where the header or field at fault begins within the packet, or within its body.
    pub inner: u64,
    /// The layer: 0 input, 1 armor, 2 framing, 3 body, 4 composition.
    pub layer: u8,
    /// The number of the reason.
    pub reason: u8,
    /// Zeros.
    pub reserved: [u8; 6],
}

impl FaultRow {
    /// The numbers of a fault.
    pub fn of(fault: Fault) -> FaultRow
        ensures { result ≡ fault_row fault }
    {
        FaultRow {
            block: fault.block,
            pos: fault.pos,
            inner: fault.inner,
            layer: fault.layer.number(),
            reason: fault.reason.number(),
            reserved: [0; 6],
        }
    }

    /// The fault of these numbers; or None if no layer, or no reason, has the number.
    pub fn fault(&self) -> Option<Fault>
        ensures { result ≡ fault_of self.now }
    {
        Some(Fault {
            layer: Layer::of(self.layer)?,
            reason: Reason::of(self.reason)?,
            block: self.block,
            pos: self.pos,
            inner: self.inner,
        })
    }
}
