//! A fault as a line of text.

ghost use Rattle.std.specs.Prelude.{◌≡◌, IfOk, Some, string_bytes};
ghost use Rattle.std.specs.Fmt.{padded};
ghost use Rattle.opgp_octets.specs.Fault.{fault_text, body_fault_text, layer_name, reason_name};

use crate::fault::{BodyFault, Fault, Layer, Reason};
use crate::refusal::OutOfMemory;
use arrayvec::ArrayString;
use itoa::Buffer;
use std::alloc::Global;
use std::error::Error;
use std::fmt;

/// How many octets the longest line of a fault has: 11 of its layer, 17 of its reason, 20 of each
/// of three numbers, and 20 between them.
pub const FAULT_LINE: usize = 108;

/// The line of a fault, without a line end: `<layer>: <Reason> block <b> at <pos> inner <inner>`.
/// It takes no allocation.
#[tactic(auto, using(crate::proofs::Numbers::layer_short, crate::proofs::Numbers::reason_short))]
pub fn short_line(fault: &Fault) -> ArrayString<FAULT_LINE>
    ensures { result.bytes ≡ fault_text fault.now }
{
    let mut line = ArrayString::new();
    line.push_str(fault.layer.name());
    line.push_str(": ");
    line.push_str(fault.reason.name());
    line.push_str(" block ");
    line.push_str(Buffer::new().format(fault.block));
    line.push_str(" at ");
    line.push_str(Buffer::new().format(fault.pos));
    line.push_str(" inner ");
    line.push_str(Buffer::new().format(fault.inner));
    line
}

/// The line of [`short_line`], as a text of its own. Fails only when out of memory.
pub fn fault_line(alloc: Global, fault: &Fault) -> Result<String, OutOfMemory>
    ensures { IfOk result (λ line. string_bytes line ≡ fault_text fault.now) }
{
    fault.to_string(alloc)
}

/// The name.
impl fmt::Display for Layer {
    ghost output = { λ layer. Some (layer_name layer) };

    ghost styled_output = { λ layer spec. Some (padded spec (layer_name layer)) };

    fn fmt<W: fmt::Write>(&self, f: &mut fmt::Formatter<W>) -> fmt::Result {
        f.pad(self.name())
    }
}

/// The name.
impl fmt::Display for Reason {
    ghost output = { λ reason. Some (reason_name reason) };

    ghost styled_output = { λ reason spec. Some (padded spec (reason_name reason)) };

    fn fmt<W: fmt::Write>(&self, f: &mut fmt::Formatter<W>) -> fmt::Result {
        f.pad(self.name())
    }
}

impl Error for Reason {}

/// The line of [`short_line`].
impl fmt::Display for Fault {
    ghost output = { λ fault. Some (fault_text fault) };

    fn fmt<W: fmt::Write>(&self, f: &mut fmt::Formatter<W>) -> fmt::Result {
        f.write_str(short_line(self).as_str())
    }
}

impl Error for Fault {}

/// The end of a fault's line: `<Reason> inner <inner>`.
impl fmt::Display for BodyFault {
    ghost output = { λ fault. Some (body_fault_text fault) };

    fn fmt<W: fmt::Write>(&self, f: &mut fmt::Formatter<W>) -> fmt::Result {
        let reason = self.reason.name();
        let inner = self.inner;
        write!(f, "{reason} inner {inner}")
    }
}

impl Error for BodyFault {}
