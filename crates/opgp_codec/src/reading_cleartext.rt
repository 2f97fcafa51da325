//! Reads a cleartext message with its signatures.

ghost use Rattle.std.specs.Prelude.{◌≡◌, ◌+◌, ◌<◌, ◌≤◌, ◌^◌, IfOk, drop, length};
ghost use Rattle.opgp_cleartext.specs.Cleartext.{HasCleartext};
ghost use Rattle.opgp_cleartext.specs.View.{document_of, place_of, rest_of};
ghost use Rattle.opgp_codec.specs.Cleartext.{ReadsCleartext, moved};
ghost use Rattle.opgp_codec.specs.Reading.{too_long};
ghost use Rattle.opgp_octets.specs.declared.fault.Layer.TheVariants as layer;
ghost use Rattle.opgp_octets.specs.Limits.{line_limit};

use crate::mode::Mode;
use crate::read_error::ReadError;
use crate::reading_signatures::read_signatures;
use opgp_cleartext::Cleartext;
use opgp_io::Watched;
use opgp_keyring::DetachedSignatures;
use opgp_octets::{Fault, Layer, Limits, Outside, Reason};
use std::alloc::Global;

/// The document and the signatures of a message in the cleartext signature framework (RFC 9580, 7),
/// or the one fault of the lowest layer that refuses it: input, the message's lines, armor,
/// framing, bodies, composition.
///
/// What is behind the document must be armored blocks of signatures alone: a line outside of them
/// must be blank, whatever the limits say of such lines. A fault's place is the line's in the whole
/// text. The error is a fault, or out of memory.
pub fn read_cleartext<'a>(
    alloc: Global,
    text: &'a [u8],
    limits: &Limits,
) -> Result<(Cleartext<'a>, DetachedSignatures), ReadError>
    ensures reads { ReadsCleartext limits.now text.now result }
    // The view that is handed out is that of this text.
    ensures lines { IfOk result (λ r.
        HasCleartext (line_limit limits.now) text.now (document_of r.0) (rest_of r.0)) }
    ensures place { IfOk result (λ r. (place_of r.0 ≤ length text.now)
        × (rest_of r.0 ≡ drop (place_of r.0) text.now)) }
{
    if text.len() as u64 > limits.input() {
        return Err(ReadError::Refused(too_long(limits)));
    }
    let message = match Cleartext::read(text, limits.line()) {
        Ok(message) => message,
        Err(fault) => return Err(ReadError::Refused(fault)),
    };
    let strict = limits.with_outside(Outside::Refuse);
    let mut source = Watched::new(message.signatures());
    match read_signatures(alloc, &mut source, Mode::Armor, &strict) {
        Ok(signatures) => Ok((message, signatures)),
        Err(ReadError::Refused(fault)) => {
            let place = message.signatures_place();
            Err(ReadError::Refused(moved(place, fault)))
        }
        Err(ReadError::Read | ReadError::Memory) => Err(ReadError::Memory),
    }
}

/// The fault of a text that is longer than the limit.
fn too_long(limits: &Limits) -> Fault
    ensures { result ≡ too_long limits.now }
{
    Fault {
        layer: Layer::Input,
        reason: Reason::InputTooLong,
        block: 0,
        pos: limits.input(),
        inner: 0,
    }
}

/// A fault of what begins at this place of the text.
fn moved(place: usize, fault: Fault) -> Fault
    requires { fault.layer ≡ layer.Armor → place + fault.pos < 2 ^ 64 }
    ensures { result ≡ moved place fault }
{
    match fault.layer {
        Layer::Armor => Fault {
            pos: place as u64 + fault.pos,
            ..fault
        },
        _ => fault,
    }
}
