//! The call for cleartext messages.

ghost use Rattle.std.specs.Prelude.{◌≡◌, ◌≢◌, ◌⊎◌, ◌<◌, ◌≤◌, ℕ, List, length, true, Ok, Err, IfOk};
ghost use Rattle.std.specs.Prelude.{IfErr};
ghost use Rattle.opgp_octets.specs.declared.fault.Fault.{Fault};
ghost use Rattle.opgp_frame.specs.Packet.{PacketValue};
ghost use Rattle.opgp_keyring.specs.DetachedSignatures.{detached_packets};
ghost use Rattle.opgp_keyring.specs.Signed.{signature_bodies};
ghost use Rattle.opgp_tables.specs.FaultRow.{fault_row};
ghost use Rattle.opgp_tables.specs.GivenLimits.{MayBeGiven};
ghost use Rattle.opgp_handles.specs.Calls.{IsFilled};
ghost use Rattle.opgp_handles.specs.Documents.{IsEnded, bodies_in, is_message, packets_in};
ghost use Rattle.opgp_handles.specs.SignedTexts.{MessageBy};
ghost use Rattle.opgp_cleartext.specs.Cleartext.{joined};
ghost use Rattle.opgp_cleartext.specs.View.{document_of};

use crate::calls::put_octets;
use crate::document::Document;
use crate::signed::{keep, open};
use crate::slot::Signed;
use crate::status::{DONE, LIMITS, MEMORY, REFUSED, ROOM};
use opgp_cleartext::Cleartext;
use opgp_codec::{ReadError, read_cleartext};
use opgp_keyring::DetachedSignatures;
use opgp_tables::{FaultRow, GivenLimits};
use std::alloc::Global;

/// Reads a cleartext message (RFC 9580, 7), puts its document into the octets, and keeps its
/// signatures in the handle.
pub fn cleartext_open(
    alloc: Global,
    input: &[u8],
    limits: &GivenLimits,
    octets: &mut [u8],
    size: &mut u64,
    document: &mut Document,
    fault: &mut FaultRow,
) -> u32
    ensures done { result ≡ 0 → (text : List (List ℕ)) × MessageBy limits.now input.now
        (Ok (text, packets_in document.new.slot.held))
        × IsFilled (joined text) octets.old octets.new × (size.new ≡ length (joined text))
        × (document.new.is_open ≡ true) × IsEnded (joined text) document.new.slot.held
        × (is_message document.new.slot.held ≡ true) }
    ensures few { result ≡ 0 → length (bodies_in document.new.slot.held) ≤ 64 }
    ensures refused { result ≡ 1 → (f : Fault) × MessageBy limits.now input.now (Err f)
        × (fault.new ≡ fault_row f) }
    ensures room { result ≡ 2 → (text : List (List ℕ)) × (packets : List PacketValue)
        × MessageBy limits.now input.now (Ok (text, packets))
        × (length octets.old < length (joined text)) × (size.new ≡ length (joined text)) }
    ensures many { result ≡ 8 → (text : List (List ℕ)) × (packets : List PacketValue)
        × MessageBy limits.now input.now (Ok (text, packets))
        × (64 < length (signature_bodies packets)) }
    ensures limits { (result ≡ 4) → MayBeGiven limits.now → ⊥ }
    ensures allowed { result ≢ 4 → MayBeGiven limits.now }
    ensures kept { result ≢ 0 → (octets.new ≡ octets.old) × (document.new ≡ document.old) }
    ensures size { (result ≡ 1) ⊎ ((result ≡ 3) ⊎ ((result ≡ 4) ⊎ (result ≡ 8)))
        → size.new ≡ size.old }
    ensures fault { result ≢ 1 → fault.new ≡ fault.old }
    ensures status { (result ≡ 0) ⊎ ((result ≡ 1) ⊎ ((result ≡ 2) ⊎ ((result ≡ 3)
        ⊎ ((result ≡ 4) ⊎ (result ≡ 8))))) }
{
    match read_message(alloc, input, limits, fault) {
        Ok((message, signatures)) => {
            keep_message(alloc, message, signatures, octets, size, document)
        }
        Err(status) => status,
    }
}

/// The message that a text is, and its signatures; or the status that says why it is none.
fn read_message<'a>(
    alloc: Global,
    input: &'a [u8],
    limits: &GivenLimits,
    fault: &mut FaultRow,
) -> Result<(Cleartext<'a>, DetachedSignatures), u32>
    ensures read { IfOk result (λ m. MessageBy limits.now input.now
        (Ok (document_of m.0, detached_packets m.1))) }
    ensures refused { result ≡ Err 1 → (f : Fault) × MessageBy limits.now input.now (Err f)
        × (fault.new ≡ fault_row f) }
    ensures fault { result ≢ Err 1 → fault.new ≡ fault.old }
    ensures limits { result ≡ Err 4 → MayBeGiven limits.now → ⊥ }
    ensures allowed { result ≢ Err 4 → MayBeGiven limits.now }
    ensures status { IfErr result (λ s. (s ≡ 1) ⊎ ((s ≡ 3) ⊎ (s ≡ 4))) }
{
    let Some(limits) = limits.limits() else {
        return Err(LIMITS);
    };
    match read_cleartext(alloc, input, &limits) {
        Ok(found) => Ok(found),
        Err(ReadError::Refused(found)) => {
            *fault = FaultRow::of(found);
            Err(REFUSED)
        }
        Err(ReadError::Read | ReadError::Memory) => Err(MEMORY),
    }
}

/// Keeps the signatures of a message in a handle, over its document, and puts that into the octets.
fn keep_message(
    alloc: Global,
    message: Cleartext<'_>,
    signatures: DetachedSignatures,
    octets: &mut [u8],
    size: &mut u64,
    into: &mut Document,
) -> u32
    ensures done { result ≡ 0 → IsFilled (joined (document_of message.entry)) octets.old octets.new
        × (into.new.is_open ≡ true)
        × IsEnded (joined (document_of message.entry)) into.new.slot.held
        × (packets_in into.new.slot.held ≡ detached_packets signatures)
        × (length (signature_bodies (detached_packets signatures)) ≤ 64)
        × (is_message into.new.slot.held ≡ true) }
    ensures room { result ≡ 2 → length octets.old < length (joined (document_of message.entry)) }
    ensures many { result ≡ 8 → 64 < length (signature_bodies (detached_packets signatures)) }
    ensures size { (result ≡ 0) ⊎ (result ≡ 2)
        → size.new ≡ length (joined (document_of message.entry)) }
    ensures same { (result ≡ 3) ⊎ (result ≡ 8) → size.new ≡ size.old }
    ensures kept { result ≢ 0 → (octets.new ≡ octets.old) × (into.new ≡ into.old) }
    ensures status { (result ≡ 0) ⊎ ((result ≡ 2) ⊎ ((result ≡ 3) ⊎ (result ≡ 8))) }
{
    if message.document_len() > octets.len() {
        *size = message.document_len() as u64;
        return ROOM;
    }
    let mut hashed = match open(alloc, &signatures) {
        Ok(hashed) => hashed,
        Err(status) => return status,
    };
    let mut document = Vec::new(alloc);
    if message.write_document(&mut document).is_err() {
        return MEMORY;
    }
    hashed.push(&document);
    match keep(alloc, into, Signed::Message(signatures, hashed.finish())) {
        DONE => put_octets(&document, octets, size),
        status => status,
    }
}
