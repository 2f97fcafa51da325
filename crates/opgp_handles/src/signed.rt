//! What a handle does with the signatures that it holds, and the document that they are over.

ghost use Rattle.std.specs.Prelude.{◌≡◌, ◌≢◌, ◌<◌, ◌≤◌, ◌⊎◌, ◌++◌, [], ℕ, List, length};
ghost use Rattle.std.specs.Prelude.{IfErr, IfOk, Ok, Err, true, false};
ghost use Rattle.opgp_document.specs.SignedDocument.{IsSignedBy};
ghost use Rattle.opgp_keyring.specs.DetachedSignatures.{detached_packets};
ghost use Rattle.opgp_keyring.specs.Signed.{signature_bodies};
ghost use Rattle.opgp_octets.specs.declared.fault.Fault.{Fault};
ghost use Rattle.opgp_tables.specs.FaultRow.{fault_row};
ghost use Rattle.opgp_tables.specs.GivenLimits.{MayBeGiven};
ghost use Rattle.opgp_handles.specs.Documents.{IsEnded, IsGiven, IsGoing, SignaturesBy, is_message};
ghost use Rattle.opgp_handles.specs.Documents.{packets_in, signed_in};

use crate::document::Document;
use crate::slot::Signed;
use crate::status::{DONE, ENDED, LIMITS, MANY, MEMORY, REFUSED};
use opgp_codec::{Mode, ReadError, Watched, read_signatures};
use opgp_document::{OpenFault, SignedDocument};
use opgp_keyring::DetachedSignatures;
use opgp_tables::{FaultRow, GivenLimits};
use std::alloc::Global;
use std::mem;

/// The detached signatures of an input that is read by a mode; or the status that says why there
/// are none.
pub(crate) fn read_detached(
    alloc: Global,
    input: &[u8],
    mode: Mode,
    limits: &GivenLimits,
    fault: &mut FaultRow,
) -> Result<DetachedSignatures, u32>
    ensures read { IfOk result (λ s.
        SignaturesBy mode limits.now input.now (Ok (detached_packets s))) }
    ensures refused { result ≡ Err 1 → (f : Fault)
        × SignaturesBy mode limits.now input.now (Err f) × (fault.new ≡ fault_row f) }
    ensures fault { result ≢ Err 1 → fault.new ≡ fault.old }
    ensures limits { result ≡ Err 4 → MayBeGiven limits.now → ⊥ }
    ensures allowed { result ≢ Err 4 → MayBeGiven limits.now }
    ensures status { IfErr result (λ s. (s ≡ 1) ⊎ ((s ≡ 3) ⊎ (s ≡ 4))) }
{
    let Some(limits) = limits.limits() else {
        return Err(LIMITS);
    };
    let mut source = Watched::new(input);
    match read_signatures(alloc, &mut source, mode, &limits) {
        Ok(signatures) => Ok(signatures),
        Err(ReadError::Refused(found)) => {
            *fault = FaultRow::of(found);
            Err(REFUSED)
        }
        Err(ReadError::Read | ReadError::Memory) => Err(MEMORY),
    }
}

/// A document under these signatures, of which nothing was given; or the status that says why there
/// is none.
pub(crate) fn open(alloc: Global, signatures: &DetachedSignatures) -> Result<SignedDocument, u32>
    ensures ok { IfOk result (λ d. IsSignedBy d
        (signed_in (signature_bodies (detached_packets signatures.now))) []) }
    ensures few { IfOk result (λ _.
        length (signature_bodies (detached_packets signatures.now)) ≤ 64) }
    ensures many { result ≡ Err 8
        → 64 < length (signature_bodies (detached_packets signatures.now)) }
    ensures status { IfErr result (λ s. (s ≡ 3) ⊎ (s ≡ 8)) }
{
    let views = match signatures.views(alloc) {
        Ok(views) => views,
        Err(_) => return Err(MEMORY),
    };
    match SignedDocument::open(alloc, &views) {
        Ok(document) => Ok(document),
        Err(OpenFault::TooManySignatures) => Err(MANY),
        Err(OpenFault::Memory) => Err(MEMORY),
    }
}

/// Keeps this in a handle; what that held before is let go.
pub(crate) fn keep(alloc: Global, into: &mut Document, signed: Signed) -> u32
    ensures done { result ≡ 0 → (into.new.is_open ≡ true) × (into.new.slot.held ≡ signed) }
    ensures kept { result ≢ 0 → into.new ≡ into.old }
    ensures status { (result ≡ 0) ⊎ (result ≡ 3) }
{
    match Document::of(alloc, signed) {
        Ok(new) => {
            drop(mem::replace(into, new).into_box());
            DONE
        }
        Err(_) => MEMORY,
    }
}

/// Keeps these signatures in a handle, and begins a document under them; what the handle held
/// before is let go.
pub(crate) fn keep_signatures(
    alloc: Global,
    into: &mut Document,
    signatures: DetachedSignatures,
) -> u32
    ensures done { result ≡ 0 → (into.new.is_open ≡ true)
        × (packets_in into.new.slot.held ≡ detached_packets signatures)
        × IsGoing [] into.new.slot.held
        × (length (signature_bodies (detached_packets signatures)) ≤ 64) }
    ensures many { result ≡ 8 → 64 < length (signature_bodies (detached_packets signatures)) }
    ensures kept { result ≢ 0 → into.new ≡ into.old }
    ensures status { (result ≡ 0) ⊎ ((result ≡ 3) ⊎ (result ≡ 8)) }
{
    let document = match open(alloc, &signatures) {
        Ok(document) => document,
        Err(status) => return status,
    };
    keep(alloc, into, Signed::Going(signatures, document))
}

/// Takes a piece of the document, unless that has ended.
pub(crate) fn push_octets(held: &mut Signed, piece: &[u8]) -> u32
    ghost so_far: { List ℕ }
    requires { IsGiven so_far held.old }
    ensures done { result ≡ 0 → IsGoing (so_far ++ piece.now) held.new }
    ensures ended { result ≡ 7 → IsEnded so_far held.old × (held.new ≡ held.old) }
    ensures going { IsGoing so_far held.old → result ≡ 0 }
    ensures again { IsEnded so_far held.old → result ≡ 7 }
    ensures same { packets_in held.new ≡ packets_in held.old }
    ensures status { (result ≡ 0) ⊎ (result ≡ 7) }
{
    match held {
        Signed::Going(_, document) => {
            document.push(piece);
            DONE
        }
        Signed::Ended(_, _) | Signed::Message(_, _) => ENDED,
        Signed::Lost => unreachable!(),
    }
}

/// Ends the document, unless it has ended.
fn end(held: Signed) -> Signed
    ghost so_far: { List ℕ }
    requires { IsGiven so_far held }
    ensures ended { IsEnded so_far result }
    ensures same { (packets_in result ≡ packets_in held)
        × (is_message result ≡ is_message held) }
    ensures again { IsEnded so_far held → result ≡ held }
{
    match held {
        Signed::Going(signatures, document) => Signed::Ended(signatures, document.finish()),
        Signed::Ended(signatures, answers) => Signed::Ended(signatures, answers),
        Signed::Message(signatures, answers) => Signed::Message(signatures, answers),
        Signed::Lost => unreachable!(),
    }
}

/// Whether the document has ended.
fn has_ended(held: &Signed) -> bool
    ghost so_far: { List ℕ }
    requires { IsGiven so_far held.now }
    ensures ended { result ≡ true → IsEnded so_far held.now }
    ensures going { result ≡ false → IsGoing so_far held.now }
{
    match held {
        Signed::Going(_, _) => false,
        Signed::Ended(_, _) | Signed::Message(_, _) => true,
        Signed::Lost => unreachable!(),
    }
}

/// Ends the document, unless it has ended, and says which.
pub(crate) fn end_document(held: &mut Signed) -> u32
    ghost so_far: { List ℕ }
    requires { IsGiven so_far held.old }
    ensures done { result ≡ 0 → IsGoing so_far held.old }
    ensures again { result ≡ 7 → IsEnded so_far held.old × (held.new ≡ held.old) }
    ensures ended { IsEnded so_far held.new }
    ensures same { (packets_in held.new ≡ packets_in held.old)
        × (is_message held.new ≡ is_message held.old) }
    ensures status { (result ≡ 0) ⊎ (result ≡ 7) }
{
    let status = if has_ended(held) { ENDED } else { DONE };
    let ended = end(mem::replace(held, Signed::Lost));
    drop(mem::replace(held, ended));
    status
}
