//! The calls for signatures over a document.

ghost use Rattle.std.specs.Prelude.{◌≡◌, ◌≢◌, ◌↔◌, ◌⊎◌, ◌<◌, ◌≤◌, ◌++◌, [], length};
ghost use Rattle.std.specs.Prelude.{true, false, ℕ, List, Some, None, Ok, Err};
ghost use Rattle.std.specs.List.{slice_get};
ghost use Rattle.opgp_octets.specs.declared.fault.Fault.{Fault};
ghost use Rattle.opgp_frame.specs.Packet.{PacketValue};
ghost use Rattle.opgp_hash.specs.SignedValue.{SignedValue};
ghost use Rattle.opgp_keyring.specs.Signed.{signature_bodies};
ghost use Rattle.opgp_codec.specs.declared.mode.Mode.{Mode};
ghost use Rattle.opgp_tables.specs.DocumentJobs.{document_subpacket_bytes};
ghost use Rattle.opgp_tables.specs.DocumentJobs.{document_subpacket_rows};
ghost use Rattle.opgp_tables.specs.FaultRow.{fault_row};
ghost use Rattle.opgp_tables.specs.GivenLimits.{MayBeGiven};
ghost use Rattle.opgp_handles.specs.Calls.{IsFilled, mode_by};
ghost use Rattle.opgp_handles.specs.Documents.{IsEnded, IsGoing, KeepsItsOwn, PutsJobs, PutsSigned};
ghost use Rattle.opgp_handles.specs.Documents.{SignaturesBy, WasGiven, bodies_in, is_message};
ghost use Rattle.opgp_handles.specs.Documents.{packets_in, side_of, signed_by, signed_in};

use crate::calls::mode_by;
use crate::document::Document;
use crate::ring::Ring;
use crate::signed::{end_document, keep_signatures, push_octets, read_detached};
use crate::signed_tables::{put_jobs, put_row_side, put_subpackets};
use crate::sizes::Sizes;
use crate::status::{CLOSED, LIMITS};
use opgp_tables::{FaultRow, GivenLimits, JobRow, SubpacketRow};
use std::alloc::Global;

/// Reads the signatures over a document (RFC 9580, 10.4), and keeps them in the handle.
pub fn document_open(
    alloc: Global,
    input: &[u8],
    mode: u32,
    limits: &GivenLimits,
    document: &mut Document,
    fault: &mut FaultRow,
) -> u32
    ensures done { result ≡ 0 → (m : Mode) × (mode_by mode ≡ Some m)
        × (document.new.is_open ≡ true)
        × SignaturesBy m limits.now input.now (Ok (packets_in document.new.slot.held))
        × IsGoing [] document.new.slot.held }
    ensures few { result ≡ 0 → length (bodies_in document.new.slot.held) ≤ 64 }
    ensures refused { result ≡ 1 → (m : Mode) × (mode_by mode ≡ Some m) × (f : Fault)
        × SignaturesBy m limits.now input.now (Err f) × (fault.new ≡ fault_row f) }
    ensures many { result ≡ 8 → (m : Mode) × (mode_by mode ≡ Some m) × (packets : List PacketValue)
        × SignaturesBy m limits.now input.now (Ok packets)
        × (64 < length (signature_bodies packets)) }
    ensures limits { result ≡ 4 → (mode < 3) × MayBeGiven limits.now → ⊥ }
    ensures allowed { result ≢ 4 → (mode < 3) × MayBeGiven limits.now }
    ensures kept { result ≢ 0 → document.new ≡ document.old }
    ensures fault { result ≢ 1 → fault.new ≡ fault.old }
    ensures status { (result ≡ 0) ⊎ ((result ≡ 1) ⊎ ((result ≡ 3) ⊎ ((result ≡ 4)
        ⊎ (result ≡ 8)))) }
{
    let Some(mode) = mode_by(mode) else {
        return LIMITS;
    };
    match read_detached(alloc, input, mode, limits, fault) {
        Ok(signatures) => keep_signatures(alloc, document, signatures),
        Err(status) => status,
    }
}

/// Takes the next piece of the document.
pub fn document_push(alloc: Global, document: &mut Document, piece: &[u8]) -> u32
    ghost so_far: { List ℕ }
    requires { WasGiven so_far document.old }
    ensures done { result ≡ 0 → (document.new.is_open ≡ true)
        × IsGoing (so_far ++ piece.now) document.new.slot.held
        × (packets_in document.new.slot.held ≡ packets_in document.old.slot.held) }
    ensures ended { result ≡ 7 → IsEnded so_far document.old.slot.held }
    ensures going { document.old.is_open ≡ true → IsGoing so_far document.old.slot.held
        → result ≡ 0 }
    ensures again { document.old.is_open ≡ true → IsEnded so_far document.old.slot.held
        → result ≡ 7 }
    ensures kept { result ≢ 0 → KeepsItsOwn document.old document.new }
    ensures closed { (result ≡ 5) ↔ (document.old.is_open ≡ false) }
    ensures status { (result ≡ 0) ⊎ ((result ≡ 5) ⊎ (result ≡ 7)) }
{
    let Some(mut held) = document.take(alloc) else {
        return CLOSED;
    };
    let status = push_octets(&mut held, piece);
    document.give(held);
    status
}

/// Ends the document.
pub fn document_end(alloc: Global, document: &mut Document) -> u32
    ghost so_far: { List ℕ }
    requires { WasGiven so_far document.old }
    ensures done { result ≡ 0 → (document.new.is_open ≡ true)
        × IsEnded so_far document.new.slot.held
        × (packets_in document.new.slot.held ≡ packets_in document.old.slot.held)
        × (is_message document.new.slot.held ≡ is_message document.old.slot.held) }
    ensures ended { result ≡ 7 → IsEnded so_far document.old.slot.held }
    ensures going { result ≡ 0 → IsGoing so_far document.old.slot.held }
    ensures kept { result ≢ 0 → KeepsItsOwn document.old document.new }
    ensures closed { (result ≡ 5) ↔ (document.old.is_open ≡ false) }
    ensures status { (result ≡ 0) ⊎ ((result ≡ 5) ⊎ (result ≡ 7)) }
{
    let Some(mut held) = document.take(alloc) else {
        return CLOSED;
    };
    let status = end_document(&mut held);
    document.give(held);
    status
}

/// Fills the tables with the signatures over a document that has ended.
pub fn document_jobs(
    alloc: Global,
    document: &mut Document,
    ring: &mut Ring,
    rows: &mut [JobRow],
    bytes: &mut [u8],
    sizes: &mut Sizes,
) -> u32
    ghost so_far: { List ℕ }
    requires { WasGiven so_far document.old }
    ensures { PutsJobs so_far document.old document.new ring.old ring.new rows.old rows.new
        bytes.old bytes.new sizes.new result }
{
    let Some(signed) = document.take(alloc) else {
        return CLOSED;
    };
    let Some(held) = ring.take(alloc) else {
        document.give(signed);
        return CLOSED;
    };
    let status = put_jobs(alloc, &signed, &held.keyring, rows, bytes, sizes);
    ring.give(held);
    document.give(signed);
    status
}

/// Fills the tables with the subpackets of the signatures over a document.
pub fn document_subpackets(
    alloc: Global,
    document: &mut Document,
    rows: &mut [SubpacketRow],
    bytes: &mut [u8],
    sizes: &mut Sizes,
) -> u32
    ghost so_far: { List ℕ }
    requires { WasGiven so_far document.old }
    ensures { PutsSigned document_subpacket_rows document_subpacket_bytes document.old document.new
        rows.old rows.new bytes.old bytes.new sizes.new result }
{
    let Some(held) = document.take(alloc) else {
        return CLOSED;
    };
    let status = put_subpackets(&held, rows, bytes, sizes);
    document.give(held);
    status
}

/// Puts the octets that the signature of a row hashes in front of its document, or behind it.
pub fn document_octets(
    alloc: Global,
    document: &mut Document,
    row: u64,
    behind: u32,
    octets: &mut [u8],
    size: &mut u64,
) -> u32
    ghost so_far: { List ℕ }
    requires { WasGiven so_far document.old }
    ensures done { result ≡ 0 → (s : SignedValue)
        × (signed_by (slice_get (signed_in (bodies_in document.old.slot.held)) row) ≡ Some s)
        × IsFilled (side_of behind s) octets.old octets.new
        × (size.new ≡ length (side_of behind s)) }
    ensures room { result ≡ 2 → (s : SignedValue)
        × (signed_by (slice_get (signed_in (bodies_in document.old.slot.held)) row) ≡ Some s)
        × (length octets.old < length (side_of behind s))
        × (size.new ≡ length (side_of behind s)) }
    ensures none { result ≡ 6
        → signed_by (slice_get (signed_in (bodies_in document.old.slot.held)) row) ≡ None }
    ensures kept { result ≢ 0 → octets.new ≡ octets.old }
    ensures size { (result ≡ 3) ⊎ ((result ≡ 5) ⊎ (result ≡ 6)) → size.new ≡ size.old }
    ensures closed { (result ≡ 5) ↔ (document.old.is_open ≡ false) }
    ensures holds { KeepsItsOwn document.old document.new }
    ensures status { (result ≡ 0) ⊎ ((result ≡ 2) ⊎ ((result ≡ 3) ⊎ ((result ≡ 5)
        ⊎ (result ≡ 6)))) }
{
    let Some(held) = document.take(alloc) else {
        return CLOSED;
    };
    let status = put_row_side(alloc, &held, row, behind, octets, size);
    document.give(held);
    status
}

/// Lets go what a handle holds.
pub fn document_close(document: Document) {
    drop(document.into_box());
}

/// Lets go what a handle holds, and leaves it closed.
pub fn document_clear(alloc: Global, document: &mut Document)
    ensures { document.new.is_open ≡ false }
{
    drop(document.take(alloc));
}
