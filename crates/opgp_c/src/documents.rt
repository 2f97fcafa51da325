//! The calls for signatures over a document.

ghost use Rattle.std.specs.Prelude.{◌≡◌, ◌≢◌, ◌↔◌, ◌⊎◌, ◌<◌, ◌≤◌, ◌++◌, [], length, true, false, ℕ};
ghost use Rattle.std.specs.Prelude.{List, Some, None, Ok, Err};
ghost use Rattle.std.specs.List.{slice_get};
ghost use Rattle.opgp_octets.specs.declared.fault.Fault.{Fault};
ghost use Rattle.opgp_frame.specs.Packet.{PacketValue};
ghost use Rattle.opgp_hash.specs.SignedValue.{SignedValue};
ghost use Rattle.opgp_keyring.specs.Signed.{signature_bodies};
ghost use Rattle.opgp_codec.specs.declared.mode.Mode.{Mode};
ghost use Rattle.opgp_tables.specs.DocumentJobs.{document_subpacket_bytes, document_subpacket_rows};
ghost use Rattle.opgp_tables.specs.FaultRow.{fault_row};
ghost use Rattle.opgp_tables.specs.GivenLimits.{MayBeGiven};
ghost use Rattle.opgp_handles.specs.Calls.{IsFilled, mode_by};
ghost use Rattle.opgp_handles.specs.Documents.{IsEnded, IsGoing, KeepsItsOwn, PutsJobs, PutsSigned};
ghost use Rattle.opgp_handles.specs.Documents.{SignaturesBy, WasGiven, bodies_in, is_message};
ghost use Rattle.opgp_handles.specs.Documents.{packets_in, side_of, signed_by, signed_in};

use opgp_handles::{
    Document, Ring, Sizes, document_clear, document_close, document_end, document_jobs,
    document_octets, document_open, document_push, document_subpackets,
};
use opgp_tables::{FaultRow, GivenLimits, JobRow, SubpacketRow};
use std::alloc::Global;

/// Reads the signatures over a document (RFC 9580, 10.4), by a mode as `opgp_ring_open_mode`, and
/// keeps them in the handle, with a document of which nothing was given; what the handle held
/// before is let go.
///
/// The statuses are those of `opgp_ring_open_mode`, and one for more signatures than 64. Where it
/// isn't done, the handle is unchanged.
#[unsafe(no_mangle)]
pub extern "C" fn opgp_document_open(
    alloc: Global,
    input: &[u8],
    mode: u32,
    limits: &GivenLimits,
    document: &mut Document,
    fault: &mut FaultRow,
) -> u32
    ensures done { result ≡ 0 → (m : Mode) × (mode_by mode ≡ Some m)
        × (document.new.is_open ≡ true)
        × SignaturesBy m limits.now input.now (Ok (packets_in document.new.slot.held))
        × IsGoing [] document.new.slot.held }
    ensures few { result ≡ 0 → length (bodies_in document.new.slot.held) ≤ 64 }
    ensures refused { result ≡ 1 → (m : Mode) × (mode_by mode ≡ Some m) × (f : Fault)
        × SignaturesBy m limits.now input.now (Err f) × (fault.new ≡ fault_row f) }
    ensures many { result ≡ 8 → (m : Mode) × (mode_by mode ≡ Some m) × (packets : List PacketValue)
        × SignaturesBy m limits.now input.now (Ok packets)
        × (64 < length (signature_bodies packets)) }
    ensures limits { result ≡ 4 → (mode < 3) × MayBeGiven limits.now → ⊥ }
    ensures allowed { result ≢ 4 → (mode < 3) × MayBeGiven limits.now }
    ensures kept { result ≢ 0 → document.new ≡ document.old }
    ensures fault { result ≢ 1 → fault.new ≡ fault.old }
    ensures status { (result ≡ 0) ⊎ ((result ≡ 1) ⊎ ((result ≡ 3) ⊎ ((result ≡ 4)
        ⊎ (result ≡ 8)))) }
{
    document_open(alloc, input, mode, limits, document, fault)
}

/// Takes the next piece of the document. The condition is that the handle was given so much of it.
///
/// The status says whether it is done; else the piece isn't taken: the document had ended, or the
/// handle holds nothing. Allocates nothing.
#[unsafe(no_mangle)]
pub extern "C" fn opgp_document_push(alloc: Global, document: &mut Document, piece: &[u8]) -> u32
    ghost so_far: { List ℕ }
    requires { WasGiven so_far document.old }
    ensures done { result ≡ 0 → (document.new.is_open ≡ true)
        × IsGoing (so_far ++ piece.now) document.new.slot.held
        × (packets_in document.new.slot.held ≡ packets_in document.old.slot.held) }
    ensures ended { result ≡ 7 → IsEnded so_far document.old.slot.held }
    ensures going { document.old.is_open ≡ true → IsGoing so_far document.old.slot.held
        → result ≡ 0 }
    ensures again { document.old.is_open ≡ true → IsEnded so_far document.old.slot.held
        → result ≡ 7 }
    ensures kept { result ≢ 0 → KeepsItsOwn document.old document.new }
    ensures closed { (result ≡ 5) ↔ (document.old.is_open ≡ false) }
    ensures status { (result ≡ 0) ⊎ ((result ≡ 5) ⊎ (result ≡ 7)) }
{
    document_push(alloc, document, piece)
}

/// Ends the document. The condition is that the handle was given so much of it.
///
/// The status says whether it is done; else nothing changes: the document had ended, or the handle
/// holds nothing. Allocates nothing.
#[unsafe(no_mangle)]
pub extern "C" fn opgp_document_end(alloc: Global, document: &mut Document) -> u32
    ghost so_far: { List ℕ }
    requires { WasGiven so_far document.old }
    ensures done { result ≡ 0 → (document.new.is_open ≡ true)
        × IsEnded so_far document.new.slot.held
        × (packets_in document.new.slot.held ≡ packets_in document.old.slot.held)
        × (is_message document.new.slot.held ≡ is_message document.old.slot.held) }
    ensures ended { result ≡ 7 → IsEnded so_far document.old.slot.held }
    ensures going { result ≡ 0 → IsGoing so_far document.old.slot.held }
    ensures kept { result ≢ 0 → KeepsItsOwn document.old document.new }
    ensures closed { (result ≡ 5) ↔ (document.old.is_open ≡ false) }
    ensures status { (result ≡ 0) ⊎ ((result ≡ 5) ⊎ (result ≡ 7)) }
{
    document_end(alloc, document)
}

/// Fills the tables with the signatures over a document that has ended, in order, and the octets
/// that their algorithms made; their issuers' keys are named by their rows in the table of keys of
/// a keyring. The condition is that the handle was given so much of the document. Over that of a
/// cleartext message only signatures over text have a digest.
///
/// Beside the statuses of `opgp_ring_packets` there is one for a document that hasn't ended. Both
/// handles hold what they held.
#[unsafe(no_mangle)]
pub extern "C" fn opgp_document_jobs(
    alloc: Global,
    document: &mut Document,
    ring: &mut Ring,
    rows: &mut [JobRow],
    bytes: &mut [u8],
    sizes: &mut Sizes,
) -> u32
    ghost so_far: { List ℕ }
    requires { WasGiven so_far document.old }
    ensures { PutsJobs so_far document.old document.new ring.old ring.new rows.old rows.new
        bytes.old bytes.new sizes.new result }
{
    document_jobs(alloc, document, ring, rows, bytes, sizes)
}

/// Fills the tables with the subpackets of the signatures over a document, those of each in the
/// order of the table of jobs, and of its hashed area first; and their data. The condition is that
/// the handle was given so much of the document.
///
/// The statuses are those of `opgp_ring_packets`.
#[unsafe(no_mangle)]
pub extern "C" fn opgp_document_subpackets(
    alloc: Global,
    document: &mut Document,
    rows: &mut [SubpacketRow],
    bytes: &mut [u8],
    sizes: &mut Sizes,
) -> u32
    ghost so_far: { List ℕ }
    requires { WasGiven so_far document.old }
    ensures { PutsSigned document_subpacket_rows document_subpacket_bytes document.old document.new
        rows.old rows.new bytes.old bytes.new sizes.new result }
{
    document_subpackets(alloc, document, rows, bytes, sizes)
}

/// Puts the octets that the signature of a row hashes in front of its document, or behind it if
/// `behind` isn't 0 (RFC 9580, 5.2.4), for who hashes elsewhere. The condition is that the handle
/// was given so much of the document.
///
/// Beside the statuses of `opgp_ring_packets` there is one for a row that isn't there, or whose
/// signature is malformed, or of another version than 4 and 6. Where nothing says how much there
/// is, the size is unchanged.
#[unsafe(no_mangle)]
pub extern "C" fn opgp_document_octets(
    alloc: Global,
    document: &mut Document,
    row: u64,
    behind: u32,
    octets: &mut [u8],
    size: &mut u64,
) -> u32
    ghost so_far: { List ℕ }
    requires { WasGiven so_far document.old }
    ensures done { result ≡ 0 → (s : SignedValue)
        × (signed_by (slice_get (signed_in (bodies_in document.old.slot.held)) row) ≡ Some s)
        × IsFilled (side_of behind s) octets.old octets.new
        × (size.new ≡ length (side_of behind s)) }
    ensures room { result ≡ 2 → (s : SignedValue)
        × (signed_by (slice_get (signed_in (bodies_in document.old.slot.held)) row) ≡ Some s)
        × (length octets.old < length (side_of behind s))
        × (size.new ≡ length (side_of behind s)) }
    ensures none { result ≡ 6
        → signed_by (slice_get (signed_in (bodies_in document.old.slot.held)) row) ≡ None }
    ensures kept { result ≢ 0 → octets.new ≡ octets.old }
    ensures size { (result ≡ 3) ⊎ ((result ≡ 5) ⊎ (result ≡ 6)) → size.new ≡ size.old }
    ensures closed { (result ≡ 5) ↔ (document.old.is_open ≡ false) }
    ensures holds { KeepsItsOwn document.old document.new }
    ensures status { (result ≡ 0) ⊎ ((result ≡ 2) ⊎ ((result ≡ 3) ⊎ ((result ≡ 5)
        ⊎ (result ≡ 6)))) }
{
    document_octets(alloc, document, row, behind, octets, size)
}

/// Lets go what a handle holds. The handle, and each copy of it, can't be used again.
#[unsafe(no_mangle)]
pub extern "C" fn opgp_document_close(document: Document) {
    document_close(document);
}

/// Lets go what a handle holds, and leaves it closed.
#[unsafe(no_mangle)]
pub extern "C" fn opgp_document_clear(alloc: Global, document: &mut Document)
    ensures { document.new.is_open ≡ false }
{
    document_clear(alloc, document);
}
