//! The tables of the signatures that a handle holds, put into those of a caller.

ghost use Rattle.std.specs.Prelude.{◌≡◌, ◌≢◌, ◌<◌, ◌≤◌, ◌⊎◌, ℕ, List, length, Some, None, Option};
ghost use Rattle.std.specs.Prelude.{IfNone, IfSome, map};
ghost use Rattle.std.specs.List.{slice_get};
ghost use Rattle.opgp_hash.specs.SignedValue.{SignedValue};
ghost use Rattle.opgp_document.specs.Answer.{asked_of};
ghost use Rattle.opgp_document.specs.OwnOctets.{own_value};
ghost use Rattle.opgp_document.specs.SignedDocument.{AreAnswers};
ghost use Rattle.opgp_keyring.specs.DetachedSignatures.{detached_packets};
ghost use Rattle.opgp_keyring.specs.Signed.{signature_bodies};
ghost use Rattle.opgp_tables.specs.DocumentJobs.{document_job_bytes};
ghost use Rattle.opgp_tables.specs.DocumentJobs.{document_subpacket_bytes};
ghost use Rattle.opgp_tables.specs.DocumentJobs.{document_subpacket_rows};
ghost use Rattle.opgp_handles.specs.Calls.{AreSized, IsFilled, IsShort};
ghost use Rattle.opgp_handles.specs.Documents.{FillsJobs, IsEnded, IsGiven, IsGoing, bodies_in};
ghost use Rattle.opgp_handles.specs.Documents.{is_message, side_of, signed_by, signed_in};

use crate::calls::put_octets;
use crate::sizes::Sizes;
use crate::slot::Signed;
use crate::status::{DONE, GOING, MEMORY, NO_ROW, ROOM};
use opgp_document::{DocumentAnswers, OwnOctets};
use opgp_keyring::{DetachedSignatures, Keyring};
use opgp_octets::BodyFault;
use opgp_packet::SigView;
use opgp_tables::{
    JobRow, SubpacketRow, TableSizes, document_job_sizes, document_subpacket_sizes,
    fill_document_jobs, fill_document_subpackets,
};
use std::alloc::Global;

/// Says how large a table is, and whether it can be made: there has to be room, and its sizes have
/// to be numbers of 64 bits.
fn status_of(wanted: TableSizes, rows: usize, bytes: usize, sizes: &mut Sizes) -> u32
    ensures done { result ≡ 0 → (wanted.rows ≤ rows) × (wanted.bytes ≤ bytes) }
    ensures room { result ≡ 2 → (rows < wanted.rows) ⊎ (bytes < wanted.bytes) }
    ensures sizes { result ≢ 3 → (sizes.new.rows ≡ wanted.rows) × (sizes.new.bytes ≡ wanted.bytes)
        × (wanted.rows < 18446744073709551615) × (wanted.bytes < 18446744073709551615) }
    ensures status { (result ≡ 0) ⊎ ((result ≡ 2) ⊎ (result ≡ 3)) }
{
    if wanted.rows == u64::MAX || wanted.bytes == u64::MAX {
        return MEMORY;
    }
    *sizes = Sizes {
        rows: wanted.rows,
        bytes: wanted.bytes,
    };
    if wanted.rows > rows as u64 || wanted.bytes > bytes as u64 {
        return ROOM;
    }
    DONE
}

/// Fills the front of two tables that have the room.
fn fill_jobs(
    alloc: Global,
    is_message: bool,
    keyring: &Keyring,
    signatures: &DetachedSignatures,
    answers: &DocumentAnswers,
    rows: &mut [JobRow],
    bytes: &mut [u8],
) -> u32
    ghost so_far: { List ℕ }
    requires ended { AreAnswers answers.now
        (signed_in (signature_bodies (detached_packets signatures.now))) so_far }
    requires rows { length (signature_bodies (detached_packets signatures.now))
        ≤ length rows.old }
    requires bytes { length (document_job_bytes (signature_bodies
        (detached_packets signatures.now))) ≤ length bytes.old }
    ensures done { result ≡ 0 → FillsJobs so_far is_message
        (signature_bodies (detached_packets signatures.now)) keyring.now rows.old rows.new
        bytes.old bytes.new }
    ensures kept { result ≢ 0 → (rows.new ≡ rows.old) × (bytes.new ≡ bytes.old) }
    ensures status { (result ≡ 0) ⊎ (result ≡ 3) }
{
    let found = match answers.list(alloc) {
        Ok(found) => found,
        Err(_) => return MEMORY,
    };
    match fill_document_jobs(alloc, is_message, keyring, signatures, &found, rows, bytes) {
        Ok(()) => DONE,
        Err(_) => MEMORY,
    }
}

/// Puts the table of the signatures over a document that has ended.
pub(crate) fn put_jobs(
    alloc: Global,
    held: &Signed,
    keyring: &Keyring,
    rows: &mut [JobRow],
    bytes: &mut [u8],
    sizes: &mut Sizes,
) -> u32
    ghost so_far: { List ℕ }
    requires { IsGiven so_far held.now }
    ensures done { result ≡ 0 → FillsJobs so_far (is_message held.now) (bodies_in held.now)
        keyring.now rows.old rows.new bytes.old bytes.new }
    ensures ended { (result ≡ 0) ⊎ (result ≡ 2) → IsEnded so_far held.now }
    ensures room { result ≡ 2 → (length rows.old < length (bodies_in held.now))
        ⊎ (length bytes.old < length (document_job_bytes (bodies_in held.now))) }
    ensures kept { result ≢ 0 → (rows.new ≡ rows.old) × (bytes.new ≡ bytes.old) }
    ensures sizes { (result ≡ 0) ⊎ (result ≡ 2)
        → (sizes.new.rows ≡ length (bodies_in held.now))
        × (sizes.new.bytes ≡ length (document_job_bytes (bodies_in held.now))) }
    ensures going { result ≡ 9 → IsGoing so_far held.now }
    ensures before { IsGoing so_far held.now → result ≡ 9 }
    ensures status { (result ≡ 0) ⊎ ((result ≡ 2) ⊎ ((result ≡ 3) ⊎ (result ≡ 9))) }
{
    let (is_message, signatures, answers) = match held {
        Signed::Going(_, _) => return GOING,
        Signed::Ended(signatures, answers) => (false, signatures, answers),
        Signed::Message(signatures, answers) => (true, signatures, answers),
        Signed::Lost => unreachable!(),
    };
    let status = status_of(
        document_job_sizes(signatures),
        rows.len(),
        bytes.len(),
        sizes,
    );
    if status != DONE {
        return status;
    }
    fill_jobs(alloc, is_message, keyring, signatures, answers, rows, bytes)
}

/// The signatures that are held.
pub(crate) fn signatures_in(held: &Signed) -> &DetachedSignatures
    ghost so_far: { List ℕ }
    requires { IsGiven so_far held.now }
    ensures { signature_bodies (detached_packets result.now) ≡ bodies_in held.now }
{
    match held {
        Signed::Going(signatures, _)
        | Signed::Ended(signatures, _)
        | Signed::Message(signatures, _) => signatures,
        Signed::Lost => unreachable!(),
    }
}

/// Puts the table of the signatures' subpackets.
pub(crate) fn put_subpackets(
    held: &Signed,
    rows: &mut [SubpacketRow],
    bytes: &mut [u8],
    sizes: &mut Sizes,
) -> u32
    ghost so_far: { List ℕ }
    requires { IsGiven so_far held.now }
    ensures done { result ≡ 0
        → IsFilled (document_subpacket_rows (bodies_in held.now)) rows.old rows.new
        × IsFilled (document_subpacket_bytes (bodies_in held.now)) bytes.old bytes.new }
    ensures room { result ≡ 2 → IsShort (document_subpacket_rows (bodies_in held.now))
        (document_subpacket_bytes (bodies_in held.now)) rows.old bytes.old }
    ensures kept { result ≢ 0 → (rows.new ≡ rows.old) × (bytes.new ≡ bytes.old) }
    ensures sizes { (result ≡ 0) ⊎ (result ≡ 2)
        → AreSized (document_subpacket_rows (bodies_in held.now))
        (document_subpacket_bytes (bodies_in held.now)) sizes.new }
    ensures status { (result ≡ 0) ⊎ ((result ≡ 2) ⊎ (result ≡ 3)) }
{
    let signatures = signatures_in(held);
    let wanted = document_subpacket_sizes(signatures);
    let status = status_of(wanted, rows.len(), bytes.len(), sizes);
    if status == DONE {
        fill_document_subpackets(signatures, rows, bytes);
    }
    status
}

/// What the signature of a row hashes of itself; None if there is none, or it is malformed, or of
/// another version than 4 and 6.
fn own_octets<'a>(views: &[Result<SigView<'a>, BodyFault>], row: u64) -> Option<OwnOctets<'a>>
    ensures some { IfSome result (λ own.
        signed_by (slice_get (map asked_of views.now) row) ≡ Some (own_value own)) }
    ensures none { IfNone result (signed_by (slice_get (map asked_of views.now) row) ≡ None) }
{
    match views.get(row as usize) {
        Some(Ok(view)) => OwnOctets::of(*view),
        Some(Err(_)) | None => None,
    }
}

/// What a signature hashes in front of a document, or behind it.
fn put_side(
    alloc: Global,
    own: OwnOctets<'_>,
    behind: u32,
    octets: &mut [u8],
    size: &mut u64,
) -> u32
    ensures done { result ≡ 0
        → IsFilled (side_of behind (own_value own.entry)) octets.old octets.new
        × (size.new ≡ length (side_of behind (own_value own.entry))) }
    ensures room { result ≡ 2 → (length octets.old < length (side_of behind (own_value own.entry)))
        × (size.new ≡ length (side_of behind (own_value own.entry))) }
    ensures kept { result ≢ 0 → octets.new ≡ octets.old }
    ensures size { result ≡ 3 → size.new ≡ size.old }
    ensures status { (result ≡ 0) ⊎ ((result ≡ 2) ⊎ (result ≡ 3)) }
{
    if behind == 0 {
        return put_octets(own.salt(), octets, size);
    }
    match own.behind(alloc) {
        Ok(found) => put_octets(&found, octets, size),
        Err(_) => MEMORY,
    }
}

/// Puts what the signature of a row hashes in front of a document, or behind it.
pub(crate) fn put_row_side(
    alloc: Global,
    held: &Signed,
    row: u64,
    behind: u32,
    octets: &mut [u8],
    size: &mut u64,
) -> u32
    ghost so_far: { List ℕ }
    requires { IsGiven so_far held.now }
    ensures done { result ≡ 0 → (s : SignedValue)
        × (signed_by (slice_get (signed_in (bodies_in held.now)) row) ≡ Some s)
        × IsFilled (side_of behind s) octets.old octets.new
        × (size.new ≡ length (side_of behind s)) }
    ensures room { result ≡ 2 → (s : SignedValue)
        × (signed_by (slice_get (signed_in (bodies_in held.now)) row) ≡ Some s)
        × (length octets.old < length (side_of behind s))
        × (size.new ≡ length (side_of behind s)) }
    ensures none { result ≡ 6
        → signed_by (slice_get (signed_in (bodies_in held.now)) row) ≡ None }
    ensures kept { result ≢ 0 → octets.new ≡ octets.old }
    ensures size { (result ≡ 3) ⊎ (result ≡ 6) → size.new ≡ size.old }
    ensures status { (result ≡ 0) ⊎ ((result ≡ 2) ⊎ ((result ≡ 3) ⊎ (result ≡ 6))) }
{
    let views = match signatures_in(held).views(alloc) {
        Ok(views) => views,
        Err(_) => return MEMORY,
    };
    match own_octets(&views, row) {
        Some(own) => put_side(alloc, own, behind, octets, size),
        None => NO_ROW,
    }
}
