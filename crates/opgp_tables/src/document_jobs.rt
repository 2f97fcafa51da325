//! The table of the signatures over a document.

ghost use Rattle.std.specs.Prelude.{◌≡◌, ◌∷◌, [], ◌+◌, ◌<◌, ◌≤◌, ◌++◌, drop, length, map};
ghost use Rattle.std.specs.Prelude.{OnErr, OnOk};
ghost use Rattle.opgp_packet.specs.SigView.{sig_view_value};
ghost use Rattle.opgp_report.specs.KeyIndex.{prints_shown};
ghost use Rattle.opgp_keyring.specs.DetachedSignatures.{detached_packets};
ghost use Rattle.opgp_keyring.specs.Signed.{signature_bodies};
ghost use Rattle.opgp_keyring.specs.SignedLiteral.{signatures_left};
ghost use Rattle.opgp_tables.specs.DocumentJobs.{document_answer, document_job_bytes};
ghost use Rattle.opgp_tables.specs.DocumentJobs.{document_job_rows, document_jobs_from};
ghost use Rattle.opgp_tables.specs.DocumentJobs.{document_row, is_over_text, made_read};
ghost use Rattle.opgp_tables.specs.DocumentJobs.{read_shown};
ghost use Rattle.opgp_tables.specs.DocumentJobs.{signature_place};
ghost use Rattle.opgp_tables.specs.Filling.{Fills};
ghost use Rattle.opgp_tables.specs.Jobs.{prints_in};
ghost use Rattle.opgp_tables.specs.Sizes.{capped};

use crate::job_counter::said_octets_in;
use crate::job_filler::{put_job, put_opaque};
use crate::job_row::{Answered, JobRow};
use crate::job_table::{digest_answer, stated_in, why_answer};
use crate::table_sizes::TableSizes;
use opgp_document::DocumentWhy;
use opgp_hash::Digest;
use opgp_keyring::{DetachedSignatures, Keyring, Signatures};
use opgp_octets::{BodyFault, OutOfMemory, SignatureType};
use opgp_packet::SigView;
use opgp_report::{KeyIndex, Place, index_keys};
use std::alloc::Global;

/// The place of the signature of this number: it is in no certificate.
pub(crate) fn signature_place(number: usize) -> Place
    ensures { result ≡ signature_place number }
{
    Place {
        certificate: usize::MAX,
        component: None,
        hang: number,
        nested: None,
    }
}

/// Whether a signature says that it is over text (RFC 9580, 5.2.1.2).
pub fn is_over_text(signature: SigView<'_>) -> bool
    ensures { result ≡ is_over_text (sig_view_value signature.entry) }
{
    stated_in(signature).kind == SignatureType::Text.number()
}

/// The digest of what a signature hashes, and whether it differs from the left octets; or why it
/// isn't hashed, as one of a cleartext message that isn't over text.
fn document_answer(
    is_message: bool,
    signature: SigView<'_>,
    answer: Result<Digest, DocumentWhy>,
) -> Answered
    ensures { result ≡ document_answer is_message (sig_view_value signature.entry) answer }
{
    match answer {
        Ok(digest) => {
            if is_message && !is_over_text(signature) {
                why_answer(DocumentWhy::Kind.number())
            } else {
                digest_answer(signature, digest)
            }
        }
        Err(why) => why_answer(why.number()),
    }
}

/// Puts the row of a signature, or of a malformed one, and what it points into, and says how many
/// rows and octets there are then.
fn put_signature(
    is_message: bool,
    names: &KeyIndex,
    rows: &mut [JobRow],
    bytes: &mut [u8],
    here: TableSizes,
    number: usize,
    read: Result<SigView<'_>, BodyFault>,
    answer: Result<Digest, DocumentWhy>,
) -> TableSizes
    requires rows { here.rows < length rows.old }
    requires bytes { here.bytes + length (made_read (read_shown read)) ≤ length bytes.old }
    ensures { Fills (document_row is_message (prints_shown names.now) number here.bytes
        (read_shown read.entry) answer ∷ []) (made_read (read_shown read.entry)) here result
        rows.old rows.new bytes.old bytes.new }
{
    let place = signature_place(number);
    match read {
        Ok(view) => {
            let answered = document_answer(is_message, view, answer);
            put_job(names, rows, bytes, here, place, view, answered)
        }
        Err(_) => put_opaque(rows, here, place),
    }
}

/// Puts the rows of signatures at the front of two tables that have the room.
fn put_signatures(
    is_message: bool,
    names: &KeyIndex,
    mut signatures: Signatures<'_>,
    answers: &[Result<Digest, DocumentWhy>],
    rows: &mut [JobRow],
    bytes: &mut [u8],
)
    requires answers { length answers.now ≡ length (signatures_left signatures) }
    requires rows { length (signatures_left signatures) ≤ length rows.old }
    requires bytes { length (document_job_bytes (signatures_left signatures)) ≤ length bytes.old }
    ensures rows { rows.new ≡ document_jobs_from is_message (prints_shown names.now) 0 0
        (signatures_left signatures.entry) answers.now
        ++ drop (length (document_jobs_from is_message (prints_shown names.now) 0 0
        (signatures_left signatures.entry) answers.now)) rows.old }
    ensures bytes { bytes.new ≡ document_job_bytes (signatures_left signatures.entry)
        ++ drop (length (document_job_bytes (signatures_left signatures.entry))) bytes.old }
{
    let mut reached = TableSizes::NOTHING;
    let mut number = 0;
    'signatures: while let Some(read) = signatures.next() {
        let answer = answers[number];
        reached = put_signature(
            is_message, names, rows, bytes, reached, number, read, answer,
        );
        number += 1;
    }
}

/// Fills the front of two tables with the signatures over a document, in order, and the octets that
/// they point into; their issuers' keys are named by their rows in the keyring's table of keys. The
/// conditions are that there is an answer for each signature, as
/// [`opgp_document::DocumentAnswers`] tells, and that both tables have the room that
/// [`document_job_sizes`] tells. Fails only when out of memory, and the tables are then unchanged.
///
/// Where the document is that of a cleartext message, only signatures over text have a digest (RFC
/// 9580, 7.1), since programs disagree on what others hash there.
pub fn fill_document_jobs(
    alloc: Global,
    is_message: bool,
    keyring: &Keyring,
    signatures: &DetachedSignatures,
    answers: &[Result<Digest, DocumentWhy>],
    rows: &mut [JobRow],
    bytes: &mut [u8],
) -> Result<(), OutOfMemory>
    requires answers { length answers.now
        ≡ length (signature_bodies (detached_packets signatures.now)) }
    requires rows { length (signature_bodies (detached_packets signatures.now))
        ≤ length rows.old }
    requires bytes { length (document_job_bytes (signature_bodies
        (detached_packets signatures.now))) ≤ length bytes.old }
    ensures rows { OnOk result (rows.new ≡ document_job_rows is_message keyring.now
        (signature_bodies (detached_packets signatures.now)) answers.now
        ++ drop (length (document_job_rows is_message keyring.now
        (signature_bodies (detached_packets signatures.now)) answers.now)) rows.old) }
    ensures bytes { OnOk result (bytes.new
        ≡ document_job_bytes (signature_bodies (detached_packets signatures.now))
        ++ drop (length (document_job_bytes (signature_bodies (detached_packets signatures.now))))
        bytes.old) }
    ensures kept { OnErr result ((rows.new ≡ rows.old) × (bytes.new ≡ bytes.old)) }
{
    let names = index_keys(alloc, keyring)?;
    put_signatures(
        is_message,
        &names,
        signatures.signatures(),
        answers,
        rows,
        bytes,
    );
    drop(names);
    Ok(())
}

/// How many octets the row of a signature points into.
fn octets_of(read: Result<SigView<'_>, BodyFault>) -> u64
    ensures { result ≡ capped (length (made_read (read_shown read.entry))) }
{
    match read {
        Ok(view) => said_octets_in(view),
        Err(_) => 0,
    }
}

/// How large the table of these signatures is.
fn sizes_of(mut signatures: Signatures<'_>) -> TableSizes
    ensures rows { result.rows ≡ capped (length (signatures_left signatures.entry)) }
    ensures bytes { result.bytes
        ≡ capped (length (document_job_bytes (signatures_left signatures.entry))) }
{
    let mut sizes = TableSizes::NOTHING;
    'signatures: while let Some(read) = signatures.next() {
        sizes.add(1, octets_of(read));
    }
    sizes
}

/// How many rows and octets the table of the signatures over a document has. Allocates nothing, and
/// hashes nothing.
pub fn document_job_sizes(signatures: &DetachedSignatures) -> TableSizes
    ensures rows { result.rows
        ≡ capped (length (signature_bodies (detached_packets signatures.now))) }
    ensures bytes { result.bytes ≡ capped (length (document_job_bytes
        (signature_bodies (detached_packets signatures.now)))) }
{
    sizes_of(signatures.signatures())
}
