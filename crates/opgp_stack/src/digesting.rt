//! The digests that signatures have of a document.

ghost use Rattle.std.specs.Prelude.{◌≡◌, ◌<◌, ◌≤◌, [], false, true, length, map, Err, IfOk};
ghost use Rattle.std.specs.Prelude.{List, Option};
ghost use Rattle.opgp_document.specs.Answer.{asked_of};
ghost use Rattle.opgp_document.specs.SignedDocument.{IsSignedBy};
ghost use Rattle.opgp_hash.specs.SignedValue.{SignedValue};
ghost use Rattle.opgp_codec.specs.Pulled.{OfAll};
ghost use Rattle.opgp_keyring.specs.DetachedSignatures.{detached_packets};
ghost use Rattle.opgp_keyring.specs.Signed.{signature_bodies};
ghost use Rattle.opgp_stack.specs.Documents.{AnswersTo, OfDocument, digest_lines, read_shown};
ghost use Rattle.opgp_stack.specs.Running.{IsMade, Made, ReadsFor, RunsOf};
ghost use Rattle.opgp_stack.specs.declared.run_fault.RunFault.TheVariants as run;

use crate::digest_lines::DigestLines;
use crate::run_fault::RunFault;
use crate::running::end;
use opgp_codec::{IncomingOctets, write};
use opgp_document::{DocumentAnswers, DocumentWhy, MOST_SIGNATURES, OpenFault, SignedDocument};
use opgp_hash::Digest;
use opgp_io::{Sink, Source};
use opgp_keyring::DetachedSignatures;
use opgp_octets::{BodyFault, Limits};
use opgp_packet::SigView;
use std::alloc::Global;

/// Reads a document, and writes a line for each of the detached signatures over it, with what can
/// be said of its digest (RFC 9580, 5.2.4). The conditions are that neither the source nor the sink
/// has failed.
///
/// - `signature <n> : asked type <T> hash <n> signer <fingerprint, key ID or -> digest <DDDD>
///   verdict <bad or undecided>`: the signer is the one that the signature names, the digest its
///   first two octets, and it is bad if these aren't the ones that the signature states.
/// - `signature <n> : none <why>`: `opaque`, `kind`, `hash` or `line-ends`.
///
/// The document comes in pieces of at most 65,536 octets, and isn't kept. The errors are `Refused`:
/// it is longer than the limit `input`; `TooManySignatures`: there are more than 64; `Read`,
/// `Memory`, and `Write`, after which the sink holds a prefix of the lines. With any other nothing
/// was written.
pub fn run_digests<R: Source, W: Sink>(
    alloc: Global,
    limits: &Limits,
    signatures: &DetachedSignatures,
    document: &mut R,
    writer: &mut W,
) -> Result<(), RunFault>
    requires document { R.has_failed document.old ≡ false }
    requires writer { W.has_failed writer.old ≡ false }
    ensures few { length (signature_bodies (detached_packets signatures.now)) ≤ 64
        → RunsOf R.left R.has_failed (IsMade W.held W.has_failed) limits.now
        (OfDocument limits.now (signature_bodies (detached_packets signatures.now))) document.old
        document.new writer.old writer.new result }
    ensures many { 64 < length (signature_bodies (detached_packets signatures.now))
        → (result ≡ Err run.TooManySignatures) × (writer.new ≡ writer.old) }
{
    if signatures.count() > MOST_SIGNATURES {
        return Err(RunFault::TooManySignatures);
    }
    let reads = signatures.views(alloc)?;
    let hashed = begin(alloc, &reads)?;
    let ended = answers_over(alloc, limits, hashed, document)?;
    let answers = ended.list(alloc)?;
    write_answers(alloc, &reads, &answers, writer)
}

/// Writes a line for each signature, with what is answered for it.
fn write_answers<W: Sink>(
    alloc: Global,
    reads: &[Result<SigView<'_>, BodyFault>],
    answers: &[Result<Digest, DocumentWhy>],
    writer: &mut W,
) -> Result<(), RunFault>
    requires { W.has_failed writer.old ≡ false }
    ensures { IsMade W.held W.has_failed writer.old writer.new result
        (Made.Text (digest_lines 0 (map read_shown reads.now) answers.now)) }
{
    end(write(alloc, DigestLines { reads, answers }, writer))
}

/// Begins a document under at most 64 signatures. Fails only when out of memory.
fn begin(
    alloc: Global,
    reads: &[Result<SigView<'_>, BodyFault>],
) -> Result<SignedDocument, RunFault>
    requires { length reads.now ≤ 64 }
    ensures value { IfOk result (λ d. IsSignedBy d (map asked_of reads.now) []) }
    ensures memory { (e : RunFault) → result ≡ Err e → e ≡ run.Memory }
{
    match SignedDocument::open(alloc, reads) {
        Ok(document) => Ok(document),
        Err(OpenFault::TooManySignatures) => unreachable!(),
        Err(OpenFault::Memory) => Err(RunFault::Memory),
    }
}

/// Hashes all of a document that comes from a source. The condition is that the source hasn't
/// failed.
///
/// The errors are `Refused`: the document is longer than the limit, `Read`, and `Memory`.
fn answers_over<R: Source>(
    alloc: Global,
    limits: &Limits,
    document: SignedDocument,
    source: &mut R,
) -> Result<DocumentAnswers, RunFault>
    requires { R.has_failed source.old ≡ false }
    ensures { (signatures : List (Option SignedValue)) → IsSignedBy document signatures []
        → ReadsFor (λ answer. OfAll R.left R.has_failed source.old source.new limits.now
        (λ octets. AnswersTo limits.now signatures octets answer))
        (R.has_failed source.new ≡ true) (R.has_failed source.new ≡ false) result }
{
    let mut document = document;
    let mut incoming = IncomingOctets::new(alloc, limits)?;
    'pieces: while incoming.next(source)? {
        document.push(incoming.piece());
    }
    match incoming.finish() {
        Ok(()) => Ok(document.finish()),
        Err(fault) => Err(RunFault::Refused(fault)),
    }
}
