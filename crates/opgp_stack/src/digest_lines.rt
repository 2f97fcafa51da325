//! The lines of a document's digests, without an allocation.

ghost use Rattle.std.specs.Prelude.{◌≡◌, ◌++◌, ◌∷◌, [], false, codes, map, Ok, Err, Some};
ghost use Rattle.opgp_io.specs.Line.{word_text};
ghost use Rattle.opgp_io.specs.Output.{Extends, sink_of};
ghost use Rattle.opgp_packet.specs.SigView.{sig_view_value};
ghost use Rattle.opgp_report.specs.IssuerName.{name_value};
ghost use Rattle.opgp_stack.specs.Documents.{digest_line, digest_lines, named_octets, words_line};
ghost use Rattle.opgp_stack.specs.Documents.{words_text};
ghost use Rattle.opgp_stack.specs.Documents.{read_shown};
ghost use Rattle.opgp_state.specs.Report.{finding_words, id_or_none};
ghost use Rattle.opgp_report.specs.RowValue.{asked_with};

use opgp_codec::Text;
use opgp_document::{DocumentWhy, OwnOctets};
use opgp_hash::Digest;
use opgp_io::{Output, Sink, Word};
use opgp_octets::BodyFault;
use opgp_packet::SigView;
use opgp_report::{IssuerName, Job, LeftOctets, Verdict, Verifier, issuer_named};
use opgp_state::{left_of, verdict_words};
use std::io;

/// A line for each signature over a document, with what is answered for it.
#[derive(Clone, Copy)]
pub(crate) struct DigestLines<'a> {
    pub(crate) reads: &'a [Result<SigView<'a>, BodyFault>],
    pub(crate) answers: &'a [Result<Digest, DocumentWhy>],
}

impl Text for DigestLines<'_> {
    ghost octets = { λ text. digest_lines 0 (map read_shown text.reads.now) text.answers.now };

    fn add<W: Sink>(self, output: &mut Output<'_, W>) -> io::Result<()> {
        add_lines(output, self.reads, self.answers)
    }
}

/// Adds the lines of all signatures.
fn add_lines<W: Sink>(
    output: &mut Output<'_, W>,
    reads: &[Result<SigView<'_>, BodyFault>],
    answers: &[Result<Digest, DocumentWhy>],
) -> io::Result<()>
    requires { W.has_failed (sink_of output.old) ≡ false }
    ensures { Extends W.held W.has_failed output.old output.new result
        (digest_lines 0 (map read_shown reads.now) answers.now) }
{
    let mut number = 0;
    'signatures: while number < reads.len() && number < answers.len() {
        add_line(output, number as u64, &reads[number], &answers[number])?;
        number += 1;
    }
    Ok(())
}

/// Adds the line of a signature.
fn add_line<W: Sink>(
    output: &mut Output<'_, W>,
    number: u64,
    read: &Result<SigView<'_>, BodyFault>,
    answer: &Result<Digest, DocumentWhy>,
) -> io::Result<()>
    requires { W.has_failed (sink_of output.old) ≡ false }
    ensures { Extends W.held W.has_failed output.old output.new result
        (digest_line number (read_shown read.now) answer.now) }
{
    match *answer {
        Err(why) => output.add_words(&[
            Word::Text(b"signature "),
            Word::Decimal(number),
            Word::Text(b" : none "),
            Word::Text(why.name().as_bytes()),
            Word::Text(b"\n"),
        ]),
        Ok(digest) => match *read {
            Ok(signature) => add_hashed(output, number, signature, digest),
            Err(_) => add_number(output, number),
        },
    }
}

/// Adds a line with a signature's number alone.
fn add_number<W: Sink>(output: &mut Output<'_, W>, number: u64) -> io::Result<()>
    requires { W.has_failed (sink_of output.old) ≡ false }
    ensures { Extends W.held W.has_failed output.old output.new result (words_line number []) }
{
    output.add_words(&[
        Word::Text(b"signature "),
        Word::Decimal(number),
        Word::Text(b"\n"),
    ])
}

/// Adds the line of a signature that is hashed.
fn add_hashed<W: Sink>(
    output: &mut Output<'_, W>,
    number: u64,
    signature: SigView<'_>,
    digest: Digest,
) -> io::Result<()>
    requires { W.has_failed (sink_of output.old) ≡ false }
    ensures { Extends W.held W.has_failed output.old output.new result
        (digest_line number (Ok (sig_view_value signature.entry)) (Ok digest)) }
{
    let Some(own) = OwnOctets::of(signature) else {
        return add_number(output, number);
    };
    let job = Job {
        signature,
        digest,
        signer: None,
    };
    let verdict = LeftOctets.verify(&job);
    let issuer = issuer_named(signature);
    add_asked_line(
        output,
        number,
        own.kind(),
        own.hash(),
        issuer,
        &digest,
        verdict,
    )
}

/// Adds a hashed signature's line with this digest and verdict.
fn add_asked_line<W: Sink>(
    output: &mut Output<'_, W>,
    number: u64,
    kind: u8,
    hash: u8,
    issuer: IssuerName,
    digest: &Digest,
    verdict: Verdict,
) -> io::Result<()>
    requires { W.has_failed (sink_of output.old) ≡ false }
    ensures { Extends W.held W.has_failed output.old output.new result (words_line number
        (finding_words (asked_with kind hash (named_octets (name_value issuer)) digest.now
        verdict))) }
{
    add_asked(output, number, kind, hash, issuer, digest, verdict)?;
    output.add(b"\n")
}

/// Adds the words of a signature that is hashed.
fn add_asked<W: Sink>(
    output: &mut Output<'_, W>,
    number: u64,
    kind: u8,
    hash: u8,
    issuer: IssuerName,
    digest: &Digest,
    verdict: Verdict,
) -> io::Result<()>
    requires { W.has_failed (sink_of output.old) ≡ false }
    ensures { Extends W.held W.has_failed output.old output.new result (words_text number
        (finding_words (asked_with kind hash (named_octets (name_value issuer)) digest.now
        verdict))) }
{
    let left = left_of(digest);
    output.add_words(&[
        Word::Text(b"signature "),
        Word::Decimal(number),
        Word::Text(b" : asked type "),
        Word::Hex(&[kind]),
        Word::Text(b" hash "),
        Word::Decimal(hash as u64),
        Word::Text(b" signer "),
        name_or_none(&issuer),
        Word::Text(b" digest "),
        Word::Hex(&left),
        Word::Text(verdict_words(verdict)),
    ])
}

/// The digits of the fingerprint or key ID that names an issuer, or `-` for none.
fn name_or_none(name: &IssuerName) -> Word<'_>
    ensures { word_text result ≡ id_or_none (named_octets (name_value name.now)) }
{
    match name {
        IssuerName::Print(print) => Word::Hex(print.octets()),
        IssuerName::Id(id) => Word::Hex(id.0.as_slice()),
        IssuerName::Unnamed => Word::Text(b"-"),
    }
}
