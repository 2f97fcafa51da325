//! What the lines of a file of verdicts begin with.

ghost use Rattle.std.specs.Prelude.{◌≡◌, [], false, IfOk, OnOk};
ghost use Rattle.std.specs.Option.{option_map};
ghost use Rattle.std.specs.Io.KnownBytes.{Appends};
ghost use Rattle.opgp_io.specs.Output.{Extends, sink_name, sink_of, waiting_in};
ghost use Rattle.opgp_report.specs.RowValue.{asked_with};
ghost use Rattle.opgp_report.specs.declared.verifier.Verdict.TheVariants.{Undecided};
ghost use Rattle.opgp_state.specs.Report.{fields_at};
ghost use Rattle.opgp_state.specs.VerdictFile.{front_text, front_words};

use crate::line_sink::LineSink;
use crate::reporting::{add_none, id_or_none, left_of, number_or_none};
use opgp_hash::{Digest, KeyId};
use opgp_io::{Buffer, Output, Sink, Word};
use opgp_octets::OutOfMemory;
use opgp_report::{Finding, Place, Row};
use std::alloc::{AllocError, Global};
use std::io;

/// Adds the line of a signature that is hashed, in front of its verdict.
fn add_asked_front<W: Sink>(
    output: &mut Output<'_, W>,
    number: u64,
    place: Place,
    kind: u8,
    hash: u8,
    signer: Option<KeyId>,
    digest: &Digest,
) -> io::Result<()>
    requires { W.has_failed (sink_of output.old) ≡ false }
    ensures { Extends W.held W.has_failed output.old output.new result
        (fields_at number place (front_words
        (asked_with kind hash (option_map (λ k. k.0) signer) digest.now Undecided))) }
{
    let left = left_of(digest);
    output.add_words(&[
        Word::Text(b"row "),
        Word::Decimal(number),
        Word::Text(b" cert "),
        Word::Decimal(place.certificate as u64),
        Word::Text(b" part "),
        number_or_none(place.component),
        Word::Text(b" hang "),
        Word::Decimal(place.hang as u64),
        Word::Text(b" nested "),
        number_or_none(place.nested),
        Word::Text(b" : asked type "),
        Word::Hex(&[kind]),
        Word::Text(b" hash "),
        Word::Decimal(hash as u64),
        Word::Text(b" signer "),
        id_or_none(&signer),
        Word::Text(b" digest "),
        Word::Hex(&left),
    ])
}

/// What a line of a file of verdicts begins with.
#[derive(Clone, Copy)]
pub(crate) enum Front<'a> {
    /// The whole first line: the digest of the keyring's packets, and how many rows it has.
    Head(&'a [u8; 32], u64),
    /// All of the line of a row but its verdict, if it has one: the row's number, and the row.
    Row(u64, &'a Row),
}

/// Adds the front of a line.
fn add_front<W: Sink>(output: &mut Output<'_, W>, front: Front<'_>) -> io::Result<()>
    requires { W.has_failed (sink_of output.old) ≡ false }
    ensures { Extends W.held W.has_failed output.old output.new result (front_text front.entry) }
{
    match front {
        Front::Head(digest, rows) => output.add_words(&[
            Word::Text(b"verdicts by arithmetic of keyring sha256 "),
            Word::Hex(digest),
            Word::Text(b" rows "),
            Word::Decimal(rows),
            Word::Text(b"\n"),
        ]),
        Front::Row(number, row) => match &row.finding {
            Finding::Asked {
                kind,
                hash,
                signer,
                digest,
                ..
            } => add_asked_front(output, number, row.place, *kind, *hash, *signer, digest),
            Finding::NotAsked(why) => add_none(output, number, row.place, *why),
        },
    }
}

/// Writes the front of a line into an empty output, to its sink.
fn put_front<W: Sink>(output: &mut Output<'_, W>, front: Front<'_>) -> io::Result<()>
    requires none { waiting_in output.old ≡ [] }
    requires sound { W.has_failed (sink_of output.old) ≡ false }
    ensures same { sink_name output.new ≡ sink_name output.old }
    ensures put { OnOk result (Appends (W.held (sink_of output.old)) (W.held (sink_of output.new))
        (front_text front.entry)) }
{
    add_front(output, front)?;
    output.finish()
}

/// The front of a line. Fails only when out of memory.
pub(crate) fn front_of(
    alloc: Global,
    buffer: &mut Buffer,
    front: Front<'_>,
) -> Result<Vec<u8>, OutOfMemory>
    ensures { IfOk result (λ v. v.items ≡ front_text front.entry) }
{
    let mut sink = LineSink::new(alloc);
    let mut output = Output::new(&mut sink, buffer);
    match put_front(&mut output, front) {
        Ok(()) => Ok(sink.octets),
        Err(_) => Err(AllocError),
    }
}
