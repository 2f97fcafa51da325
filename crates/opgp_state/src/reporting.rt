//! The lines of a keyring's report, without an allocation.

ghost use Rattle.std.specs.Prelude.{◌≡◌, ◌++◌, false, codes, map, take};
ghost use Rattle.std.specs.Option.{option_map};
ghost use Rattle.opgp_hash.specs.Digest.{digest_octets};
ghost use Rattle.opgp_report.specs.Fingerprinting.{fingerprinted_value, rows_to_come};
ghost use Rattle.opgp_report.specs.Row.{row_value};
ghost use Rattle.opgp_report.specs.RowValue.{asked_with, not_asked};
ghost use Rattle.opgp_state.specs.Report.{fields_at, finding_words, fingerprinted_line};
ghost use Rattle.opgp_state.specs.Report.{fingerprinted_lines, id_or_none, number_or_none};
ghost use Rattle.opgp_state.specs.Report.{print_or_none, print_words, report_lines, row_fields};
ghost use Rattle.opgp_state.specs.Report.{row_line, verdict_name};
ghost use Rattle.opgp_state.specs.Places.{place_words, placed_line, placed_lines};
ghost use Rattle.opgp_io.specs.Line.{word_text};
ghost use Rattle.opgp_io.specs.Output.{Extends, sink_of};

use crate::row_place::RowPlace;
use opgp_hash::{Digest, Fingerprint, KeyId, Why};
use opgp_io::{Output, Sink, Word};
use opgp_report::{Finding, FingerprintedRow, FingerprintedRows, Place, Row, Verdict};
use std::io;

pub(crate) fn number_or_none(number: Option<usize>) -> Word<'static>
    ensures { word_text result ≡ number_or_none number }
{
    match number {
        Some(n) => Word::Decimal(n as u64),
        None => Word::Text(b"-"),
    }
}

/// The word of a verdict, and the verdict.
pub fn verdict_words(verdict: Verdict) -> &'static [u8]
    ensures { result.now ≡ codes " verdict " ++ verdict_name verdict }
{
    match verdict {
        Verdict::Good => b" verdict good",
        Verdict::Bad => b" verdict bad",
        Verdict::Undecided => b" verdict undecided",
    }
}

/// A key ID's digits in hexadecimal, or `-` for none.
pub(crate) fn id_or_none(id: &Option<KeyId>) -> Word<'_>
    ensures { word_text result ≡ id_or_none (option_map (λ k. k.0) id.now) }
{
    match id {
        Some(id) => Word::Hex(id.0.as_slice()),
        None => Word::Text(b"-"),
    }
}

/// The first two octets of a digest.
pub fn left_of(digest: &Digest) -> [u8; 2]
    ensures { result ≡ take 2 (digest_octets digest.now) }
{
    match digest.octets() {
        [first, second, ..] => [*first, *second],
        _ => unreachable!(),
    }
}

/// Adds the fields of a signature that is hashed.
fn add_asked<W: Sink>(
    output: &mut Output<'_, W>,
    number: u64,
    place: Place,
    kind: u8,
    hash: u8,
    signer: Option<KeyId>,
    digest: &Digest,
    verdict: Verdict,
) -> io::Result<()>
    requires { W.has_failed (sink_of output.old) ≡ false }
    ensures { Extends W.held W.has_failed output.old output.new result
        (fields_at number place (finding_words
        (asked_with kind hash (option_map (λ k. k.0) signer) digest.now verdict))) }
{
    let left = left_of(digest);
    output.add_words(&[
        Word::Text(b"row "),
        Word::Decimal(number),
        Word::Text(b" cert "),
        Word::Decimal(place.certificate as u64),
        Word::Text(b" part "),
        number_or_none(place.component),
        Word::Text(b" hang "),
        Word::Decimal(place.hang as u64),
        Word::Text(b" nested "),
        number_or_none(place.nested),
        Word::Text(b" : asked type "),
        Word::Hex(&[kind]),
        Word::Text(b" hash "),
        Word::Decimal(hash as u64),
        Word::Text(b" signer "),
        id_or_none(&signer),
        Word::Text(b" digest "),
        Word::Hex(&left),
        Word::Text(verdict_words(verdict)),
    ])
}

/// Adds the fields of a signature that isn't hashed.
pub(crate) fn add_none<W: Sink>(
    output: &mut Output<'_, W>,
    number: u64,
    place: Place,
    why: Why,
) -> io::Result<()>
    requires { W.has_failed (sink_of output.old) ≡ false }
    ensures { Extends W.held W.has_failed output.old output.new result
        (fields_at number place (finding_words (not_asked why))) }
{
    output.add_words(&[
        Word::Text(b"row "),
        Word::Decimal(number),
        Word::Text(b" cert "),
        Word::Decimal(place.certificate as u64),
        Word::Text(b" part "),
        number_or_none(place.component),
        Word::Text(b" hang "),
        Word::Decimal(place.hang as u64),
        Word::Text(b" nested "),
        number_or_none(place.nested),
        Word::Text(b" : none "),
        Word::Text(why.name().as_bytes()),
    ])
}

/// Adds the fields of a row.
fn add_fields<W: Sink>(output: &mut Output<'_, W>, number: u64, row: &Row) -> io::Result<()>
    requires { W.has_failed (sink_of output.old) ≡ false }
    ensures { Extends W.held W.has_failed output.old output.new result
        (row_fields number (row_value row.now)) }
{
    match &row.finding {
        Finding::Asked {
            kind,
            hash,
            signer,
            digest,
            verdict,
        } => add_asked(
            output, number, row.place, *kind, *hash, *signer, digest, *verdict,
        ),
        Finding::NotAsked(why) => add_none(output, number, row.place, *why),
    }
}

/// Adds the line of a row.
fn add_row<W: Sink>(output: &mut Output<'_, W>, number: u64, row: &Row) -> io::Result<()>
    requires { W.has_failed (sink_of output.old) ≡ false }
    ensures { Extends W.held W.has_failed output.old output.new result
        (row_line number (row_value row.now)) }
{
    add_fields(output, number, row)?;
    output.add(b"\n")
}

/// Adds the lines of rows.
pub fn add_report<W: Sink>(output: &mut Output<'_, W>, rows: &[Row]) -> io::Result<()>
    requires { W.has_failed (sink_of output.old) ≡ false }
    ensures { Extends W.held W.has_failed output.old output.new result
        (report_lines 0 (map row_value rows.now)) }
{
    let mut number = 0u64;
    let mut rest = rows;
    'rows: while let Some((row, more)) = rest.split_first() {
        add_row(output, number, row)?;
        number += 1;
        rest = more;
    }
    Ok(())
}

/// A fingerprint's digits in hexadecimal, or `-` for none.
fn print_or_none(print: &Option<Fingerprint>) -> Word<'_>
    ensures { word_text result ≡ print_or_none print.now }
{
    match print {
        Some(print) => Word::Hex(print.octets()),
        None => Word::Text(b"-"),
    }
}

/// Adds the fingerprints of a certificate and of a signer, and the line's end.
fn add_prints<'p, W: Sink>(
    output: &mut Output<'_, W>,
    certificate: &'p Fingerprint,
    signer: &'p Option<Fingerprint>,
) -> io::Result<()>
    requires { W.has_failed (sink_of output.old) ≡ false }
    ensures { Extends W.held W.has_failed output.old output.new result
        (print_words certificate.now signer.now) }
{
    output.add_words(&[
        Word::Text(b" "),
        Word::Hex(certificate.octets()),
        Word::Text(b" "),
        print_or_none(signer),
        Word::Text(b"\n"),
    ])
}

/// Adds the line of a row with fingerprints.
fn add_fingerprinted_row<W: Sink>(
    output: &mut Output<'_, W>,
    number: u64,
    row: &FingerprintedRow,
) -> io::Result<()>
    requires { W.has_failed (sink_of output.old) ≡ false }
    ensures { Extends W.held W.has_failed output.old output.new result
        (fingerprinted_line number (fingerprinted_value row.now)) }
{
    add_fields(output, number, &row.row)?;
    add_prints(output, &row.certificate, &row.signer)
}

/// Adds the lines of all rows that are left, with fingerprints.
pub fn add_fingerprinted_report<W: Sink>(
    output: &mut Output<'_, W>,
    mut rows: FingerprintedRows<'_>,
) -> io::Result<()>
    requires { W.has_failed (sink_of output.old) ≡ false }
    ensures { Extends W.held W.has_failed output.old output.new result
        (fingerprinted_lines 0 (rows_to_come rows.entry)) }
{
    let mut number = 0u64;
    'rows: while let Some(row) = rows.next() {
        add_fingerprinted_row(output, number, &row)?;
        number += 1;
    }
    Ok(())
}

/// Adds the place of a row, and the line's end.
fn add_place<W: Sink>(output: &mut Output<'_, W>, place: RowPlace) -> io::Result<()>
    requires { W.has_failed (sink_of output.old) ≡ false }
    ensures { Extends W.held W.has_failed output.old output.new result (place_words place) }
{
    output.add_words(&[
        Word::Text(b" packet "),
        Word::Decimal(place.packet as u64),
        Word::Text(b" user-id "),
        number_or_none(place.user_id),
        Word::Text(b"\n"),
    ])
}

/// Adds the line of a row with its place.
fn add_placed_row<W: Sink>(
    output: &mut Output<'_, W>,
    number: u64,
    row: &Row,
    place: RowPlace,
) -> io::Result<()>
    requires { W.has_failed (sink_of output.old) ≡ false }
    ensures { Extends W.held W.has_failed output.old output.new result
        (placed_line number (row_value row.now) place) }
{
    add_fields(output, number, row)?;
    add_place(output, place)
}

/// Adds the lines of rows with their places: the first place is that of the first row. A row that
/// has none ends the lines.
pub fn add_placed_report<W: Sink>(
    output: &mut Output<'_, W>,
    rows: &[Row],
    places: &[RowPlace],
) -> io::Result<()>
    requires { W.has_failed (sink_of output.old) ≡ false }
    ensures { Extends W.held W.has_failed output.old output.new result
        (placed_lines 0 (map row_value rows.now) places.now) }
{
    let mut number = 0u64;
    let mut rest = rows;
    let mut left = places;
    'rows: while let Some((row, more)) = rest.split_first() {
        let Some((place, others)) = left.split_first() else {
            return Ok(());
        };
        add_placed_row(output, number, row, *place)?;
        number += 1;
        rest = more;
        left = others;
    }
    Ok(())
}
