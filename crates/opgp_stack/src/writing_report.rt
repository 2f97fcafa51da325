//! Writes a report into a sink.

ghost use Rattle.std.specs.Prelude.{◌≡◌, false, map};
ghost use Rattle.opgp_report.specs.Fingerprinting.{fingerprinted_rows_of, rows_to_come};
ghost use Rattle.opgp_report.specs.Row.{report_rows, row_value};
ghost use Rattle.opgp_state.specs.Places.{placed_lines};
ghost use Rattle.opgp_state.specs.Report.{fingerprinted_lines, report_lines};
ghost use Rattle.opgp_codec.specs.Written.{IsWritten};

use opgp_codec::{EngineError, Text, write};
use opgp_io::{Output, Sink};
use opgp_report::{FingerprintedReport, FingerprintedRows, Report, Row};
use opgp_state::{RowPlace, add_fingerprinted_report, add_placed_report, add_report};
use std::alloc::Global;
use std::io;

/// A line for each row of a report.
#[derive(Clone, Copy)]
struct ReportText<'a> {
    rows: &'a [Row],
}

impl Text for ReportText<'_> {
    ghost octets = { λ text. report_lines 0 (map row_value text.rows.now) };

    fn add<W: Sink>(self, output: &mut Output<'_, W>) -> io::Result<()> {
        add_report(output, self.rows)
    }
}

/// Writes a line for each row of a report. The condition is that the sink hasn't failed.
///
/// A line begins `row <n> cert <n> part <n or -> hang <n> nested <n or -> : `, which is the number
/// of the row, and its signature's place: its certificate, the component that it is on, its number
/// among the packets there, and its number among the embedded signatures. Then follows
/// `asked type <T> hash <n> signer <key ID or -> digest <DDDD> verdict <good, bad or undecided>`,
/// with the first two octets of the digest, or `none <opaque, kind, misplaced, version or hash>`,
/// the reason why the signature isn't hashed.
///
/// Numbers are decimal, types, key IDs and digests upper-case hexadecimal.
///
/// All memory is allocated before the first octet is written. The errors are `Memory`, with
/// nothing written, and `Write`: the sink has failed, and holds a prefix of the lines.
pub fn write_report<W: Sink>(
    alloc: Global,
    report: &Report,
    writer: &mut W,
) -> Result<(), EngineError>
    requires { W.has_failed writer.old ≡ false }
    ensures { IsWritten W.held W.has_failed writer.old writer.new result
        (report_lines 0 (report_rows report.now)) }
{
    let rows = report.rows();
    write(alloc, ReportText { rows }, writer)
}

/// A line for each row of a report, with fingerprints.
#[derive(Clone, Copy)]
struct FingerprintedReportText<'a> {
    rows: FingerprintedRows<'a>,
}

impl Text for FingerprintedReportText<'_> {
    ghost octets = { λ text. fingerprinted_lines 0 (rows_to_come text.rows) };

    fn add<W: Sink>(self, output: &mut Output<'_, W>) -> io::Result<()> {
        add_fingerprinted_report(output, self.rows)
    }
}

/// Writes a line for each row of a report with fingerprints, as [`write_report`] does; it goes on
/// with the fingerprint of the primary key of the row's certificate, and that of its signer, or `-`
/// for none (RFC 9580, 5.5.4). The condition is that the sink hasn't failed.
///
/// A fingerprint has 40 upper-case hexadecimal digits in version 4, 64 in version 6.
///
/// All memory is allocated before the first octet is written. The errors are `Memory`, with
/// nothing written, and `Write`: the sink has failed, and holds a prefix of the lines.
pub fn write_fingerprinted_report<W: Sink>(
    alloc: Global,
    report: &FingerprintedReport,
    writer: &mut W,
) -> Result<(), EngineError>
    requires { W.has_failed writer.old ≡ false }
    ensures { IsWritten W.held W.has_failed writer.old writer.new result
        (fingerprinted_lines 0 (fingerprinted_rows_of report.now)) }
{
    let rows = report.rows();
    write(alloc, FingerprintedReportText { rows }, writer)
}

/// A line for each row of a report, with its place.
#[derive(Clone, Copy)]
struct PlacedReportText<'a> {
    rows: &'a [Row],
    places: &'a [RowPlace],
}

impl Text for PlacedReportText<'_> {
    ghost octets = { λ text. placed_lines 0 (map row_value text.rows.now) text.places.now };

    fn add<W: Sink>(self, output: &mut Output<'_, W>) -> io::Result<()> {
        add_placed_report(output, self.rows, self.places)
    }
}

/// Writes a line for each row of a report, as [`write_report`] does; it goes on with
/// ` packet <n> user-id <n or ->`, the place of the row in these, which are in the order of the
/// rows: the number of the signature's packet among all packets of the keyring, and that of the
/// user ID that it is on among those of its certificate, or `-` for none. A row that has no place
/// ends the lines. The condition is that the sink hasn't failed.
///
/// All memory is allocated before the first octet is written. The errors are `Memory`, with
/// nothing written, and `Write`: the sink has failed, and holds a prefix of the lines.
pub fn write_placed_report<W: Sink>(
    alloc: Global,
    report: &Report,
    places: &[RowPlace],
    writer: &mut W,
) -> Result<(), EngineError>
    requires { W.has_failed writer.old ≡ false }
    ensures { IsWritten W.held W.has_failed writer.old writer.new result
        (placed_lines 0 (report_rows report.now) places.now) }
{
    let rows = report.rows();
    write(alloc, PlacedReportText { rows, places }, writer)
}
