//! What an action made of a keyring, written.

ghost use Rattle.std.specs.Prelude.{◌≡◌, ◌⊎◌, ℕ, List, false};
ghost use Rattle.opgp_codec.specs.Draft.{DraftHas};
ghost use Rattle.opgp_codec.specs.Writing.{octets_text, packets_text};
ghost use Rattle.opgp_merge.specs.Merged.{merged_of};
ghost use Rattle.opgp_report.specs.Fingerprinting.{fingerprinted_rows_of};
ghost use Rattle.opgp_report.specs.Row.{report_rows};
ghost use Rattle.opgp_keyring.specs.Composed.{parts_of};
ghost use Rattle.opgp_keyring.specs.Keyring.{KeyringValue, flat};
ghost use Rattle.opgp_stack.specs.Making.{HasMade, explains_of, out_of, ring_made};
ghost use Rattle.opgp_stack.specs.OnePart.{found_question};
ghost use Rattle.opgp_state.specs.Places.{placed_lines};
ghost use Rattle.opgp_state.specs.Report.{fingerprinted_lines, report_lines};
ghost use Rattle.opgp_stack.specs.Running.{IsMade, IsSpooled, Made};
ghost use Rattle.opgp_stack.specs.Running.{found_made, one_text, question_made};

use crate::hashing::write_question;
use crate::making::Making;
use crate::run_fault::RunFault;
use crate::running::{After, done, end};
use crate::task::Action;
use crate::writing_report::{write_fingerprinted_report, write_placed_report, write_report};
use opgp_codec::{Draft, DraftError, EngineError, Out, Spool, write_certificate, write_keyring};
use opgp_io::Sink;
use opgp_keyring::{Certificate, Keyring};
use opgp_merge::merge;
use opgp_report::{FingerprintedReport, Report, question_at};
use opgp_state::RowPlace;
use std::alloc::Global;

impl<'a, S: Spool + Drop> Making<'a, S> {
    /// Writes it, once all parts of a keyring have come, and frees or leaks what was read. The
    /// condition is that the sink hasn't failed.
    ///
    /// With any error but `Write` and `Spool` nothing was written; after these the sink holds a
    /// prefix of the text.
    pub(crate) fn write<W: Sink>(
        self,
        alloc: Global,
        action: Action<'_>,
        writer: &mut W,
        after: After,
    ) -> Result<(), RunFault>
        requires { W.has_failed writer.old ≡ false }
        ensures { (r : KeyringValue)
            → HasMade (DraftHas S.serves S.tells S.holds S.has_failed) action.entry self.entry
            (parts_of r)
            → IsMade W.held W.has_failed writer.old writer.new result (ring_made action.entry r)
            ⊎ IsSpooled S.serves S.tells W.held W.has_failed writer.old writer.new result
            (ring_made action.entry r) }
    {
        let out = out_of(action);
        match self {
            Making::Text(text) => write_draft(text.into_draft(), out, writer),
            Making::Named(named) => {
                let (text, found) = named.found();
                write_found(text, found, writer)
            }
            Making::Nth(nth) => {
                let found = nth.found();
                done(write_one(alloc, out, &found, writer), found, after)
            }
            Making::Row(row) => {
                let found = row.found();
                done(
                    write_row(alloc, &found, explains_of(action), writer),
                    found,
                    after,
                )
            }
            Making::Report(rows) => {
                let report = rows.report();
                done(write_rows(alloc, &report, writer), report, after)
            }
            Making::Fingerprinted(rows) => {
                let report = rows.report();
                done(write_fingerprinted(alloc, &report, writer), report, after)
            }
            Making::Placed(rows) => {
                let placed = rows.report();
                done(write_placed(alloc, &placed, writer), placed, after)
            }
            Making::AllOctets(octets) => write_draft(octets.into_draft(), out, writer),
            Making::Ring(ring) => write_merged(alloc, ring, out, writer, after),
        }
    }
}

/// How what an action made of a keyring is written.
fn out_of(action: Action<'_>) -> Out
    ensures { result ≡ out_of action.entry }
{
    match action {
        Action::Write { out } => out,
        Action::WriteChosen { out, .. } => out,
        Action::Normalise { out } => out,
        Action::Split { out, nth: Some(_) } => out,
        Action::Join { out, .. } => out,
        _ => Out::Binary,
    }
}

/// Whether the octets that a question hashes are explained.
fn explains_of(action: Action<'_>) -> bool
    ensures { result ≡ explains_of action.entry }
{
    match action {
        Action::Explain { .. } => true,
        _ => false,
    }
}

/// Writes a text that was held.
pub(crate) fn write_draft<W: Sink, S: Spool + Drop>(
    draft: Draft<S>,
    out: Out,
    writer: &mut W,
) -> Result<(), RunFault>
    requires { W.has_failed writer.old ≡ false }
    ensures { (text : List ℕ) → DraftHas S.serves S.tells S.holds S.has_failed draft text
        → IsSpooled S.serves S.tells W.held W.has_failed writer.old writer.new result
        (Made.Text (octets_text out text)) }
{
    match draft.write(out, writer) {
        Ok(()) => Ok(()),
        Err(DraftError::Write) => Err(RunFault::Write),
        Err(DraftError::Spool) => Err(RunFault::Spool),
    }
}

/// Writes a text that was held, unless the name of this number is that of no key.
fn write_found<W: Sink, S: Spool + Drop>(
    draft: Draft<S>,
    missing: Option<usize>,
    writer: &mut W,
) -> Result<(), RunFault>
    requires { W.has_failed writer.old ≡ false }
    ensures { (text : List ℕ) → DraftHas S.serves S.tells S.holds S.has_failed draft text
        → IsMade W.held W.has_failed writer.old writer.new result (found_made missing text)
        ⊎ IsSpooled S.serves S.tells W.held W.has_failed writer.old writer.new result
        (found_made missing text) }
{
    match missing {
        None => write_draft(draft, Out::Binary, writer),
        Some(number) => {
            drop(draft);
            Err(RunFault::NoSuchKey(number))
        }
    }
}

/// Writes a certificate, if there is one.
fn write_one<W: Sink>(
    alloc: Global,
    out: Out,
    found: &Option<Certificate>,
    writer: &mut W,
) -> Result<(), RunFault>
    requires { W.has_failed writer.old ≡ false }
    ensures { IsMade W.held W.has_failed writer.old writer.new result (one_text out found.now) }
{
    match found {
        None => Err(RunFault::NoSuchCertificate),
        Some(certificate) => end(write_certificate(alloc, certificate, out, writer)),
    }
}

/// Writes the hashed octets of a row of a keyring's report, or a line for each field of them, if
/// there is one.
fn write_row<W: Sink>(
    alloc: Global,
    found: &(Option<Keyring>, usize),
    explained: bool,
    writer: &mut W,
) -> Result<(), RunFault>
    requires { W.has_failed writer.old ≡ false }
    ensures { IsMade W.held W.has_failed writer.old writer.new result
        (question_made explained (found_question found.now.0 found.now.1)) }
{
    match &found.0 {
        None => Err(RunFault::NoSuchRow),
        Some(ring) => write_question(alloc, question_at(ring, found.1), explained, writer),
    }
}

/// Writes a line for each row of a report.
fn write_rows<W: Sink>(alloc: Global, report: &Report, writer: &mut W) -> Result<(), RunFault>
    requires { W.has_failed writer.old ≡ false }
    ensures { IsMade W.held W.has_failed writer.old writer.new result
        (Made.Text (report_lines 0 (report_rows report.now))) }
{
    end(write_report(alloc, report, writer))
}

/// Writes a line for each row of a report with fingerprints.
fn write_fingerprinted<W: Sink>(
    alloc: Global,
    report: &FingerprintedReport,
    writer: &mut W,
) -> Result<(), RunFault>
    requires { W.has_failed writer.old ≡ false }
    ensures { IsMade W.held W.has_failed writer.old writer.new result
        (Made.Text (fingerprinted_lines 0 (fingerprinted_rows_of report.now))) }
{
    end(write_fingerprinted_report(alloc, report, writer))
}

/// Writes a line for each row of a report with its place.
fn write_placed<W: Sink>(
    alloc: Global,
    placed: &(Report, Vec<RowPlace>),
    writer: &mut W,
) -> Result<(), RunFault>
    requires { W.has_failed writer.old ≡ false }
    ensures { IsMade W.held W.has_failed writer.old writer.new result
        (Made.Text (placed_lines 0 (report_rows placed.now.0) placed.now.1.items)) }
{
    end(write_placed_report(alloc, &placed.0, &placed.1, writer))
}

/// Merges the certificates of a keyring, writes it, and frees or leaks it.
fn write_merged<W: Sink>(
    alloc: Global,
    ring: Keyring,
    out: Out,
    writer: &mut W,
    after: After,
) -> Result<(), RunFault>
    requires { W.has_failed writer.old ≡ false }
    ensures { IsMade W.held W.has_failed writer.old writer.new result
        (Made.Text (packets_text out (flat (merged_of ring)))) }
{
    match merge(ring) {
        Ok(ring) => done(end(write_keyring(alloc, &ring, out, writer)), ring, after),
        Err(_) => end(Err(EngineError::Memory)),
    }
}
