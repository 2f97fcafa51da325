//! The certificates of an armored text, each as soon as it is complete.

ghost use Rattle.std.specs.Prelude.{◌≡◌, [], OnOk};
ghost use Rattle.opgp.specs.Codec.PartReader.{IsReading, octets_given, waits};
ghost use Rattle.opgp.specs.Octets.declared.limits.Limits.{Limits};

use anyhow::Result;
use opgp::codec::{Mode, PartReader};
use opgp::hash::fingerprint_of_view;
use opgp::octets::Limits;
use opgp::ring::{Certificate, Head, Ready};
use std::io::BufRead;

/// The greatest number of octets that are pushed at a time.
const PIECE: usize = 65_536;

/// The certificates of an armored text of keys: a line for each as soon as it is complete, and in
/// the end the fault of the lowest layer, if there is one.
pub(crate) fn certificates<R: BufRead + Drop>(
    rt: &(impl Print + AllocGlobal),
    mut source: R,
) -> Result<()> {
    let limits = Limits::usual();
    let mut reader = PartReader::new(rt.alloc(), Mode::Armor, limits);
    read_parts(rt, limits, &mut source, &mut reader)?;
    let mut waiting = reader.finish()??;
    'rest: while let Some(part) = waiting.take() {
        show(rt, part)?;
    }
    Ok(())
}

/// Reads a source to its end, or until it is too long, and shows the certificates that each piece
/// completes. However many octets come, the reader holds a certificate and a packet at most, and no
/// part waits when the next piece is read.
fn read_parts<R: BufRead + Drop>(
    rt: &(impl Print + AllocGlobal),
    limits: Limits,
    source: &mut R,
    reader: &mut PartReader,
) -> Result<()>
    requires reading { IsReading limits reader.old }
    requires fresh { octets_given reader.old ≡ 0 }
    ensures { OnOk result (IsReading limits reader.new) }
{
    let mut given = 0;
    'pieces: while given <= limits.input() {
        let buffered = source.fill_buf()?;
        let piece = &buffered[..buffered.len().min(PIECE)];
        let count = piece.len();
        if count == 0 {
            break;
        }
        reader.push(piece)?;
        source.consume(count);
        given += count as u64;
        show_waiting(rt, reader)?;
    }
    Ok(())
}

/// Takes all parts that wait, and shows the certificates among them.
fn show_waiting(rt: &(impl Print + AllocGlobal), reader: &mut PartReader) -> Result<()>
    ensures reading { OnOk result
        ((limits : Limits) → IsReading limits reader.old → IsReading limits reader.new) }
    ensures count { OnOk result (octets_given reader.new ≡ octets_given reader.old) }
    ensures none { OnOk result (waits reader.new ≡ []) }
{
    'parts: while let Some(part) = reader.take() {
        show(rt, part)?;
    }
    Ok(())
}

/// A line for a part that is a certificate; the part is dropped.
fn show(rt: &(impl Print + AllocGlobal), part: Ready) -> Result<()> {
    let shown = match &part {
        Ready::Certificate(certificate) => show_certificate(rt, certificate),
        Ready::Lead(_) => Ok(()),
    };
    drop(part);
    shown
}

/// A line for a certificate: its fingerprint and its user IDs.
fn show_certificate(rt: &(impl Print + AllocGlobal), certificate: &Certificate) -> Result<()> {
    let print = fingerprint_of_view(certificate.key());
    print!(rt; "{print}")?;
    let mut components = certificate.components();
    'components: while let Some(component) = components.next() {
        if let Head::UserId(id) = component.head().head() {
            let text = String::from_utf8_lossy(rt.alloc(), id)?;
            let text = text.as_str();
            print!(rt; " {text:?}")?;
        }
    }
    println!(rt)?;
    Ok(())
}
