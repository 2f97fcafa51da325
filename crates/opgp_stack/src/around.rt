//! What a signature hashes around a document.

ghost use Rattle.std.specs.Prelude.{◌≡◌, false, map, option_map, Some};
ghost use Rattle.std.specs.List.{slice_get};
ghost use Rattle.opgp_hash.specs.SignedValue.{signed_of};
ghost use Rattle.opgp_packet.specs.SigView.{sig_view_value};
ghost use Rattle.opgp_keyring.specs.DetachedSignatures.{detached_packets};
ghost use Rattle.opgp_keyring.specs.Signed.{signature_bodies};
ghost use Rattle.opgp_stack.specs.Documents.{OfSignatures, around_of, around_made};
ghost use Rattle.opgp_stack.specs.Documents.{read_shown, signed_in, signed_read};
ghost use Rattle.opgp_stack.specs.Running.{IsMade, RunsOf};

use crate::hashing::OctetsText;
use crate::run_fault::RunFault;
use crate::running::end;
use opgp_codec::{EngineError, Mode, read_signatures, write};
use opgp_document::OwnOctets;
use opgp_io::{Sink, Source};
use opgp_keyring::DetachedSignatures;
use opgp_octets::{BodyFault, Limits};
use opgp_packet::SigView;
use std::alloc::Global;

/// Which of the octets that a signature hashes beside its document (RFC 9580, 5.2.4).
#[derive(Clone, Copy, Debug, PartialEq, Eq)]
pub enum Around {
    /// Those in front of it: the salt of a version 6 signature. Version 4 has none.
    Front,
    /// Those behind it: the signature's fields, and the trailer.
    Behind,
}

/// Reads detached signatures (RFC 9580, 10.4), and writes what the one of this number, from 0,
/// hashes around its document. With the document between both, any program can hash it. The
/// conditions are that neither the source nor the sink has failed.
///
/// The errors are `Refused`, `NoSuchRow`: there is no such signature, or it is malformed or of
/// another version than 4 and 6; `Read`, `Memory`, and `Write`, after which the sink holds a prefix
/// of the octets. With any other nothing was written.
pub fn run_around<R: Source, W: Sink>(
    alloc: Global,
    mode: Mode,
    limits: &Limits,
    row: u64,
    part: Around,
    reader: &mut R,
    writer: &mut W,
) -> Result<(), RunFault>
    requires reader { R.has_failed reader.old ≡ false }
    requires writer { W.has_failed writer.old ≡ false }
    ensures { RunsOf R.left R.has_failed (IsMade W.held W.has_failed) limits.now
        (OfSignatures (around_of part row) mode limits.now) reader.old reader.new writer.old
        writer.new result }
{
    let signatures = read_signatures(alloc, reader, mode, limits)?;
    write_around(alloc, &signatures, row, part, writer)
}

/// Writes what the signature of this number hashes around its document.
fn write_around<W: Sink>(
    alloc: Global,
    signatures: &DetachedSignatures,
    row: u64,
    part: Around,
    writer: &mut W,
) -> Result<(), RunFault>
    requires { W.has_failed writer.old ≡ false }
    ensures { IsMade W.held W.has_failed writer.old writer.new result
        (around_of part row (detached_packets signatures.now)) }
{
    match read_at(signatures, row) {
        Some(read) => write_one(alloc, read, part, writer),
        None => Err(RunFault::NoSuchRow),
    }
}

/// The signature of this number, from 0, or the fault of a malformed one; None if there is none.
fn read_at(signatures: &DetachedSignatures, row: u64) -> Option<Result<SigView<'_>, BodyFault>>
    ensures { option_map (λ read. signed_read (read_shown read)) result
        ≡ slice_get (map signed_in (signature_bodies (detached_packets signatures.now))) row }
{
    let mut left = signatures.signatures();
    let mut before = row;
    'signatures: while let Some(read) = left.next() {
        if before == 0 {
            return Some(read);
        }
        before -= 1;
    }
    None
}

/// Writes what this signature hashes around its document.
fn write_one<W: Sink>(
    alloc: Global,
    read: Result<SigView<'_>, BodyFault>,
    part: Around,
    writer: &mut W,
) -> Result<(), RunFault>
    requires { W.has_failed writer.old ≡ false }
    ensures { IsMade W.held W.has_failed writer.old writer.new result
        (around_made part (Some (signed_read (read_shown read.entry)))) }
{
    match read {
        Ok(view) => write_own(alloc, view, part, writer),
        Err(_) => Err(RunFault::NoSuchRow),
    }
}

/// The same of one that isn't malformed.
fn write_own<W: Sink>(
    alloc: Global,
    signature: SigView<'_>,
    part: Around,
    writer: &mut W,
) -> Result<(), RunFault>
    requires { W.has_failed writer.old ≡ false }
    ensures { IsMade W.held W.has_failed writer.old writer.new result
        (around_made part (Some (signed_of (sig_view_value signature.entry)))) }
{
    let Some(own) = OwnOctets::of(signature) else {
        return Err(RunFault::NoSuchRow);
    };
    match part {
        Around::Front => end(write(alloc, OctetsText { octets: own.salt() }, writer)),
        Around::Behind => match own.behind(alloc) {
            Ok(octets) => end(write(alloc, OctetsText { octets: &octets }, writer)),
            Err(_) => end(Err(EngineError::Memory)),
        },
    }
}
