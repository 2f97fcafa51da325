//! Runs a task.

ghost use Rattle.std.specs.Prelude.{◌≡◌, [], true, false, IfSome};
ghost use Rattle.opgp_keyring.specs.SignedLiteral.{signed_packets};
ghost use Rattle.opgp_stack.specs.Running.{IsMade, OfLiteral, RunsAs, RunsOf, RunsSpooled};
ghost use Rattle.opgp_stack.specs.Running.{ended, message_made};

use crate::hashing::{question_of, write_question};
use crate::made::write_draft;
use crate::making_from::make;
use crate::packet_text::PacketText;
use crate::run_fault::RunFault;
use crate::showing_from::show;
use crate::task::{Action, Task, Top};
use opgp_codec::{EngineError, NoSpool, Out, SignedAnswer, Spool, read_signed};
use opgp_io::{Sink, Source};
use opgp_keyring::SignedLiteral;
use std::alloc::Global;
use std::mem;

/// Runs a task: reads packets, a keyring or a signed literal, and writes what is made of
/// it. The condition is that neither the source nor the sink has failed.
///
/// With any error but `Write` nothing was written; after `Write` the sink has failed, and holds a
/// prefix of the text.
pub fn run<R: Source, W: Sink>(
    alloc: Global,
    task: &Task,
    reader: &mut R,
    writer: &mut W,
) -> Result<(), RunFault>
    requires reader { R.has_failed reader.old ≡ false }
    requires writer { W.has_failed writer.old ≡ false }
    ensures { RunsAs R.left R.has_failed W.held W.has_failed task.now reader.old reader.new
        writer.old writer.new result }
{
    run_and::<R, W, NoSpool>(alloc, task, None, reader, writer, After::Frees)
}

/// Runs a task as [`run`] does, but leaves freeing what it read to the end of the
/// process, which saves time. It is for a program that does nothing afterwards.
pub fn run_last<R: Source, W: Sink>(
    alloc: Global,
    task: &Task,
    reader: &mut R,
    writer: &mut W,
) -> Result<(), RunFault>
    requires reader { R.has_failed reader.old ≡ false }
    requires writer { W.has_failed writer.old ≡ false }
    ensures { RunsAs R.left R.has_failed W.held W.has_failed task.now reader.old reader.new
        writer.old writer.new result }
{
    run_and::<R, W, NoSpool>(alloc, task, None, reader, writer, After::Leaves)
}

/// Runs a task as [`run`] does, but what it writes is held in this spool, which is to be empty, and
/// not in memory: so memory doesn't limit the output of any task but `Check`, `CheckFingerprints`,
/// `CheckPlaces`, `Octets`, one certificate of `Split`, and a `Join` that merges, which hold none.
///
/// With the error `Spool` the spool has failed. If that was while it was read again, the sink holds
/// a prefix of the text, else nothing was written. It isn't told before the input has ended without
/// a fault.
pub fn run_spooled<R: Source, W: Sink, S: Spool + Drop>(
    alloc: Global,
    task: &Task,
    spool: S,
    reader: &mut R,
    writer: &mut W,
) -> Result<(), RunFault>
    requires reader { R.has_failed reader.old ≡ false }
    requires writer { W.has_failed writer.old ≡ false }
    requires serves { S.serves ≡ true }
    requires empty { S.tells ≡ true → S.holds spool ≡ [] }
    ensures { RunsSpooled S.serves S.tells R.left R.has_failed W.held W.has_failed task.now
        reader.old reader.new writer.old writer.new result }
{
    run_and(alloc, task, Some(spool), reader, writer, After::Frees)
}

/// What happens to what was read.
#[derive(Clone, Copy)]
pub(crate) enum After {
    /// It is freed.
    Frees,
    /// It is leaked: the end of the process frees it.
    Leaves,
}

/// Frees what was read, or leaks it.
pub(crate) fn done<T: Drop>(
    end: Result<(), RunFault>,
    value: T,
    after: After,
) -> Result<(), RunFault>
    ensures { result ≡ end }
{
    match after {
        After::Frees => drop(value),
        After::Leaves => mem::forget(value),
    }
    end
}

/// Runs a task, with or without a spool, and frees or leaks what it read.
fn run_and<R: Source, W: Sink, S: Spool + Drop>(
    alloc: Global,
    task: &Task,
    spool: Option<S>,
    reader: &mut R,
    writer: &mut W,
    after: After,
) -> Result<(), RunFault>
    requires reader { R.has_failed reader.old ≡ false }
    requires writer { W.has_failed writer.old ≡ false }
    requires empty { IfSome spool (λ s. (S.serves ≡ true) × (S.tells ≡ true → S.holds s ≡ [])) }
    ensures { RunsSpooled S.serves S.tells R.left R.has_failed W.held W.has_failed task.now
        reader.old reader.new writer.old writer.new result }
{
    match task.action {
        Action::Show => {
            let text = show(alloc, task, PacketText::Plain, spool, reader)?;
            write_draft(text, Out::Binary, writer)
        }
        Action::ShowValues => {
            let text = show(alloc, task, PacketText::Valued, spool, reader)?;
            write_draft(text, Out::Binary, writer)
        }
        Action::Octets {
            row,
            top: Top::Literal,
        } => {
            drop(spool);
            write_message_octets(alloc, task, reader, writer, row, false, after)
        }
        Action::Explain {
            row,
            top: Top::Literal,
        } => {
            drop(spool);
            write_message_octets(alloc, task, reader, writer, row, true, after)
        }
        _ => {
            let made = make(alloc, task, spool, reader)?;
            made.write(alloc, task.action, writer, after)
        }
    }
}

/// Reads a signed literal, and writes the octets that one of its signatures hashes, or a line for
/// each field of them.
fn write_message_octets<R: Source, W: Sink>(
    alloc: Global,
    task: &Task,
    reader: &mut R,
    writer: &mut W,
    row: u64,
    explains: bool,
    after: After,
) -> Result<(), RunFault>
    requires reader { R.has_failed reader.old ≡ false }
    requires writer { W.has_failed writer.old ≡ false }
    ensures { RunsOf R.left R.has_failed (IsMade W.held W.has_failed) task.now.limits
        (OfLiteral (message_made explains row) task.now) reader.old reader.new writer.old writer.new
        result }
{
    match read_signed(alloc, reader, task.mode, &task.limits) {
        Ok(SignedAnswer::Literal(message)) => {
            let written = write_question_of(alloc, &message, row, explains, writer);
            done(written, message, after)
        }
        Ok(SignedAnswer::Refused(fault)) => Err(RunFault::Refused(fault)),
        Err(error) => end(Err(error)),
    }
}

/// Writes the octets that one signature on a literal hashes, or a line for each field of them.
fn write_question_of<W: Sink>(
    alloc: Global,
    message: &SignedLiteral,
    row: u64,
    explains: bool,
    writer: &mut W,
) -> Result<(), RunFault>
    requires { W.has_failed writer.old ≡ false }
    ensures { IsMade W.held W.has_failed writer.old writer.new result
        (message_made explains row (signed_packets message.now)) }
{
    write_question(alloc, question_of(message, row), explains, writer)
}

/// A run ends as its writing does.
pub(crate) fn end(written: Result<(), EngineError>) -> Result<(), RunFault>
    ensures { result ≡ ended written }
{
    match written {
        Ok(()) => Ok(()),
        Err(EngineError::Read) => Err(RunFault::Read),
        Err(EngineError::Write) => Err(RunFault::Write),
        Err(EngineError::Memory) => Err(RunFault::Memory),
    }
}
