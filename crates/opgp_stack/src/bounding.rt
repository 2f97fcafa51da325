//! The bound parts of a keyring, written.

ghost use Rattle.std.specs.Prelude.{◌≡◌, ◌⊎◌, IfOk, false, Err};
ghost use Rattle.opgp_merge.specs.Chosen.{chosen_keyring};
ghost use Rattle.opgp_merge.specs.Merged.{merged_of};
ghost use Rattle.opgp_stack.specs.Bounding.{IsBoundOf, OfBound, bound_then};
ghost use Rattle.opgp_stack.specs.Running.{IsMade, Made, RunsOf};
ghost use Rattle.opgp_stack.specs.declared.run_fault.RunFault.TheVariants as run;

use crate::run_fault::RunFault;
use crate::running::{After, done, end};
use opgp_bound::{keep_bound, keep_newest};
use opgp_codec::{Answer, Mode, Out, read_keyring, write_keyring};
use opgp_io::{Sink, Source};
use opgp_keyring::Keyring;
use opgp_merge::{Choice, choose, merge};
use opgp_octets::{Limits, OutOfMemory};
use opgp_report::Verdict;
use opgp_state::read_verdicts;
use std::alloc::Global;

/// Which bound parts of certificates are written, and how.
#[derive(Clone, Copy, Debug)]
pub struct BoundTask<'a> {
    /// How the keyring is read.
    pub mode: Mode,
    /// The limits of what is read.
    pub limits: Limits,
    /// How it is written.
    pub out: Out,
    /// Which parts stay of what is bound: user IDs are counted among those.
    pub choice: Choice<'a>,
    /// Of the self-signatures that are bound, only those that are heard at this time, in seconds
    /// since 1970; None: all.
    pub newest_at: Option<u64>,
}

/// Reads a keyring, merges its certificates of one primary key, as [`merge`] does, and writes the
/// chosen ones of the parts that are bound by the verdicts in a file, as [`keep_bound`] and
/// [`choose`] have them; where the task has a time, of what [`keep_newest`] keeps by it. The
/// conditions are that neither the source nor the sink has failed.
///
/// The errors are `Refused`, `Read`, `Memory`, `OtherVerdicts`: the file isn't one of verdicts on
/// this keyring when it is merged, as [`read_verdicts`] has them; and `Write`, after which the sink
/// holds a prefix of the text. With any other nothing was written.
///
/// [`keep_bound`]: opgp_bound::keep_bound
/// [`keep_newest`]: opgp_bound::keep_newest
/// [`choose`]: opgp_merge::choose
/// [`merge`]: opgp_merge::merge
/// [`read_verdicts`]: opgp_state::read_verdicts
pub fn run_bound<R: Source, W: Sink>(
    alloc: Global,
    task: &BoundTask,
    file: &[u8],
    reader: &mut R,
    writer: &mut W,
) -> Result<(), RunFault>
    requires reader { R.has_failed reader.old ≡ false }
    requires writer { W.has_failed writer.old ≡ false }
    ensures { RunsOf R.left R.has_failed (IsMade W.held W.has_failed) task.now.limits
        (OfBound task.now file.now) reader.old reader.new writer.old writer.new result }
{
    match read_keyring(alloc, reader, task.mode, &task.limits) {
        Ok(Answer::Ring(keyring)) => write_merged_bound(alloc, keyring, task, file, writer),
        Ok(Answer::Refused(fault)) => Err(RunFault::Refused(fault)),
        Err(error) => end(Err(error)),
    }
}

/// Merges the certificates of a keyring, and writes the chosen bound parts, if the file has verdicts
/// on it.
fn write_merged_bound<W: Sink>(
    alloc: Global,
    keyring: Keyring,
    task: &BoundTask,
    file: &[u8],
    writer: &mut W,
) -> Result<(), RunFault>
    requires { W.has_failed writer.old ≡ false }
    ensures { ((result ≡ Err run.Memory) × (writer.new ≡ writer.old)) ⊎ ((made : Made)
        × IsBoundOf task.now file.now (merged_of keyring) made
        × IsMade W.held W.has_failed writer.old writer.new result made) }
{
    let merged = merge(keyring)?;
    write_bound(alloc, merged, task, file, writer)
}

/// Writes the chosen bound parts of a keyring, if the file has verdicts on it.
fn write_bound<W: Sink>(
    alloc: Global,
    keyring: Keyring,
    task: &BoundTask,
    file: &[u8],
    writer: &mut W,
) -> Result<(), RunFault>
    requires { W.has_failed writer.old ≡ false }
    ensures { ((result ≡ Err run.Memory) × (writer.new ≡ writer.old)) ⊎ ((made : Made)
        × IsBoundOf task.now file.now keyring made
        × IsMade W.held W.has_failed writer.old writer.new result made) }
{
    match read_verdicts(alloc, &keyring, file)? {
        Some(verdicts) => {
            let bound = bound(alloc, keyring, &verdicts, task)?;
            let written = write_keyring(alloc, &bound, task.out, writer);
            done(end(written), bound, After::Frees)
        }
        None => Err(RunFault::OtherVerdicts),
    }
}

/// The keyring of the chosen ones of the parts that are bound. Fails only when out of memory.
fn bound(
    alloc: Global,
    keyring: Keyring,
    verdicts: &[Verdict],
    task: &BoundTask,
) -> Result<Keyring, OutOfMemory>
    ensures { IfOk result (λ r. r ≡ chosen_keyring task.now.choice
        (bound_then task.now.newest_at keyring verdicts.now)) }
{
    let bound = bound_then(alloc, keyring, verdicts, task.newest_at)?;
    if task.choice.is_everything() {
        opgp_merge::laws::everything_stays();
        Ok(bound)
    } else {
        choose(bound, task.choice)
    }
}

/// The keyring of the parts that are bound: where there is a time, of the self-signatures only those
/// that are heard then. Fails only when out of memory.
fn bound_then(
    alloc: Global,
    keyring: Keyring,
    verdicts: &[Verdict],
    newest_at: Option<u64>,
) -> Result<Keyring, OutOfMemory>
    ensures { IfOk result (λ r. r ≡ bound_then newest_at keyring verdicts.now) }
{
    match newest_at {
        Some(at) => {
            let (newest, founds) = keep_newest(alloc, keyring, verdicts, at)?;
            keep_bound(alloc, newest, &founds)
        }
        None => keep_bound(alloc, keyring, verdicts),
    }
}
