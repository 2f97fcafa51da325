//! How the parts of a keyring stand.

ghost use Rattle.std.specs.Prelude.{◌≡◌, ◌⊎◌, false, Err};
ghost use Rattle.std.specs.Option.{option_map};
ghost use Rattle.opgp_merge.specs.Merged.{merged_of};
ghost use Rattle.opgp_state.specs.KeyringStates.{causes_in, states_in};
ghost use Rattle.opgp_state.specs.StateLines.{lines_from};
ghost use Rattle.opgp_stack.specs.Running.{IsMade, Made, RunsOf};
ghost use Rattle.opgp_stack.specs.Stating.{AreStates, OfStates};
ghost use Rattle.opgp_stack.specs.declared.run_fault.RunFault.TheVariants as run;

use crate::run_fault::RunFault;
use crate::running::{After, done, end};
use opgp_codec::{Answer, Mode, Text, read_keyring, write};
use opgp_io::{Output, Sink, Source};
use opgp_keyring::Keyring;
use opgp_merge::merge;
use opgp_octets::Limits;
use opgp_state::{Basis, KeyringStates, add_states, read_verdicts};
use opgp_valid::Policy;
use std::alloc::Global;
use std::io;

/// How the parts of a keyring are judged.
#[derive(Clone, Copy, Debug)]
pub struct StateTask {
    /// How the keyring is read.
    pub mode: Mode,
    /// The limits of what is read.
    pub limits: Limits,
    /// Which hash algorithms and keys are relied on.
    pub policy: Policy,
    /// The time at which they are judged, in seconds since 1970.
    pub at: u64,
    /// Whether dates, and what makes a key not usable, are written too.
    pub values: bool,
}

/// A line for each part of a keyring.
#[derive(Clone, Copy)]
struct StatesText<'a> {
    basis: Basis,
    values: bool,
    keyring: &'a Keyring,
    states: &'a KeyringStates,
}

impl Text for StatesText<'_> {
    ghost octets = { λ text.
        lines_from text.basis text.values 0 text.keyring.now.certificates
        (states_in text.states.now) (causes_in text.states.now) };

    fn add<W: Sink>(self, output: &mut Output<'_, W>) -> io::Result<()> {
        add_states(output, self.basis, self.values, self.keyring, self.states)
    }
}

/// Reads a keyring, merges its certificates of one primary key, as [`merge`] does, and writes how
/// each key, user ID and user attribute stands at a time, a line for each, as [`add_states`] has
/// them, with values if they are wanted. The conditions are that neither the source nor the sink
/// has failed.
///
/// Without a file of verdicts the lines say what the signatures claim, and that nothing is
/// verified: each that is hashed counts as good, unless its digest is bad. A file has the verdicts
/// of a verifier, as [`read_verdicts`] has them.
///
/// The errors are `Refused`, `Read`, `Memory`, `OtherVerdicts`: the file isn't one of verdicts on
/// this keyring when it is merged; and `Write`, after which the sink holds a prefix of the lines.
/// With any other nothing was written.
///
/// [`add_states`]: opgp_state::add_states
/// [`merge`]: opgp_merge::merge
/// [`read_verdicts`]: opgp_state::read_verdicts
pub fn run_states<R: Source, W: Sink>(
    alloc: Global,
    task: &StateTask,
    file: Option<&[u8]>,
    reader: &mut R,
    writer: &mut W,
) -> Result<(), RunFault>
    requires reader { R.has_failed reader.old ≡ false }
    requires writer { W.has_failed writer.old ≡ false }
    ensures { RunsOf R.left R.has_failed (IsMade W.held W.has_failed) task.now.limits
        (OfStates task.now (option_map (λ f. f.now) file.entry)) reader.old reader.new writer.old
        writer.new result }
{
    match read_keyring(alloc, reader, task.mode, &task.limits) {
        Ok(Answer::Ring(keyring)) => write_merged_states(alloc, keyring, task, file, writer),
        Ok(Answer::Refused(fault)) => Err(RunFault::Refused(fault)),
        Err(error) => end(Err(error)),
    }
}

/// Merges the certificates of a keyring, and writes how its parts stand.
fn write_merged_states<W: Sink>(
    alloc: Global,
    keyring: Keyring,
    task: &StateTask,
    file: Option<&[u8]>,
    writer: &mut W,
) -> Result<(), RunFault>
    requires { W.has_failed writer.old ≡ false }
    ensures { ((result ≡ Err run.Memory) × (writer.new ≡ writer.old)) ⊎ ((made : Made)
        × AreStates task.now.values task.now.policy task.now.at
        (option_map (λ f. f.now) file.entry) (merged_of keyring) made
        × IsMade W.held W.has_failed writer.old writer.new result made) }
{
    let merged = merge(keyring)?;
    let ended = write_states(alloc, &merged, task, file, writer);
    done(ended, merged, After::Frees)
}

/// Writes how the parts of a keyring stand.
fn write_states<W: Sink>(
    alloc: Global,
    keyring: &Keyring,
    task: &StateTask,
    file: Option<&[u8]>,
    writer: &mut W,
) -> Result<(), RunFault>
    requires { W.has_failed writer.old ≡ false }
    ensures { ((result ≡ Err run.Memory) × (writer.new ≡ writer.old)) ⊎ ((made : Made)
        × AreStates task.now.values task.now.policy task.now.at
        (option_map (λ f. f.now) file.entry) keyring.now made
        × IsMade W.held W.has_failed writer.old writer.new result made) }
{
    match file {
        None => {
            let states = KeyringStates::claimed(alloc, keyring, task.policy, task.at, task.values)?;
            write_lines(alloc, keyring, Basis::Claims, task.values, &states, writer)
        }
        Some(file) => match read_verdicts(alloc, keyring, file)? {
            Some(verdicts) => {
                let StateTask {
                    policy,
                    at,
                    values,
                    ..
                } = *task;
                let states = KeyringStates::of(alloc, keyring, &verdicts, policy, at, values)?;
                write_lines(
                    alloc,
                    keyring,
                    Basis::Verdicts,
                    task.values,
                    &states,
                    writer,
                )
            }
            None => Err(RunFault::OtherVerdicts),
        },
    }
}

/// Writes that the parts of a keyring stand so.
fn write_lines<W: Sink>(
    alloc: Global,
    keyring: &Keyring,
    basis: Basis,
    values: bool,
    states: &KeyringStates,
    writer: &mut W,
) -> Result<(), RunFault>
    requires { W.has_failed writer.old ≡ false }
    ensures { IsMade W.held W.has_failed writer.old writer.new result
        (Made.Text (lines_from basis values 0 keyring.now.certificates
        (states_in states.now) (causes_in states.now))) }
{
    let text = StatesText {
        basis,
        values,
        keyring,
        states,
    };
    end(write(alloc, text, writer))
}
