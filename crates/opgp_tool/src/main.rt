//! Reads OpenPGP keyrings from standard input, and lists or writes them on standard output.
#![tactic(auto)]

ghost use Rattle.std.specs.Prelude.{◌≡◌, IfOk, false};
ghost use Rattle.opgp_io.specs.Watch.{watched_failed};
ghost use Rattle.opgp_tool.specs.Progress.{read_of};

mod advising;
mod beginning;
mod difference;
mod document;
mod ending;
mod foreign;
mod hint;
pub mod laws;
mod progress;
mod split;
mod spool_file;
mod states;
mod task;
mod write;

use advising::hint_of;
use difference::DifferenceTask;
use document::{DocumentAction, DocumentTask};
use ending::end_of;
use foreign::foreign_kind;
use hint::Hint;
use opgp_keyring::Keyring;
use opgp_octets::{Limits, write_hexadecimal};
use opgp_stack::{
    Action, Answer, Around, BoundTask, CleartextPart, EngineError, KeyName, Mode, NoSpool, Out,
    RunFault, Source, StateTask, Task as InputTask, Watched, keys_in, read_keyring, read_octets,
    read_signatures, run_around, run_bound, run_canonical, run_cleartext, run_difference,
    run_digests, run_last, run_signatures, run_spooled, run_states,
};
use progress::Progress;
use split::{SplitAction, SplitTask};
use spool_file::{beside_streams, open_spool};
use states::StatesTask;
use std::fs::File;
use std::io::{IsTerminal, Stderr, Stdin, Write};
use std::process::ExitCode;
use std::{env, io, mem};
use task::{Beside, Hints, NAME, Task, Usage, request_of};
use write::WriteTask;

/// The exit status of an invalid command line.
const USAGE: u8 = 2;

/// The most octets of a file of names of keys, which is kept in memory.
const MOST_KEYS: u64 = 67_108_864;

/// The most octets of a file of verdicts, which is kept in memory.
const MOST_VERDICTS: u64 = 1_073_741_824;

/// The exit status where reading, writing, memory or the spool failed.
const FAILED: u8 = 3;

fn main(rt: HostRuntime) -> ExitCode {
    let status = match env::args(&rt) {
        Ok(words) => match words.collect::<Vec<String>>(rt.alloc()) {
            Ok(words) => run_words(&rt, &words),
            Err(_) => end(&rt, &Err(RunFault::Memory)),
        },
        Err(error) if error.kind() == io::ErrorKind::OutOfMemory => {
            end(&rt, &Err(RunFault::Memory))
        }
        // An argument isn't UTF-8.
        Err(_) => {
            let _ = eprintln!(rt; "opgp: usage");
            USAGE
        }
    };
    ExitCode::from(status)
}

/// Runs what a command line asks for.
fn run_words(rt: &HostRuntime, words: &[String]) -> u8 {
    match request_of(rt.alloc(), words) {
        Ok(request) => run_request(rt, &request.beside, &request.task),
        Err(Usage::Text(text)) => {
            let _ = eprint!(rt; "{text}");
            USAGE
        }
        Err(Usage::Memory) => end(rt, &Err(RunFault::Memory)),
    }
}

/// Runs a task, with what is asked beside it.
fn run_request(rt: &HostRuntime, beside: &Beside, task: &Task) -> u8 {
    match task {
        Task::Input(task) => run_task(rt, beside, task),
        Task::Document(task) => run_document(rt, beside, task),
        Task::States(states) => list_states(rt, beside, states),
        Task::Difference(task) => list_difference(rt, beside, task),
        Task::Write(task) => run_write(rt, beside, task),
        Task::Split(task) => run_split(rt, beside, task),
    }
}

/// Standard input, whose count is shown if that is asked for.
fn input(rt: &HostRuntime, beside: &Beside) -> Progress<Watched<Stdin>, Stderr>
    ensures { watched_failed (read_of result) ≡ false }
{
    let shown = if beside.progress {
        Some(rt.stderr())
    } else {
        None
    };
    Progress::new(rt.alloc(), Watched::new(rt.stdin()), shown)
}

/// Runs a task, from standard input to standard output.
fn run_task(rt: &HostRuntime, beside: &Beside, task: &InputTask) -> u8 {
    let mut reader = input(rt, beside);
    let mut writer = Watched::new(rt.stdout());
    let outcome = match beside.spool {
        None => run_last(rt.alloc(), task, &mut reader, &mut writer),
        Some(dir) => match open_spool(rt.alloc(), rt, dir) {
            Ok(spool) => run_spooled(rt.alloc(), task, spool, &mut reader, &mut writer),
            Err(fault) => Err(fault),
        },
    };
    reader.end();
    let status = finish(rt, beside, task.mode, &outcome, &reader);
    if status != FAILED {
        if let (Action::SplitKeys { keys, .. }, Err(RunFault::NoSuchKey(number))) = (
            task.action,
            outcome,
        ) {
            name_missing(rt, beside, keys.get(number));
        }
    }
    status
}

/// Whether a line for people follows a fault.
fn shows_hints(rt: &HostRuntime, beside: &Beside) -> bool {
    beside.hints.shows(rt.stderr().is_terminal(), false)
}

/// Says which key no certificate has.
fn name_missing(rt: &HostRuntime, beside: &Beside, key: Option<&KeyName>) {
    let octets = match key {
        Some(key) => key.octets(),
        None => return,
    };
    if shows_hints(rt, beside) && octets.len() <= 32 {
        let mut room = [0; 64];
        let digits = write_hexadecimal(octets, &mut room[..2 * octets.len()]);
        let _ = eprintln!(rt; "opgp: no certificate has the key {digits}");
    }
}

/// Writes the keyring on standard input, or parts of it.
fn run_write(rt: &HostRuntime, beside: &Beside, write: &WriteTask) -> u8 {
    let file = match write.verdicts {
        Some(file) => file,
        None => return run_task(rt, beside, &write.task()),
    };
    match octets_beside(rt, beside, file, &write.limits) {
        Ok(octets) => write_bound(rt, beside, &write.bound_task(), &octets),
        Err(status) => status,
    }
}

/// Writes what is bound of the keyring on standard input by the verdicts of this file.
fn write_bound(rt: &HostRuntime, beside: &Beside, task: &BoundTask, file: &[u8]) -> u8 {
    let mut reader = input(rt, beside);
    let mut writer = Watched::new(rt.stdout());
    let outcome = run_bound(rt.alloc(), task, file, &mut reader, &mut writer);
    reader.end();
    finish(rt, beside, task.mode, &outcome, &reader)
}

/// Writes some of the certificates on standard input.
fn run_split(rt: &HostRuntime, beside: &Beside, split: &SplitTask) -> u8 {
    match &split.action {
        SplitAction::Number { out, nth } => {
            let action = Action::Split {
                out: *out,
                nth: *nth,
            };
            run_action(rt, beside, split, action)
        }
        SplitAction::Keys {
            out,
            keys,
            file,
            except,
        } => match file {
            Some(file) => split_by_file(rt, beside, split, *out, keys, file, *except),
            None => split_by_keys(rt, beside, split, *out, keys, *except),
        },
    }
}

/// Runs an action on the certificates on standard input.
fn run_action(rt: &HostRuntime, beside: &Beside, split: &SplitTask, action: Action) -> u8 {
    let task = InputTask {
        mode: split.mode,
        limits: split.limits,
        action,
    };
    run_task(rt, beside, &task)
}

/// Writes the certificates on standard input that have one of these keys, or all but those.
fn split_by_keys(
    rt: &HostRuntime,
    beside: &Beside,
    split: &SplitTask,
    out: Out,
    keys: &[KeyName],
    except: bool,
) -> u8 {
    run_action(rt, beside, split, Action::SplitKeys { out, keys, except })
}

/// The same, with the keys that a file names too.
fn split_by_file(
    rt: &HostRuntime,
    beside: &Beside,
    split: &SplitTask,
    out: Out,
    keys: &[KeyName],
    file: &str,
    except: bool,
) -> u8 {
    if is_input(file) {
        let _ = eprintln!(rt; "opgp: standard input is the keyring; the keys are in a file");
        return USAGE;
    }
    let mut source = match open_beside(rt, file) {
        Ok(source) => source,
        Err(_) => return unopened(rt, beside, file),
    };
    let octets = match read_octets(rt.alloc(), &mut source, &within(split.limits, MOST_KEYS)) {
        Ok(octets) => octets,
        Err(error) => {
            let outcome = Err(RunFault::from(error));
            return finish_beside(rt, beside, &outcome, file, MOST_KEYS);
        }
    };
    let mut all = match keys_in(rt.alloc(), &octets) {
        Ok(Ok(all)) => all,
        Ok(Err(line)) => {
            say_of_line(rt, file, line);
            return USAGE;
        }
        Err(_) => return end(rt, &Err(RunFault::Memory)),
    };
    if all.is_empty() {
        say_of(rt, "", file, " names no key");
        return USAGE;
    }
    match all.extend_from_slice(keys) {
        Ok(()) => split_by_keys(rt, beside, split, out, &all, except),
        Err(_) => end(rt, &Err(RunFault::Memory)),
    }
}

/// Makes what is asked of detached signatures and their document, to standard output.
fn run_document(rt: &HostRuntime, beside: &Beside, task: &DocumentTask) -> u8 {
    match task.action {
        DocumentAction::Signatures => list_signatures(rt, beside, task),
        DocumentAction::Digests(file) => list_digests(rt, beside, task, file),
        DocumentAction::Around(file, row, part) => {
            write_around(rt, beside, task, file, row, part)
        }
        DocumentAction::Canonical => write_canonical(rt, beside, task),
        DocumentAction::Cleartext(part) => write_cleartext(rt, beside, task, part),
    }
}

/// Lists the signatures on standard input.
fn list_signatures(rt: &HostRuntime, beside: &Beside, task: &DocumentTask) -> u8 {
    let mut reader = input(rt, beside);
    let mut writer = Watched::new(rt.stdout());
    let outcome = run_signatures(
        rt.alloc(),
        task.mode,
        &task.limits,
        &mut reader,
        &mut writer,
    );
    reader.end();
    finish(rt, beside, task.mode, &outcome, &reader)
}

/// Lists the signatures in a file, over the document on standard input.
fn list_digests(rt: &HostRuntime, beside: &Beside, task: &DocumentTask, file: &str) -> u8 {
    if is_input(file) {
        let _ = eprintln!(rt; "opgp: standard input is the document; the signatures are in a file");
        return USAGE;
    }
    let mut source = match open_beside(rt, file) {
        Ok(source) => source,
        Err(_) => return unopened(rt, beside, file),
    };
    let signatures = match read_signatures(rt.alloc(), &mut source, task.mode, &task.limits) {
        Ok(signatures) => signatures,
        Err(error) => {
            let outcome = Err(RunFault::from(error));
            return finish(rt, beside, task.mode, &outcome, &source);
        }
    };
    let mut reader = input(rt, beside);
    let mut writer = Watched::new(rt.stdout());
    let outcome = run_digests(
        rt.alloc(),
        &task.limits,
        &signatures,
        &mut reader,
        &mut writer,
    );
    reader.end();
    finish_document(rt, beside, task.mode, &outcome, &reader)
}

/// Writes what the signature of this number in a file hashes around its document.
fn write_around(
    rt: &HostRuntime,
    beside: &Beside,
    task: &DocumentTask,
    file: &str,
    row: u64,
    part: Around,
) -> u8 {
    let mut source = match open_beside(rt, file) {
        Ok(source) => source,
        Err(_) => return unopened(rt, beside, file),
    };
    let mut writer = Watched::new(rt.stdout());
    let outcome = run_around(
        rt.alloc(),
        task.mode,
        &task.limits,
        row,
        part,
        &mut source,
        &mut writer,
    );
    finish(rt, beside, task.mode, &outcome, &source)
}

/// Writes the canonical text of the document on standard input.
fn write_canonical(rt: &HostRuntime, beside: &Beside, task: &DocumentTask) -> u8 {
    let mut reader = input(rt, beside);
    let mut writer = Watched::new(rt.stdout());
    let limits = &task.limits;
    let outcome = match beside.spool {
        None => run_canonical(
            rt.alloc(),
            limits,
            None::<NoSpool>,
            &mut reader,
            &mut writer,
        ),
        Some(dir) => match open_spool(rt.alloc(), rt, dir) {
            Ok(spool) => run_canonical(rt.alloc(), limits, Some(spool), &mut reader, &mut writer),
            Err(fault) => Err(fault),
        },
    };
    reader.end();
    finish_document(rt, beside, task.mode, &outcome, &reader)
}

/// Writes a part of the cleartext message on standard input.
fn write_cleartext(
    rt: &HostRuntime,
    beside: &Beside,
    task: &DocumentTask,
    part: CleartextPart,
) -> u8 {
    let mut reader = input(rt, beside);
    let mut writer = Watched::new(rt.stdout());
    let outcome = run_cleartext(rt.alloc(), &task.limits, part, &mut reader, &mut writer);
    reader.end();
    finish(rt, beside, Mode::Armor, &outcome, &reader)
}

/// Lists how the parts of the keyring on standard input stand.
fn list_states(rt: &HostRuntime, beside: &Beside, states: &StatesTask) -> u8 {
    let file = match states.verdicts {
        Some(file) => file,
        None => return list_states_by(rt, beside, &states.task, None),
    };
    let task = &states.task;
    match octets_beside(rt, beside, file, &task.limits) {
        Ok(octets) => list_states_by(rt, beside, task, Some(&octets)),
        Err(status) => status,
    }
}

/// The octets of a file of verdicts on the keyring on standard input; or the exit status, once it
/// is said why there are none.
fn octets_beside(
    rt: &HostRuntime,
    beside: &Beside,
    file: &str,
    limits: &Limits,
) -> Result<Vec<u8>, u8> {
    if is_input(file) {
        let _ = eprintln!(rt; "opgp: standard input is the keyring; the verdicts are in a file");
        return Err(USAGE);
    }
    let mut source = match open_beside(rt, file) {
        Ok(source) => source,
        Err(_) => return Err(unopened(rt, beside, file)),
    };
    match read_octets(rt.alloc(), &mut source, &within(*limits, MOST_VERDICTS)) {
        Ok(octets) => Ok(octets),
        Err(error) => {
            let outcome = Err(RunFault::from(error));
            Err(finish_beside(rt, beside, &outcome, file, MOST_VERDICTS))
        }
    }
}

/// Lists how the parts of the keyring on standard input stand, by the verdicts of this file.
fn list_states_by(rt: &HostRuntime, beside: &Beside, task: &StateTask, file: Option<&[u8]>) -> u8 {
    let mut reader = input(rt, beside);
    let mut writer = Watched::new(rt.stdout());
    let outcome = run_states(rt.alloc(), task, file, &mut reader, &mut writer);
    reader.end();
    finish(rt, beside, task.mode, &outcome, &reader)
}

/// Lists what changed from the keyring in a file to the one on standard input.
fn list_difference(rt: &HostRuntime, beside: &Beside, task: &DifferenceTask) -> u8 {
    let file = task.old;
    if is_input(file) {
        let _ = eprintln!(rt; "opgp: standard input is the new keyring; the old one is in a file");
        return USAGE;
    }
    let mut source = match open_beside(rt, file) {
        Ok(source) => source,
        Err(_) => return unopened(rt, beside, file),
    };
    let outcome = match read_keyring(rt.alloc(), &mut source, task.mode, &task.limits) {
        Ok(Answer::Ring(old)) => return list_difference_from(rt, beside, task, old),
        Ok(Answer::Refused(fault)) => Err(RunFault::Refused(fault)),
        Err(error) => Err(fault_of(error)),
    };
    let status = finish(rt, beside, task.mode, &outcome, &source);
    if shows_hints(rt, beside) {
        say_of(rt, "this is of the old keyring, ", file, "");
    }
    status
}

/// The fault of a run that fails to read.
fn fault_of(error: EngineError) -> RunFault {
    match error {
        EngineError::Read => RunFault::Read,
        EngineError::Write => RunFault::Write,
        EngineError::Memory => RunFault::Memory,
    }
}

/// Lists what changed from this keyring to the one on standard input. The end of the process frees
/// this one.
fn list_difference_from(
    rt: &HostRuntime,
    beside: &Beside,
    task: &DifferenceTask,
    old: Keyring,
) -> u8 {
    let mut reader = input(rt, beside);
    let mut writer = Watched::new(rt.stdout());
    let outcome = run_difference(
        rt.alloc(),
        &old,
        task.mode,
        &task.limits,
        &mut reader,
        &mut writer,
    );
    mem::forget(old);
    reader.end();
    finish(rt, beside, task.mode, &outcome, &reader)
}

/// Whether a file's name stands for standard input.
fn is_input(file: &str) -> bool {
    matches!(file, "-" | "/dev/stdin" | "/dev/fd/0" | "/proc/self/fd/0")
}

/// Opens a file that is read beside standard input, beside the standard streams.
fn open_beside(rt: &HostRuntime, file: &str) -> io::Result<Progress<Watched<File>, Stderr>>
    ensures { IfOk result (λ reader. watched_failed (read_of reader) ≡ false) }
{
    let file = beside_streams(File::open(rt, file)?)?;
    Ok(Progress::new(rt.alloc(), Watched::new(file), None))
}

/// Says that a file can't be opened.
fn unopened(rt: &HostRuntime, beside: &Beside, file: &str) -> u8 {
    let status = end(rt, &Err(RunFault::Read));
    if shows_hints(rt, beside) {
        say_of(rt, "", file, " can't be opened");
    }
    status
}

/// Whether a name is printable ASCII. Another one is shown with its controls escaped, so that it
/// can't steer a terminal.
fn is_plain(name: &str) -> bool {
    name.bytes().all(|octet| 32 <= octet && octet <= 126)
}

/// Says this of a file.
fn say_of(rt: &HostRuntime, front: &str, file: &str, behind: &str) {
    let _ = if is_plain(file) {
        eprintln!(rt; "opgp: {front}{file}{behind}")
    } else {
        eprintln!(rt; "opgp: {front}{file:?}{behind}")
    };
}

/// Says that a line of a file is no name of a key.
fn say_of_line(rt: &HostRuntime, file: &str, line: u64) {
    let _ = if is_plain(file) {
        eprintln!(rt; "opgp: {file}, line {line}: {NAME}")
    } else {
        eprintln!(rt; "opgp: {file:?}, line {line}: {NAME}")
    };
}

/// Says how much of a file is read at most.
fn say_of_most(rt: &HostRuntime, file: &str, most: u64) {
    let _ = if is_plain(file) {
        eprintln!(rt; "opgp: of {file} at most {most} octets are read")
    } else {
        eprintln!(rt; "opgp: of {file:?} at most {most} octets are read")
    };
}

/// The limits of a file that is kept in memory: its octets are so many at most.
fn within(limits: Limits, most: u64) -> Limits {
    let input = limits.input().min(most);
    match Limits::new(
        limits.line(),
        limits.body(),
        limits.cert(),
        input,
        limits.pieces(),
    ) {
        Some(limits) => limits,
        None => limits,
    }
}

/// Prints the last lines of a run that read a file beside standard input, of which it reads so many
/// octets at most.
fn finish_beside(
    rt: &HostRuntime,
    beside: &Beside,
    outcome: &Result<(), RunFault>,
    file: &str,
    most: u64,
) -> u8 {
    let status = end(rt, outcome);
    if shows_hints(rt, beside) && status != FAILED {
        say_of_most(rt, file, most);
    }
    status
}

/// Prints the last lines of a run that read this.
fn finish<R: Source, W: Write + Drop>(
    rt: &HostRuntime,
    beside: &Beside,
    mode: Mode,
    outcome: &Result<(), RunFault>,
    reader: &Progress<R, W>,
) -> u8 {
    let status = end(rt, outcome);
    if status != FAILED && !matches!(beside.hints, Hints::Never) {
        let beginning = reader.beginning();
        let hint = hint_of(
            mode,
            outcome,
            beginning,
            foreign_kind(rt.alloc(), mode, outcome, beginning),
            reader.octets(),
            reader.skipped(),
        );
        explain(rt, beside, hint);
    }
    status
}

/// Prints the last lines of a run that read this document. Where it succeeds nothing is told of the
/// document: an empty one is one, too.
fn finish_document<R: Source, W: Write + Drop>(
    rt: &HostRuntime,
    beside: &Beside,
    mode: Mode,
    outcome: &Result<(), RunFault>,
    document: &Progress<R, W>,
) -> u8 {
    match outcome {
        Ok(()) => end(rt, outcome),
        Err(_) => finish(rt, beside, mode, outcome, document),
    }
}

/// Prints what is told of the input beside the fault, if there is something to tell.
fn explain(rt: &HostRuntime, beside: &Beside, hint: Option<Hint>) {
    if let Some(hint) = hint {
        if beside
            .hints
            .shows(rt.stderr().is_terminal(), hint.is_loss())
        {
            let _ = eprintln!(rt; "{hint}");
        }
    }
}

/// Prints the last line of a run. A standard error that is closed or full changes no status.
fn end(rt: &HostRuntime, outcome: &Result<(), RunFault>) -> u8 {
    match end_of(rt.alloc(), outcome) {
        Ok((status, line)) => {
            let _ = eprint!(rt; "{line}");
            status
        }
        Err(_) => {
            let _ = eprintln!(rt; "opgp: out of memory");
            FAILED
        }
    }
}
