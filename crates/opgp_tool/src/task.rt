//! The task that a command line names.

ghost use Rattle.std.specs.Prelude.{◌≡◌, ◌⊎◌, ℕ, Option, IfSome, IfNone, IfOk, IfErr, [], true};
ghost use Rattle.std.specs.Prelude.{codes, map, option_map};
ghost use Rattle.clap.specs.Words.{App, fault_of, first_of, found_of, kind_of, rows_of};
ghost use Rattle.clap.specs.declared.error.kind.ErrorKind.TheVariants.{OutOfMemory};
ghost use Rattle.opgp_stack.specs.declared.task.Action.{Action};
ghost use Rattle.opgp_stack.specs.declared.task.Task.{Task as InputTask};
ghost use Rattle.opgp_octets.specs.declared.limits.Limits.{Limits};
ghost use Rattle.opgp_tool.specs.Words.{mode_of, outside_of, malformed_of, out_of, top_of};
ghost use Rattle.opgp_tool.specs.Words.{is_given, HasNumber, HasLimits, IsAction};
ghost use Rattle.opgp_tool.specs.Words.{DocumentWork, IsDocument, IsGivenNumber, IsRequest, IsTask};
ghost use Rattle.opgp_tool.specs.Words.{AskedWork, IsBeside, IsWork, asked_by, beside_said};
ghost use Rattle.opgp_tool.specs.Words.{document_said, hints_of, is_other, nothing_asked, shows};
ghost use Rattle.opgp_tool.specs.Words.{work_said};
ghost use Rattle.opgp_codec.specs.declared.mode.Mode.{Mode};
ghost use Rattle.opgp_tool.specs.Saying.{SaysBeside, SaysNone, SaysRequest, SaysTask};
ghost use Rattle.opgp_words.specs.Program.{IsProgram};
ghost use Rattle.opgp_tool.specs.declared.task.Usage.TheVariants.{Memory};

use crate::difference::{DifferenceTask, difference_from};
use crate::document::{DocumentTask, document_action_of};
use crate::split::{SplitTask, split_from};
use crate::states::{StatesTask, states_from};
use crate::write::{WriteTask, write_from};
use clap::error::ErrorKind;
use clap::{ArgMatches, Error};
use opgp_octets::{Limits, Malformed, OutOfMemory, Outside};
use opgp_stack::{Action, KeyName, Mode, Out, Task as InputTask, Top};
use opgp_words::program;
use std::alloc::{AllocError, Global};
use std::convert::AsStr;

/// What the name of a key is.
pub const NAME: &str = "a fingerprint has 40 or 64 hexadecimal digits, a key ID 16";

/// What a time is.
const TIME: &str = "a time is a number of seconds since 1970, or a UTC date until 2106, as \
2026-11-20 or 2026-11-20T08:30:00Z";

/// What a command line asks for: its task, and what else.
#[derive(Drop)]
pub(crate) struct Request<'a> {
    /// What is to be made.
    pub(crate) task: Task<'a>,
    /// What is asked beside it.
    pub(crate) beside: Beside<'a>,
}

/// What a command line asks for beside its task.
#[derive(Clone, Copy, Debug)]
pub struct Beside<'a> {
    /// Whether standard error shows how much was read.
    pub progress: bool,
    /// When a line for people is written.
    pub hints: Hints,
    /// The directory of the file in which the output is held; None: it is held in memory.
    pub spool: Option<&'a str>,
}

impl Beside<'_> {
    /// Nothing is asked: what was read isn't shown, lines for people are written where standard
    /// error is a terminal, and the output is held in memory.
    pub fn nothing() -> Self
        ensures { beside_said result ≡ nothing_asked }
    {
        Beside {
            progress: false,
            hints: Hints::Auto,
            spool: None,
        }
    }
}

/// When standard error says what a refused input seems to be, and what to do.
#[derive(Clone, Copy, Debug)]
pub enum Hints {
    /// Where it is a terminal; and where something was lost.
    Auto,
    /// Always.
    Always,
    /// Never: it says no more than the fault.
    Never,
}

impl Hints {
    /// Whether it does, if this says whether it is a terminal, and whether something was lost.
    pub fn shows(self, is_terminal: bool, is_loss: bool) -> bool
        ensures { result ≡ shows self is_terminal is_loss }
    {
        match self {
            Hints::Auto => is_terminal || is_loss,
            Hints::Always => true,
            Hints::Never => false,
        }
    }
}

/// What is to be made, and of what.
#[derive(Drop)]
pub enum Task<'a> {
    /// What is made of standard input: of packets, a keyring or a signed literal.
    Input(InputTask<'a>),
    /// What is made of detached signatures and their document.
    Document(DocumentTask<'a>),
    /// How the parts of a keyring stand.
    States(StatesTask<'a>),
    /// What changed between two keyrings.
    Difference(DifferenceTask<'a>),
    /// Which parts of the certificates on standard input are written.
    Write(WriteTask<'a>),
    /// Which of the certificates on standard input are written.
    Split(SplitTask<'a>),
}

/// Why a command line names no task.
#[derive(Drop)]
pub enum Usage {
    /// It is invalid, or help was asked for: the text to print.
    Text(String),
    /// Out of memory.
    Memory,
}

/// The value of an option, or None if it has none.
pub(crate) fn word_of<'a>(matches: &ArgMatches<'a>, id: &str) -> Option<&'a str>
    ensures { option_map (λ word. word.now) result
        ≡ first_of id.now (rows_of (found_of matches.now)) }
{
    matches.get_str(id)
}

pub(crate) fn mode_of(matches: &ArgMatches) -> Mode
    ensures { result ≡ mode_of (first_of (codes "mode") (rows_of (found_of matches.now))) }
{
    match word_of(matches, "mode") {
        Some("armor") => Mode::Armor,
        Some("binary") => Mode::Binary,
        _ => Mode::Auto,
    }
}

fn outside_of(matches: &ArgMatches) -> Outside
    ensures { result ≡ outside_of (first_of (codes "outside") (rows_of (found_of matches.now))) }
{
    match word_of(matches, "outside") {
        Some("refuse") => Outside::Refuse,
        _ => Outside::Skip,
    }
}

fn malformed_of(matches: &ArgMatches) -> Malformed
    ensures { result
        ≡ malformed_of (first_of (codes "malformed") (rows_of (found_of matches.now))) }
{
    match word_of(matches, "malformed") {
        Some("keep") => Malformed::Keep,
        _ => Malformed::Refuse,
    }
}

pub(crate) fn out_of(matches: &ArgMatches) -> Out
    ensures { result ≡ out_of (first_of (codes "out") (rows_of (found_of matches.now))) }
{
    match word_of(matches, "out") {
        Some("binary") => Out::Binary,
        _ => Out::Armor,
    }
}

fn top_of(matches: &ArgMatches) -> Top
    ensures { result ≡ top_of (first_of (codes "of") (rows_of (found_of matches.now))) }
{
    match word_of(matches, "of") {
        Some("literal") => Top::Literal,
        _ => Top::Ring,
    }
}

/// The number that is an option's value, or None if it has none.
fn number_of(matches: &ArgMatches, id: &str) -> Option<u64>
    ensures some { IfSome result (HasNumber (rows_of (found_of matches.now)) id.now) }
    ensures none { IfNone result
        ((n : ℕ) → HasNumber (rows_of (found_of matches.now)) id.now n → ⊥) }
{
    matches.get_one::<u64>(id)
}

/// The number that is an option's value, if it is given. The outer None means that its value isn't
/// a number.
pub(crate) fn given_number_of(matches: &ArgMatches, option: &str) -> Option<Option<u64>>
    ensures some { IfSome result (IsGivenNumber (rows_of (found_of matches.now)) option.now) }
    ensures none { IfNone result ((given : Option ℕ)
        → IsGivenNumber (rows_of (found_of matches.now)) option.now given → ⊥) }
{
    match word_of(matches, option) {
        None => Some(None),
        Some(_) => Some(Some(number_of(matches, option)?)),
    }
}

/// Whether a flag is given.
pub(crate) fn is_given(matches: &ArgMatches, id: &str) -> bool
    ensures { result ≡ is_given (first_of id.now (rows_of (found_of matches.now))) }
{
    match word_of(matches, id) {
        Some("true") => true,
        _ => false,
    }
}

pub(crate) fn limits_of(matches: &ArgMatches) -> Option<Limits>
    ensures some { IfSome result (HasLimits (rows_of (found_of matches.now))) }
    ensures none { IfNone result ((limits : Limits)
        → HasLimits (rows_of (found_of matches.now)) limits → ⊥) }
{
    let line = number_of(matches, "line")?;
    let body = number_of(matches, "body")?;
    let cert = number_of(matches, "cert")?;
    let input = number_of(matches, "input")?;
    let pieces = number_of(matches, "pieces")?;
    let limits = Limits::new(line, body, cert, input, pieces)?;
    let limits = limits.with_outside(outside_of(matches));
    Some(limits.with_malformed(malformed_of(matches)))
}

/// What `octets` writes: the octets of one row, or a line for each field of them, or the octets of
/// all rows of a keyring.
fn octets_of<'a>(matches: &ArgMatches) -> Option<Action<'a>>
    ensures some { IfSome result (IsAction (codes "octets") (rows_of (found_of matches.now))) }
    ensures none { IfNone result ((action : Action)
        → IsAction (codes "octets") (rows_of (found_of matches.now)) action → ⊥) }
{
    let top = top_of(matches);
    if !is_given(matches, "all") {
        let row = number_of(matches, "row")?;
        return Some(if is_given(matches, "explain") {
            Action::Explain { row, top }
        } else {
            Action::Octets { row, top }
        });
    }
    if word_of(matches, "row").is_some() || is_given(matches, "explain") {
        return None;
    }
    match top {
        Top::Ring => Some(Action::OctetsAll),
        Top::Literal => None,
    }
}

/// What `check` writes: its lines as they are, or with fingerprints, or with places.
fn check_of<'a>(matches: &ArgMatches) -> Option<Action<'a>>
    ensures some { IfSome result (IsAction (codes "check") (rows_of (found_of matches.now))) }
    ensures none { IfNone result ((action : Action)
        → IsAction (codes "check") (rows_of (found_of matches.now)) action → ⊥) }
{
    if is_given(matches, "fingerprints") {
        if is_given(matches, "places") {
            return None;
        }
        return Some(Action::CheckFingerprints);
    }
    if is_given(matches, "places") {
        return Some(Action::CheckPlaces);
    }
    Some(Action::Check)
}

fn action_of<'a>(name: &str, matches: &ArgMatches) -> Option<Action<'a>>
    ensures some { IfSome result (IsAction name.now (rows_of (found_of matches.now))) }
    ensures none { IfNone result ((action : Action)
        → IsAction name.now (rows_of (found_of matches.now)) action → ⊥) }
{
    match name {
        "show" => Some(if is_given(matches, "values") {
            Action::ShowValues
        } else {
            Action::Show
        }),
        "list" => Some(if is_given(matches, "values") {
            Action::ListValues
        } else {
            Action::List
        }),
        "check" => check_of(matches),
        "octets" => octets_of(matches),
        "normalise" => Some(Action::Normalise {
            out: out_of(matches),
        }),
        "join" => Some(Action::Join {
            out: out_of(matches),
            merge: is_given(matches, "merge"),
        }),
        _ => None,
    }
}

/// The task of a command of this name with these options.
fn task_from<'a>(name: &str, matches: &ArgMatches) -> Option<InputTask<'a>>
    ensures some { IfSome result (IsTask name.now (rows_of (found_of matches.now))) }
    ensures none { IfNone result ((task : InputTask)
        → IsTask name.now (rows_of (found_of matches.now)) task → ⊥) }
{
    let limits = limits_of(matches)?;
    let action = action_of(name, matches)?;
    Some(InputTask {
        mode: mode_of(matches),
        limits,
        action,
    })
}

/// What the command of this name with these options makes of signatures and their document.
fn document_from<'a>(name: &str, matches: &ArgMatches<'a>) -> Option<DocumentTask<'a>>
    ensures some { IfSome result (λ task. IsDocument name.now (rows_of (found_of matches.now))
        task.mode task.limits (document_said task.action)) }
    ensures none { IfNone result ((mode : Mode) (limits : Limits) (work : DocumentWork)
        → IsDocument name.now (rows_of (found_of matches.now)) mode limits work → ⊥) }
{
    let limits = limits_of(matches)?;
    let action = document_action_of(name, matches)?;
    Some(DocumentTask {
        mode: mode_of(matches),
        limits,
        action,
    })
}

/// What the command of this name with these options makes, if it is neither `write` nor `split`.
fn other_from<'a>(name: &str, matches: &ArgMatches<'a>) -> Option<Task<'a>>
    ensures some { IfSome result (λ task.
        IsWork name.now (rows_of (found_of matches.now)) (work_said task)) }
    ensures none { IfNone result ((work : AskedWork) → is_other work ≡ true
        → IsWork name.now (rows_of (found_of matches.now)) work → ⊥) }
{
    match document_from(name, matches) {
        Some(task) => Some(Task::Document(task)),
        None => match states_from(name, matches) {
            Some(states) => Some(Task::States(states)),
            None => match difference_from(name, matches) {
                Some(task) => Some(Task::Difference(task)),
                None => Some(Task::Input(task_from(name, matches)?)),
            },
        },
    }
}

/// What the command of this name with these options makes. Fails only when out of memory.
fn work_from<'a>(
    alloc: Global,
    name: &str,
    matches: &ArgMatches<'a>,
) -> Result<Option<Task<'a>>, OutOfMemory>
    ensures some { IfOk result (λ found. IfSome found (λ task.
        IsWork name.now (rows_of (found_of matches.now)) (work_said task))) }
    ensures none { IfOk result (λ found. IfNone found ((work : AskedWork)
        → IsWork name.now (rows_of (found_of matches.now)) work → ⊥)) }
{
    match name {
        "write" => match write_from(alloc, matches)? {
            Some(task) => Ok(Some(Task::Write(task))),
            None => Ok(None),
        },
        "split" => match split_from(alloc, matches)? {
            Some(task) => Ok(Some(Task::Split(task))),
            None => Ok(None),
        },
        _ => Ok(other_from(name, matches)),
    }
}

/// When a line for people is written.
fn hints_of(matches: &ArgMatches) -> Hints
    ensures { result
        ≡ hints_of (is_given (first_of (codes "quiet") (rows_of (found_of matches.now))))
        (first_of (codes "hints") (rows_of (found_of matches.now))) }
{
    if is_given(matches, "quiet") {
        return Hints::Never;
    }
    match word_of(matches, "hints") {
        Some("always") => Hints::Always,
        Some("never") => Hints::Never,
        _ => Hints::Auto,
    }
}

/// What a command with these options asks for beside its task.
fn beside_from<'a>(matches: &ArgMatches<'a>) -> Beside<'a>
    ensures { IsBeside (rows_of (found_of matches.now)) (beside_said result) }
{
    Beside {
        progress: is_given(matches, "progress"),
        hints: hints_of(matches),
        spool: word_of(matches, "spool"),
    }
}

/// What a command of this name with these options asks for. Fails only when out of memory.
fn request_from<'a>(
    alloc: Global,
    name: &str,
    matches: &ArgMatches<'a>,
) -> Result<Option<Request<'a>>, OutOfMemory>
    ensures some { IfOk result (λ found. IfSome found (λ request.
        IsRequest name.now (rows_of (found_of matches.now)) (asked_by request))) }
    ensures none { IfOk result (λ found. IfNone found ((work : AskedWork)
        → IsWork name.now (rows_of (found_of matches.now)) work → ⊥)) }
{
    match work_from(alloc, name, matches)? {
        Some(task) => Ok(Some(Request {
            task,
            beside: beside_from(matches),
        })),
        None => Ok(None),
    }
}

/// The text to print for an error of `clap`.
fn usage_of(alloc: Global, error: &Error) -> Usage
    ensures { kind_of error.now ≡ OutOfMemory → result ≡ Memory }
{
    if let ErrorKind::OutOfMemory = error.kind() {
        return Usage::Memory;
    }
    let mut text = match format!(in alloc; "{error}") {
        Ok(text) => text,
        Err(_) => return Usage::Memory,
    };
    if !is_about_a_file(&text) {
        return escaped(alloc, text);
    }
    match text.push_str("\nopgp reads standard input: opgp COMMAND < FILE\n") {
        Ok(()) => escaped(alloc, text),
        Err(_) => Usage::Memory,
    }
}

/// Whether a terminal shows a character as it is: printable ASCII, and line feeds.
fn is_shown(letter: char) -> bool {
    letter == '\n' || matches!(letter, ' '..='~')
}

/// A text, in which words of the command line may be, with other characters than printable ASCII
/// escaped, so that none of them steers a terminal.
fn escaped(alloc: Global, text: String) -> Usage {
    if text.chars().all(is_shown) {
        return Usage::Text(text);
    }
    let mut shown = String::new(alloc);
    for letter in text.chars() {
        let added = if is_shown(letter) {
            shown.push(letter)
        } else {
            shown.extend(letter.escape_debug())
        };
        if added.is_err() {
            return Usage::Memory;
        }
    }
    Usage::Text(shown)
}

/// Whether a text of `clap` refuses an argument that isn't an option, such as the name of a file.
fn is_about_a_file(text: &str) -> bool {
    text.starts_with("error: unexpected argument '")
        && !text.starts_with("error: unexpected argument '-")
}

/// What to print where `clap` accepts words that name no task.
fn no_task(alloc: Global, matches: &ArgMatches) -> Usage {
    match matches.subcommand() {
        Some(("check", _)) => no_check(alloc),
        Some(("octets", options)) => no_octets(alloc, options),
        Some(("digest", _)) => no_digest(alloc),
        Some(("state", options)) => no_states(alloc, options),
        Some(("write", options)) => no_write(alloc, options),
        Some(("split", options)) => no_split(alloc, options),
        _ => no_name(alloc),
    }
}

/// What to print where nothing better can be said.
fn no_name(alloc: Global) -> Usage {
    with_advice(alloc, String::from_str(alloc, "error: no task is named"))
}

/// What to print where the options of `check` name no task: `clap` doesn't judge options that
/// exclude each other.
fn no_check(alloc: Global) -> Usage {
    let text = "error: the argument '--places' cannot be used with '--fingerprints'";
    with_advice(alloc, String::from_str(alloc, text))
}

/// What to print where the options of `octets` name no task: `clap` doesn't judge options that
/// exclude each other, nor that one of two is wanted.
fn no_octets(alloc: Global, options: &ArgMatches) -> Usage {
    let text = if !is_given(options, "all") {
        "error: the following required arguments were not provided:\n  <--row <N>|--all>"
    } else if word_of(options, "row").is_some() {
        "error: the argument '--row <N>' cannot be used with '--all'"
    } else if is_given(options, "explain") {
        "error: the argument '--explain' cannot be used with '--all'"
    } else {
        "error: the argument '--of literal' cannot be used with '--all'"
    };
    with_advice(alloc, String::from_str(alloc, text))
}

/// What to print where the options of `digest` name no task: `clap` doesn't judge that an option
/// wants another.
fn no_digest(alloc: Global) -> Usage {
    let text = "error: the argument '--salt' wants '--octets <N>'";
    with_advice(alloc, String::from_str(alloc, text))
}

/// What to print where the options of `state` name no task: `clap` doesn't judge the text of
/// `--at`.
fn no_states(alloc: Global, options: &ArgMatches) -> Usage {
    match word_of(options, "at") {
        None => no_name(alloc),
        Some(at) => no_time(alloc, at),
    }
}

/// What to print where the options of `write` name no task: `clap` judges neither that one wants
/// another, nor that two exclude each other, nor the text of `--at`.
fn no_write(alloc: Global, options: &ArgMatches) -> Usage {
    let has_verdicts = word_of(options, "verdicts").is_some();
    let is_bound = is_given(options, "bound");
    let text = if is_bound && !has_verdicts {
        "error: the argument '--bound' wants '--verdicts <FILE>'"
    } else if has_verdicts && !is_bound {
        "error: the argument '--verdicts <FILE>' wants '--bound'"
    } else if is_bound && word_of(options, "user-id").is_some() {
        "error: the argument '--user-id <N>' cannot be used with '--bound'"
    } else {
        return no_newest(alloc, options);
    };
    with_advice(alloc, String::from_str(alloc, text))
}

/// The same where `--newest` or `--at` is why.
fn no_newest(alloc: Global, options: &ArgMatches) -> Usage {
    let text = match word_of(options, "at") {
        None => "error: the argument '--newest' wants '--at <TIME>'",
        Some(_) if !is_given(options, "newest") => {
            "error: the argument '--at <TIME>' wants '--newest'"
        }
        Some(_) if !is_given(options, "bound") => {
            "error: the argument '--newest' wants '--bound'"
        }
        Some(at) => return no_time(alloc, at),
    };
    with_advice(alloc, String::from_str(alloc, text))
}

/// What to print where the text of `--at` says no time.
fn no_time(alloc: Global, at: &str) -> Usage {
    with_advice(
        alloc,
        format!(in alloc; "error: invalid value '{at}' for '--at <TIME>': {TIME}"),
    )
}

/// What to print where the options of `split` name no task: `clap` judges neither the texts of
/// `--key`, nor options that exclude each other, nor that one wants another.
fn no_split(alloc: Global, options: &ArgMatches) -> Usage {
    let has_key = word_of(options, "key").is_some();
    let text = if !has_key && word_of(options, "keys").is_none() {
        "error: the argument '--except' wants '--key <KEY>' or '--keys <FILE>'"
    } else if word_of(options, "nth").is_none() {
        return no_key(alloc, options);
    } else if !has_key {
        "error: the argument '--nth <N>' cannot be used with '--keys <FILE>'"
    } else {
        "error: the argument '--nth <N>' cannot be used with '--key <KEY>'"
    };
    with_advice(alloc, String::from_str(alloc, text))
}

/// What to print where a text of `--key` names no key.
fn no_key(alloc: Global, options: &ArgMatches) -> Usage {
    if let Some(texts) = options.get_strs("key") {
        for text in texts {
            if KeyName::parse(text).is_none() {
                let line = format!(in alloc;
                    "error: invalid value '{text}' for '--key <KEY>': {NAME}"
                );
                return with_advice(alloc, line);
            }
        }
    }
    no_name(alloc)
}

/// The text, if there was memory for it, and where to read on.
fn with_advice(alloc: Global, text: Result<String, OutOfMemory>) -> Usage {
    let mut text = match text {
        Ok(text) => text,
        Err(_) => return Usage::Memory,
    };
    match text.push_str("\n\nFor more information, try '--help'.\n") {
        Ok(()) => escaped(alloc, text),
        Err(_) => Usage::Memory,
    }
}

/// The task that a command line names, whose first word is the program's own name.
///
/// The errors are the text of `clap`, also for help, and running out of memory.
pub fn task_of<'a, S: AsStr>(alloc: Global, words: &'a [S]) -> Result<Task<'a>, Usage>
    ensures said { IfOk result (λ task. (program : App) × IsProgram program
        × (fault_of program (map S.text words.entry.now) ≡ [])
        × SaysTask program (map S.text words.entry.now) (work_said task)) }
    ensures refused { IfErr result (λ usage. (usage ≡ Memory)
        ⊎ ((program : App) × IsProgram program
        × SaysNone program (map S.text words.entry.now))) }
{
    match request_of(alloc, words) {
        Ok(request) => Ok(request.task),
        Err(usage) => Err(usage),
    }
}

/// What a command line asks for beside its task, whose first word is the program's own name;
/// nothing, if it names no task. Fails only when out of memory.
pub fn beside_of<'a, S: AsStr>(alloc: Global, words: &'a [S]) -> Result<Beside<'a>, OutOfMemory>
    ensures { IfOk result (λ beside. (program : App) × IsProgram program
        × SaysBeside program (map S.text words.entry.now) (beside_said beside)) }
{
    match request_of(alloc, words) {
        Ok(request) => Ok(request.beside),
        Err(Usage::Text(_)) => Ok(Beside::nothing()),
        Err(Usage::Memory) => Err(AllocError),
    }
}

/// Both at once: the words are read once.
pub(crate) fn request_of<'a, S: AsStr>(alloc: Global, words: &'a [S]) -> Result<Request<'a>, Usage>
    ensures said { IfOk result (λ request. (program : App) × IsProgram program
        × (fault_of program (map S.text words.entry.now) ≡ [])
        × SaysRequest program (map S.text words.entry.now) (asked_by request)) }
    ensures refused { IfErr result (λ usage. (usage ≡ Memory)
        ⊎ ((program : App) × IsProgram program
        × SaysNone program (map S.text words.entry.now))) }
{
    let program = match program(alloc) {
        Ok(program) => program,
        Err(_) => return Err(Usage::Memory),
    };
    let matches = match program.try_get_matches_from(words) {
        Ok(matches) => matches,
        Err(error) => return Err(usage_of(alloc, &error)),
    };
    let request = match matches.subcommand() {
        Some((name, options)) => request_from(alloc, name, options),
        None => Ok(None),
    };
    match request {
        Ok(Some(request)) => Ok(request),
        Ok(None) => Err(no_task(alloc, &matches)),
        Err(_) => Err(Usage::Memory),
    }
}
