//! What the command `write` asks for.

ghost use Rattle.std.specs.Prelude.{◌≡◌, ℕ, List, IfNone, IfOk, IfSome, Option, codes, map};
ghost use Rattle.std.specs.Prelude.{option_map};
ghost use Rattle.std.specs.List.{AllZip};
ghost use Rattle.clap.specs.Words.{Text, found_of, rows_of};
ghost use Rattle.opgp_codec.specs.declared.mode.Mode.{Mode};
ghost use Rattle.opgp_octets.specs.declared.limits.Limits.{Limits};
ghost use Rattle.opgp_tool.specs.Words.{AreNewest, AreVerdicts, Chosen, HasNumbers, IsNumber};
ghost use Rattle.opgp_tool.specs.Words.{IsWrite, Writes, WritesBound, chosen_said};

use crate::task::{is_given, limits_of, mode_of, out_of, word_of};
use clap::ArgMatches;
use opgp_octets::{Limits, OutOfMemory};
use opgp_stack::{Action, BoundTask, Choice, Mode, Out, Task, time_in};
use std::alloc::Global;

/// Which parts of the certificates on standard input are written, and how.
#[derive(Drop)]
pub struct WriteTask<'a> {
    /// How the keyring is read.
    pub mode: Mode,
    /// The limits of what is read.
    pub limits: Limits,
    /// How it is written.
    pub out: Out,
    /// Whether only the signatures that name the primary key as their issuer stay.
    pub own_signatures: bool,
    /// Whether user attributes go.
    pub no_attributes: bool,
    /// The numbers of the user IDs that stay; none: all of them.
    pub user_ids: Vec<u64>,
    /// The name of the file of verdicts by which only bound parts stay; None: all of them.
    pub verdicts: Option<&'a str>,
    /// The time, in seconds since 1970, at which newer self-signatures replace others of what is
    /// bound; None: all of them stay.
    pub newest_at: Option<u64>,
}

impl WriteTask<'_> {
    /// The choice.
    fn choice(&self) -> Choice<'_>
        ensures own_signatures { result.own_signatures ≡ (chosen_said self.now).own_signatures }
        ensures no_attributes { result.no_attributes ≡ (chosen_said self.now).no_attributes }
        ensures user_ids { result.user_ids.now ≡ (chosen_said self.now).user_ids }
    {
        Choice {
            own_signatures: self.own_signatures,
            no_attributes: self.no_attributes,
            user_ids: self.user_ids.as_slice(),
        }
    }

    /// The task on the parts that are bound.
    pub fn bound_task(&self) -> BoundTask<'_>
        ensures mode { result.mode ≡ self.now.mode }
        ensures limits { result.limits ≡ self.now.limits }
        ensures parts { WritesBound (chosen_said self.now) result }
    {
        BoundTask {
            mode: self.mode,
            limits: self.limits,
            out: self.out,
            choice: self.choice(),
            newest_at: self.newest_at,
        }
    }

    /// The task on all parts, whether they are bound or not.
    pub fn task(&self) -> Task<'_>
        ensures mode { result.mode ≡ self.now.mode }
        ensures limits { result.limits ≡ self.now.limits }
        ensures action { Writes (chosen_said self.now) result.action }
    {
        let choice = self.choice();
        let out = self.out;
        let action = if choice.is_everything() {
            Action::Write { out }
        } else {
            Action::WriteChosen { out, choice }
        };
        Task {
            mode: self.mode,
            limits: self.limits,
            action,
        }
    }
}

/// The numbers that texts are, if each is one. Fails only when out of memory.
fn numbers_of(alloc: Global, texts: &[&str]) -> Result<Option<Vec<u64>>, OutOfMemory>
    ensures some { IfOk result (λ found. IfSome found (λ numbers.
        AllZip IsNumber (map (λ text. text.now) texts.now) numbers.items)) }
    ensures none { IfOk result (λ found. IfNone found ((numbers : List ℕ)
        → AllZip IsNumber (map (λ text. text.now) texts.now) numbers → ⊥)) }
{
    let mut numbers = Vec::new(alloc);
    for text in texts {
        match text.parse::<u64>() {
            Ok(number) => numbers.push(number)?,
            Err(_) => return Ok(None),
        }
    }
    Ok(Some(numbers))
}

/// The numbers that `--user-id` gives, if each of its texts is one. Fails only when out of memory.
fn user_ids_of(alloc: Global, matches: &ArgMatches) -> Result<Option<Vec<u64>>, OutOfMemory>
    ensures some { IfOk result (λ found. IfSome found (λ numbers.
        HasNumbers (rows_of (found_of matches.now)) (codes "user-id") numbers.items)) }
    ensures none { IfOk result (λ found. IfNone found ((numbers : List ℕ)
        → HasNumbers (rows_of (found_of matches.now)) (codes "user-id") numbers → ⊥)) }
{
    match matches.get_strs("user-id") {
        Some(texts) => numbers_of(alloc, texts),
        None => Ok(Some(Vec::new(alloc))),
    }
}

/// The name of the file of verdicts by which only bound parts stay, if `--bound` is given. The
/// outer None means that one of `--bound` and `--verdicts` is given without the other, or
/// `--user-id` beside them.
fn verdicts_of<'a>(matches: &ArgMatches<'a>) -> Option<Option<&'a str>>
    ensures some { IfSome result (λ file. AreVerdicts (rows_of (found_of matches.now))
        (option_map (λ word. word.now) file)) }
    ensures none { IfNone result ((file : Option Text)
        → AreVerdicts (rows_of (found_of matches.now)) file → ⊥) }
{
    let bound = is_given(matches, "bound");
    match word_of(matches, "verdicts") {
        None if bound => None,
        None => Some(None),
        Some(file) if bound && word_of(matches, "user-id").is_none() => Some(Some(file)),
        Some(_) => None,
    }
}

/// The time of `--newest`, if it is given. The outer None means that one of `--newest` and `--at` is
/// given without the other, that `--at` says no time, or that `--bound` isn't given beside them.
fn newest_of(matches: &ArgMatches) -> Option<Option<u64>>
    ensures some { IfSome result (AreNewest (rows_of (found_of matches.now))) }
    ensures none { IfNone result ((at : Option ℕ)
        → AreNewest (rows_of (found_of matches.now)) at → ⊥) }
{
    let newest = is_given(matches, "newest");
    match word_of(matches, "at") {
        None if newest => None,
        None => Some(None),
        Some(text) if newest && is_given(matches, "bound") => match time_in(text) {
            Some(at) => Some(Some(at)),
            None => None,
        },
        Some(_) => None,
    }
}

/// What `write` with these options writes. Fails only when out of memory.
pub(crate) fn write_from<'a>(
    alloc: Global,
    matches: &ArgMatches<'a>,
) -> Result<Option<WriteTask<'a>>, OutOfMemory>
    ensures some { IfOk result (λ found. IfSome found (λ task.
        IsWrite (codes "write") (rows_of (found_of matches.now)) task.mode task.limits
        (chosen_said task))) }
    ensures none { IfOk result (λ found. IfNone found ((mode : Mode) (limits : Limits)
        (chosen : Chosen) → IsWrite (codes "write") (rows_of (found_of matches.now)) mode limits
        chosen → ⊥)) }
{
    let limits = match limits_of(matches) {
        Some(limits) => limits,
        None => return Ok(None),
    };
    let verdicts = match verdicts_of(matches) {
        Some(verdicts) => verdicts,
        None => return Ok(None),
    };
    let newest_at = match newest_of(matches) {
        Some(newest_at) => newest_at,
        None => return Ok(None),
    };
    match user_ids_of(alloc, matches)? {
        Some(user_ids) => Ok(Some(WriteTask {
            mode: mode_of(matches),
            limits,
            out: out_of(matches),
            own_signatures: is_given(matches, "own-signatures"),
            no_attributes: is_given(matches, "no-attributes"),
            user_ids,
            verdicts,
            newest_at,
        })),
        None => Ok(None),
    }
}
