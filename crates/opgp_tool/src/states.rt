//! What the command `state` asks for.

ghost use Rattle.std.specs.Prelude.{◌≡◌, ℕ, IfSome, IfNone, Option, codes, option_map};
ghost use Rattle.clap.specs.Words.{Text, first_of, found_of, rows_of};
ghost use Rattle.opgp_stack.specs.declared.stating.StateTask.{StateTask};
ghost use Rattle.opgp_tool.specs.Words.{HasTime, IsStates, IsStatesWith, reliance_of};

use crate::task::{is_given, limits_of, mode_of, word_of};
use clap::ArgMatches;
use opgp_stack::{Policy, StateTask, time_in};

/// How the parts of the keyring on standard input are judged, and by which verdicts.
#[derive(Clone, Copy)]
pub struct StatesTask<'a> {
    /// How the keyring is read and judged.
    pub task: StateTask,
    /// The name of the file of verdicts; None: what the signatures claim counts.
    pub verdicts: Option<&'a str>,
}

/// What is relied on.
fn policy_of(matches: &ArgMatches) -> Policy
    ensures { result
        ≡ reliance_of (first_of (codes "policy") (rows_of (found_of matches.now))) }
{
    match word_of(matches, "policy") {
        Some("any") => Policy::Any,
        _ => Policy::Usual,
    }
}

/// The time that `--at` says.
fn at_of(matches: &ArgMatches) -> Option<u64>
    ensures some { IfSome result (HasTime (rows_of (found_of matches.now))) }
    ensures none { IfNone result ((n : ℕ) → HasTime (rows_of (found_of matches.now)) n → ⊥) }
{
    match word_of(matches, "at") {
        Some(text) => time_in(text),
        None => None,
    }
}

/// How the parts of a keyring are judged by these options.
fn task_of_states(matches: &ArgMatches) -> Option<StateTask>
    ensures some { IfSome result (IsStatesWith (rows_of (found_of matches.now))) }
    ensures none { IfNone result ((task : StateTask)
        → IsStatesWith (rows_of (found_of matches.now)) task → ⊥) }
{
    let limits = limits_of(matches)?;
    let at = at_of(matches)?;
    Some(StateTask {
        mode: mode_of(matches),
        limits,
        policy: policy_of(matches),
        at,
        values: is_given(matches, "values"),
    })
}

/// What the command of this name with these options judges, if it is `state`.
pub(crate) fn states_from<'a>(name: &str, matches: &ArgMatches<'a>) -> Option<StatesTask<'a>>
    ensures some { IfSome result (λ s. IsStates name.now (rows_of (found_of matches.now)) s.task
        (option_map (λ word. word.now) s.verdicts)) }
    ensures none { IfNone result ((task : StateTask) (file : Option Text)
        → IsStates name.now (rows_of (found_of matches.now)) task file → ⊥) }
{
    match name {
        "state" => match task_of_states(matches) {
            Some(task) => Some(StatesTask {
                task,
                verdicts: word_of(matches, "verdicts"),
            }),
            None => None,
        },
        _ => None,
    }
}
