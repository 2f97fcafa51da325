//! What the command `split` asks for.

ghost use Rattle.std.specs.Prelude.{◌≡◌, List, IfNone, IfOk, IfSome, codes, false, map, true};
ghost use Rattle.std.specs.List.{AllZip};
ghost use Rattle.clap.specs.Words.{found_of, rows_of};
ghost use Rattle.opgp_codec.specs.declared.mode.Mode.{Mode};
ghost use Rattle.opgp_octets.specs.declared.limits.Limits.{Limits};
ghost use Rattle.opgp_stack.specs.KeyText.{IsKeyText};
ghost use Rattle.opgp_stack.specs.declared.key_name.KeyName.{KeyName};
ghost use Rattle.opgp_tool.specs.Words.{HasKeys, IsSplit, IsSplitWork, SplitWork, names_keys};
ghost use Rattle.opgp_tool.specs.Words.{split_said};

use crate::task::{given_number_of, is_given, limits_of, mode_of, out_of, word_of};
use clap::ArgMatches;
use opgp_octets::{Limits, OutOfMemory};
use opgp_stack::{Action, KeyName, Mode, Out, Task};
use std::alloc::Global;

/// Which certificates are written, each as a block of its own.
#[derive(Drop)]
pub enum SplitAction<'a> {
    /// Every one, or that of a number.
    Number {
        /// How each is written.
        out: Out,
        /// The number, from 0; None: every one.
        nth: Option<u64>,
    },
    /// Those with keys of some names, or all but those.
    Keys {
        /// How each is written.
        out: Out,
        /// The names.
        keys: Vec<KeyName>,
        /// The name of a file of more names, if there is one.
        file: Option<&'a str>,
        /// Whether all but those are written.
        except: bool,
    },
}

/// Which of the certificates on standard input are written.
#[derive(Drop)]
pub struct SplitTask<'a> {
    /// How the keyring is read.
    pub mode: Mode,
    /// The limits of what is read.
    pub limits: Limits,
    /// Which certificates are written.
    pub action: SplitAction<'a>,
}

/// Whether keys are named, or a file of their names is.
fn names_keys(matches: &ArgMatches) -> bool
    ensures { result ≡ names_keys (rows_of (found_of matches.now)) }
{
    word_of(matches, "key").is_some() || word_of(matches, "keys").is_some()
}

/// The keys that texts name, if each names one. Fails only when out of memory.
fn keys_of(alloc: Global, texts: &[&str]) -> Result<Option<Vec<KeyName>>, OutOfMemory>
    ensures some { IfOk result (λ found. IfSome found (λ keys.
        AllZip IsKeyText (map (λ text. text.now) texts.now) keys.items)) }
    ensures none { IfOk result (λ found. IfNone found ((keys : List KeyName)
        → AllZip IsKeyText (map (λ text. text.now) texts.now) keys → ⊥)) }
{
    let mut keys = Vec::new(alloc);
    for text in texts {
        match KeyName::parse(text) {
            Some(key) => keys.push(key)?,
            None => return Ok(None),
        }
    }
    Ok(Some(keys))
}

/// The keys that `--key` names, if each of its texts names one. Fails only when out of memory.
fn keys_given(alloc: Global, matches: &ArgMatches) -> Result<Option<Vec<KeyName>>, OutOfMemory>
    ensures some { IfOk result (λ found. IfSome found (λ keys.
        HasKeys (rows_of (found_of matches.now)) keys.items)) }
    ensures none { IfOk result (λ found. IfNone found ((keys : List KeyName)
        → HasKeys (rows_of (found_of matches.now)) keys → ⊥)) }
{
    match matches.get_strs("key") {
        Some(texts) => keys_of(alloc, texts),
        None => Ok(Some(Vec::new(alloc))),
    }
}

/// What `split` writes where no key is named.
fn number_from<'a>(matches: &ArgMatches) -> Option<SplitAction<'a>>
    requires { names_keys (rows_of (found_of matches.now)) ≡ false }
    ensures some { IfSome result (λ action.
        IsSplitWork (rows_of (found_of matches.now)) (split_said action)) }
    ensures none { IfNone result ((work : SplitWork)
        → IsSplitWork (rows_of (found_of matches.now)) work → ⊥) }
{
    if is_given(matches, "except") {
        return None;
    }
    let nth = given_number_of(matches, "nth")?;
    Some(SplitAction::Number {
        out: out_of(matches),
        nth,
    })
}

/// What `split` writes where keys are named. Fails only when out of memory.
fn keys_from<'a>(
    alloc: Global,
    matches: &ArgMatches<'a>,
) -> Result<Option<SplitAction<'a>>, OutOfMemory>
    requires { names_keys (rows_of (found_of matches.now)) ≡ true }
    ensures some { IfOk result (λ found. IfSome found (λ action.
        IsSplitWork (rows_of (found_of matches.now)) (split_said action))) }
    ensures none { IfOk result (λ found. IfNone found ((work : SplitWork)
        → IsSplitWork (rows_of (found_of matches.now)) work → ⊥)) }
{
    if word_of(matches, "nth").is_some() {
        return Ok(None);
    }
    match keys_given(alloc, matches)? {
        Some(keys) => Ok(Some(SplitAction::Keys {
            out: out_of(matches),
            keys,
            file: word_of(matches, "keys"),
            except: is_given(matches, "except"),
        })),
        None => Ok(None),
    }
}

/// Which certificates `split` writes. Fails only when out of memory.
fn split_action_of<'a>(
    alloc: Global,
    matches: &ArgMatches<'a>,
) -> Result<Option<SplitAction<'a>>, OutOfMemory>
    ensures some { IfOk result (λ found. IfSome found (λ action.
        IsSplitWork (rows_of (found_of matches.now)) (split_said action))) }
    ensures none { IfOk result (λ found. IfNone found ((work : SplitWork)
        → IsSplitWork (rows_of (found_of matches.now)) work → ⊥)) }
{
    if names_keys(matches) {
        keys_from(alloc, matches)
    } else {
        Ok(number_from(matches))
    }
}

/// What `split` with these options writes. Fails only when out of memory.
pub(crate) fn split_from<'a>(
    alloc: Global,
    matches: &ArgMatches<'a>,
) -> Result<Option<SplitTask<'a>>, OutOfMemory>
    ensures some { IfOk result (λ found. IfSome found (λ task.
        IsSplit (codes "split") (rows_of (found_of matches.now)) task.mode task.limits
        (split_said task.action))) }
    ensures none { IfOk result (λ found. IfNone found ((mode : Mode) (limits : Limits)
        (work : SplitWork) → IsSplit (codes "split") (rows_of (found_of matches.now)) mode limits
        work → ⊥)) }
{
    let limits = match limits_of(matches) {
        Some(limits) => limits,
        None => return Ok(None),
    };
    match split_action_of(alloc, matches)? {
        Some(action) => Ok(Some(SplitTask {
            mode: mode_of(matches),
            limits,
            action,
        })),
        None => Ok(None),
    }
}
