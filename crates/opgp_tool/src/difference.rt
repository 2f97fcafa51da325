//! What the command `diff` asks for.

ghost use Rattle.std.specs.Prelude.{IfSome, IfNone};
ghost use Rattle.clap.specs.Words.{Text, found_of, rows_of};
ghost use Rattle.opgp_codec.specs.declared.mode.Mode.{Mode};
ghost use Rattle.opgp_octets.specs.declared.limits.Limits.{Limits};
ghost use Rattle.opgp_tool.specs.Words.{IsDifference};

use crate::task::{limits_of, mode_of, word_of};
use clap::ArgMatches;
use opgp_octets::Limits;
use opgp_stack::Mode;

/// How two keyrings are read, and where the old one is; the new one is on standard input.
#[derive(Clone, Copy)]
pub struct DifferenceTask<'a> {
    /// How both are read.
    pub mode: Mode,
    /// The limits of what is read of each.
    pub limits: Limits,
    /// The name of the old one's file.
    pub old: &'a str,
}

/// What the command of this name with these options compares, if it is `diff`.
pub(crate) fn difference_from<'a>(
    name: &str,
    matches: &ArgMatches<'a>,
) -> Option<DifferenceTask<'a>>
    ensures some { IfSome result (λ d. IsDifference name.now (rows_of (found_of matches.now))
        d.mode d.limits d.old.now) }
    ensures none { IfNone result ((mode : Mode) (limits : Limits) (old : Text)
        → IsDifference name.now (rows_of (found_of matches.now)) mode limits old → ⊥) }
{
    match name {
        "diff" => {
            let limits = limits_of(matches)?;
            let old = word_of(matches, "old")?;
            Some(DifferenceTask {
                mode: mode_of(matches),
                limits,
                old,
            })
        }
        _ => None,
    }
}
