//! Which signatures of a group are the newest.

ghost use Rattle.std.specs.Prelude.{◌≡◌};
ghost use Rattle.opgp_valid.specs.Speaking.{is_same, later, latest, made_at, sooner, speakers};

use crate::group::Group;
use crate::statement::Statement;

/// The later of two times.
pub(crate) fn later(a: Option<u32>, b: Option<u32>) -> Option<u32>
    ensures { result ≡ later a b }
{
    match (a, b) {
        (Some(a), Some(b)) => Some(a.max(b)),
        (Some(a), None) => Some(a),
        (None, b) => b,
    }
}

/// The earlier of two times; None is never.
pub(crate) fn sooner(a: Option<u64>, b: Option<u64>) -> Option<u64>
    ensures { result ≡ sooner a b }
{
    match (a, b) {
        (Some(a), Some(b)) => Some(a.min(b)),
        (Some(a), None) => Some(a),
        (None, b) => b,
    }
}

/// When a signature was made.
pub(crate) fn made_at(statement: &Statement) -> Option<u32>
    ensures { result ≡ made_at statement.now }
{
    match statement.life {
        Some(life) => Some(life.made),
        None => None,
    }
}

/// Whether a signature was made at this time.
pub(crate) fn is_made_at(statement: &Statement, time: Option<u32>) -> bool
    ensures { result ≡ is_same (made_at statement.now) time }
{
    match (made_at(statement), time) {
        (Some(a), Some(b)) => a == b,
        _ => false,
    }
}

/// When the newest of a group were made that speak at this time; None if none does.
pub(crate) fn latest(statements: &[Statement], group: Group, at: u64) -> Option<u32>
    ensures { result ≡ latest (speakers group at statements.now) }
{
    let mut found = None;
    let mut rest = statements;
    'statements: while let [statement, more @ ..] = rest {
        if group.speaks(statement, at) {
            found = later(found, made_at(statement));
        }
        rest = more;
    }
    found
}
