//! What signatures say together of a key.

ghost use Rattle.std.specs.Prelude.{◌≡◌, ◌&&◌, ◌∷◌, [], List};
ghost use Rattle.opgp_valid.specs.Saying.{limited, merged, saying_of};
ghost use Rattle.opgp_valid.specs.declared.statement.Statement.{Statement};
ghost use Rattle.opgp_valid.specs.Group.{speaks};
ghost use Rattle.opgp_valid.specs.Speaking.{is_same, made_at, made_then, newest, speakers};

use crate::group::Group;
use crate::speaking::{is_made_at, latest, sooner};
use crate::statement::Statement;
use crate::uses::Uses;

/// What signatures say together of a key at a time.
#[derive(Clone, Copy)]
pub(crate) struct Saying {
    /// Whether there is one.
    pub(crate) is_said: bool,
    /// Whether one has key flags.
    pub(crate) has_flags: bool,
    /// When the first of them lets the key expire, in seconds since 1970; None for never.
    pub(crate) end: Option<u64>,
    /// What all of them let it be used for.
    pub(crate) uses: Uses,
    /// Whether each has a good signature by the key embedded that counts at the time.
    pub(crate) is_backed: bool,
}

impl Saying {
    /// What no signature says.
    pub(crate) const NOTHING: Saying = Saying {
        is_said: false,
        has_flags: false,
        end: None,
        uses: Uses::ALL,
        is_backed: true,
    };

    /// What one signature says of a key that was created then, at this time.
    pub(crate) fn of(statement: &Statement, created: u32, at: u64) -> Saying
        ensures { result ≡ saying_of created at (statement.now ∷ []) }
    {
        Saying {
            is_said: true,
            has_flags: statement.has_flags,
            end: statement.end_of(created),
            uses: statement.uses,
            is_backed: statement.has_back(at),
        }
    }

    /// What these and others say together.
    pub(crate) fn and(self, other: Saying) -> Saying
        ensures { result ≡ merged self other }
    {
        Saying {
            is_said: self.is_said || other.is_said,
            has_flags: self.has_flags || other.has_flags,
            end: sooner(self.end, other.end),
            uses: self.uses.and(other.uses),
            is_backed: self.is_backed && other.is_backed,
        }
    }

    /// What these say, limited by what others do: to say it, one of these is needed.
    pub(crate) fn within(self, other: Saying) -> Saying
        ensures { result ≡ limited self other }
    {
        Saying {
            is_said: self.is_said,
            has_flags: self.has_flags,
            ..self.and(other)
        }
    }
}

/// What is said with a signature of a group, if it speaks at this time, and was made at that one.
fn said_with(
    said: Saying,
    statement: &Statement,
    group: Group,
    created: u32,
    at: u64,
    last: Option<u32>,
) -> Saying
    ensures { (more : List Statement)
        → merged said (saying_of created at
        (made_then last (speakers group at (statement.now ∷ more))))
        ≡ merged result (saying_of created at (made_then last (speakers group at more))) }
{
    if is_newest(statement, group, at, last) {
        said.and(Saying::of(statement, created, at))
    } else {
        said
    }
}

/// Whether a signature of a group speaks at this time, and was made at that one.
pub(crate) fn is_newest(statement: &Statement, group: Group, at: u64, last: Option<u32>) -> bool
    ensures { result
        ≡ speaks group at statement.now && is_same (made_at statement.now) last }
{
    group.speaks(statement, at) && is_made_at(statement, last)
}

/// What the newest of a group say of a key that was created then, at this time. Allocates nothing;
/// the work is linear in the number of statements.
pub(crate) fn newest_saying(statements: &[Statement], group: Group, created: u32, at: u64) -> Saying
    ensures { result ≡ saying_of created at (newest group at statements.now) }
{
    let last = latest(statements, group, at);
    let mut saying = Saying::NOTHING;
    let mut rest = statements;
    'statements: while let [statement, more @ ..] = rest {
        saying = said_with(saying, statement, group, created, at, last);
        rest = more;
    }
    saying
}
