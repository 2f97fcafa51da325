//! What the newest certifications of each user ID and user attribute say.

ghost use Rattle.std.specs.Prelude.{◌≡◌};
ghost use Rattle.opgp_valid.specs.Current.{latest_at, said_then, said_too, with_current, with_one};
ghost use Rattle.opgp_valid.specs.Saying.{saying_of};
ghost use Rattle.opgp_valid.specs.Speaking.{is_same, newest_current};

use crate::group::Group;
use crate::saying::{Saying, is_newest};
use crate::speaking::{is_made_at, later, latest, made_at};
use crate::statement::Statement;
use crate::steps::{Step, Steps};

/// Whether two times are the same one.
fn is_same(a: Option<u32>, b: Option<u32>) -> bool
    ensures { result ≡ is_same a b }
{
    match (a, b) {
        (Some(a), Some(b)) => a == b,
        _ => false,
    }
}

/// What the newest of some signatures say of a key that was created then, at a time.
#[derive(Clone, Copy)]
struct Newest {
    /// When they were made; None if there is none.
    last: Option<u32>,
    saying: Saying,
}

impl Newest {
    /// What they say, if this is when they were made; nothing otherwise.
    fn said_then(self, time: Option<u32>, created: u32, at: u64) -> Saying
        ensures { result ≡ said_then created at self time }
    {
        if is_same(time, self.last) {
            self.saying
        } else {
            Saying::NOTHING
        }
    }

    /// The same with one more.
    fn with(self, statement: &Statement, created: u32, at: u64) -> Newest
        ensures { result ≡ with_one created at self statement.now }
    {
        let last = later(self.last, made_at(statement));
        let before = self.said_then(last, created, at);
        Newest {
            last,
            saying: said_too(before, statement, created, at, last),
        }
    }
}

/// What is said with a signature, if it was made at this time.
fn said_too(said: Saying, statement: &Statement, created: u32, at: u64, time: Option<u32>) -> Saying
    ensures { result ≡ said_too created at said statement.now time }
{
    if is_made_at(statement, time) {
        said.and(Saying::of(statement, created, at))
    } else {
        said
    }
}

/// The newest with a signature of a group, if it speaks, and was made at this time.
fn with_current(
    newest: Newest,
    statement: &Statement,
    group: Group,
    created: u32,
    at: u64,
    last: Option<u32>,
) -> Newest
    ensures { result ≡ with_current created at group last newest statement.now }
{
    if is_newest(statement, group, at, last) {
        newest.with(statement, created, at)
    } else {
        newest
    }
}

/// When the newest of a group's certifications of the component of a statement were made, where it
/// was then of the statement before.
fn latest_at(step: Step<'_>, group: Group, at: u64, before: Option<u32>) -> Option<u32>
    ensures { result ≡ latest_at group at before step.entry }
{
    match (step.part, step.statement.component) {
        (None, _) => before,
        (Some(part), Some(number)) => latest(part, group.on_component(number), at),
        (Some(_), None) => None,
    }
}

/// What the newest of a group say of a key that was created then, at this time, of the newest
/// certifications of each user ID and user attribute. Allocates nothing; the work is linear in the
/// number of statements, if they are in the order of their components.
pub(crate) fn current_saying(
    statements: &[Statement],
    group: Group,
    created: u32,
    at: u64,
) -> Saying
    ensures { result ≡ saying_of created at (newest_current group at statements.now) }
{
    let mut newest = Newest {
        last: None,
        saying: Saying::NOTHING,
    };
    let mut last = None;
    let mut steps = Steps::new(statements);
    'steps: while let Some((step, next)) = steps.next() {
        last = latest_at(step, group, at, last);
        newest = with_current(newest, step.statement, group, created, at, last);
        steps = next;
    }
    newest.saying
}
