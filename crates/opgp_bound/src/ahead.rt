//! A way through what the signatures of a certificate say, component by component.

ghost use Rattle.std.specs.Prelude.{◌≡◌, ◌+◌, List, None, Some};
ghost use Rattle.opgp_octets.specs.declared.signature_type.SignatureType.{SignatureType};
ghost use Rattle.opgp_valid.specs.Walk.{behind, in_order, is_at_or_behind, is_behind, up_to};
ghost use Rattle.opgp_valid.specs.declared.statement.Statement.{Statement};
ghost use Rattle.opgp_bound.specs.Newest.{newest_made};
ghost use Rattle.opgp_bound.specs.Replacing.{AreAhead, time_of};

use crate::replaced::Times;
use opgp_valid::Statement;

/// The statements that are ahead, on the way to a component.
#[derive(Clone, Copy)]
pub(crate) struct Ahead<'a> {
    /// Those that are to come: all of them where they aren't in order.
    rest: &'a [Statement],
    /// They are in the order of their components, those on the primary key first.
    is_ordered: bool,
}

/// Whether a component is behind the one of this number.
fn is_behind(component: Option<usize>, number: usize) -> bool
    ensures { result ≡ is_behind number component }
{
    match component {
        Some(component) => component > number,
        None => false,
    }
}

/// Whether a component isn't before another one, where None is the primary key.
fn is_at_or_behind(before: Option<usize>, component: Option<usize>) -> bool
    ensures { result ≡ is_at_or_behind before component }
{
    match (before, component) {
        (None, _) => true,
        (Some(_), None) => false,
        (Some(before), Some(component)) => before <= component,
    }
}

/// Whether statements are in the order of their components, those on the primary key first.
fn is_in_order(statements: &[Statement]) -> bool
    ensures { result ≡ in_order None statements.now }
{
    let mut before = None;
    let mut rest = statements;
    'statements: while let [statement, more @ ..] = rest {
        if !is_at_or_behind(before, statement.component) {
            return false;
        }
        before = statement.component;
        rest = more;
    }
    true
}

/// The statements from the first on that is on a component behind the one of this number.
fn behind(statements: &[Statement], number: usize) -> &[Statement]
    ensures { result.now ≡ behind number statements.now }
{
    let mut rest = statements;
    'statements: while let [statement, more @ ..] = rest {
        if is_behind(statement.component, number) {
            return rest;
        }
        rest = more;
    }
    rest
}

/// Statements up to the first that is on a component behind the one of this number, and those from
/// there on.
#[tactic(auto, using(opgp_valid::proofs::Walks::front, opgp_valid::proofs::Walks::fits))]
fn split(statements: &[Statement], number: usize) -> (&[Statement], &[Statement])
    ensures before { result.0.now ≡ up_to number statements.now }
    ensures behind { result.1.now ≡ behind number statements.now }
{
    let behind = behind(statements, number);
    (&statements[..statements.len() - behind.len()], behind)
}

impl<'a> Ahead<'a> {
    /// The beginning of the way through these statements.
    pub(crate) fn new(statements: &'a [Statement]) -> Ahead<'a>
        ensures { AreAhead statements.now 0 result }
    {
        Ahead {
            rest: statements,
            is_ordered: is_in_order(statements),
        }
    }

    /// When the newest signatures of each sort were made that count at this time and are on the
    /// component of this number, which the way has come to; and the way to the next component.
    /// Where the statements are in order, the work is linear in the number of those that are
    /// passed.
    pub(crate) fn next(self, number: usize, at: u64) -> (Times, Ahead<'a>)
        ensures times { (ss : List Statement) → AreAhead ss number self.entry
            → (t : SignatureType) → time_of result.0 t ≡ newest_made at ss (Some number) t }
        ensures ahead { (ss : List Statement) → AreAhead ss number self.entry
            → AreAhead ss (number + 1) result.1 }
    {
        if !self.is_ordered {
            let all = Times::on(self.rest, Some(number), at);
            return (all, self);
        }
        let (statements, rest) = split(self.rest, number);
        let times = Times::on(statements, Some(number), at);
        let ahead = Ahead {
            rest,
            is_ordered: true,
        };
        (times, ahead)
    }
}
