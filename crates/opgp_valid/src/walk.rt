//! Walks through what the signatures of a certificate say, component by component.

ghost use Rattle.std.specs.Prelude.{◌≡◌, ◌+◌, ℕ, List, None};
ghost use Rattle.opgp_valid.specs.Walk.{AreEnough, IsAt, behind, in_order, is_at_or_behind};
ghost use Rattle.opgp_valid.specs.Walk.{is_behind, up_to};
ghost use Rattle.opgp_valid.specs.declared.statement.Statement.{Statement};

use crate::facts::Key;
use crate::state::{Revocation, first_revocation};
use crate::statement::Statement;

/// A walk through statements, on its way to a component.
#[derive(Clone, Copy)]
pub(crate) struct Walk<'a> {
    /// Those that are to come: all of them where they aren't in order.
    rest: &'a [Statement],
    /// They are in the order of their components, those on the primary key first.
    is_ordered: bool,
    /// The first revocation of the primary key among those before.
    earlier: Option<Revocation>,
}

/// Statements that have all on one component.
#[derive(Clone, Copy)]
pub(crate) struct Part<'a> {
    /// The number of the component.
    pub(crate) number: usize,
    /// They, in order.
    pub(crate) statements: &'a [Statement],
    /// The first revocation of the primary key among those before.
    pub(crate) earlier: Option<Revocation>,
}

/// Whether a component is behind the one of this number.
fn is_behind(component: Option<usize>, number: usize) -> bool
    ensures { result ≡ is_behind number component }
{
    match component {
        Some(component) => component > number,
        None => false,
    }
}

/// Whether a component isn't before another one, where None is the primary key.
fn is_at_or_behind(before: Option<usize>, component: Option<usize>) -> bool
    ensures { result ≡ is_at_or_behind before component }
{
    match (before, component) {
        (None, _) => true,
        (Some(_), None) => false,
        (Some(before), Some(component)) => before <= component,
    }
}

/// Whether statements are in the order of their components, those on the primary key first.
pub(crate) fn is_in_order(statements: &[Statement]) -> bool
    ensures { result ≡ in_order None statements.now }
{
    let mut before = None;
    let mut rest = statements;
    'statements: while let [statement, more @ ..] = rest {
        if !is_at_or_behind(before, statement.component) {
            return false;
        }
        before = statement.component;
        rest = more;
    }
    true
}

/// The statements from the first on that is on a component behind the one of this number.
fn behind(statements: &[Statement], number: usize) -> &[Statement]
    ensures { result.now ≡ behind number statements.now }
{
    let mut rest = statements;
    'statements: while let [statement, more @ ..] = rest {
        if is_behind(statement.component, number) {
            return rest;
        }
        rest = more;
    }
    rest
}

/// Statements up to the first that is on a component behind the one of this number, and those from
/// there on.
#[tactic(auto, using(crate::proofs::Walks::front, crate::proofs::Walks::fits))]
pub(crate) fn split(statements: &[Statement], number: usize) -> (&[Statement], &[Statement])
    ensures before { result.0.now ≡ up_to number statements.now }
    ensures behind { result.1.now ≡ behind number statements.now }
{
    let behind = behind(statements, number);
    (&statements[..statements.len() - behind.len()], behind)
}

impl<'a> Walk<'a> {
    /// The beginning of a walk through statements.
    pub(crate) fn new(statements: &'a [Statement]) -> Walk<'a>
        ensures { IsAt statements.now 0 result }
    {
        Walk {
            rest: statements,
            is_ordered: is_in_order(statements),
            earlier: None,
        }
    }

    /// Enough of the statements for the component of this number, which the walk has come to; and
    /// the walk to the next component. Where the statements are in order, the work is linear in the
    /// number of those that are passed.
    pub(crate) fn next(self, number: usize) -> (Part<'a>, Walk<'a>)
        ensures number { result.0.number ≡ number }
        ensures enough { (ss : List Statement) → IsAt ss number self.entry → AreEnough ss result.0 }
        ensures walk { (ss : List Statement) → IsAt ss number self.entry
            → IsAt ss (number + 1) result.1 }
    {
        let earlier = self.earlier;
        if !self.is_ordered {
            let part = Part {
                number,
                statements: self.rest,
                earlier,
            };
            return (part, self);
        }
        let (statements, rest) = split(self.rest, number);
        let part = Part {
            number,
            statements,
            earlier,
        };
        let walk = Walk {
            rest,
            is_ordered: true,
            earlier: earlier.or(first_revocation(statements, Key::Primary)),
        };
        (part, walk)
    }
}
