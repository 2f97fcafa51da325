//! Goes through what the signatures of a certificate say, one by one.

ghost use Rattle.std.specs.Prelude.{◌≡◌, ◌<◌, ◌∷◌, [], List, Option, Some, None};
ghost use Rattle.std.specs.Prelude.{true, false, length, IfNone, IfSome};
ghost use Rattle.std.specs.Option.{option_map};
ghost use Rattle.opgp_valid.specs.Steps.{ArePast, HasAllAhead, HasPart, HasStep, IsAhead};
ghost use Rattle.opgp_valid.specs.Told.{is_same_number};
ghost use Rattle.opgp_valid.specs.declared.statement.Statement.{Statement};

use crate::statement::Statement;
use crate::walk::{is_in_order, split};

/// A way through statements.
#[derive(Clone, Copy)]
pub(crate) struct Steps<'a> {
    all: &'a [Statement],
    /// Those that are to come.
    rest: &'a [Statement],
    /// They are in the order of their components, those on the primary key first.
    is_ordered: bool,
    /// The component of the last one that was passed; None for the primary key.
    component: Option<usize>,
}

/// A statement on the way.
#[derive(Clone, Copy)]
pub(crate) struct Step<'a> {
    pub(crate) statement: &'a Statement,
    /// Statements that have all on its component, if the one before is on another component.
    pub(crate) part: Option<&'a [Statement]>,
}

/// Whether two components are the same one, where None is the primary key.
fn is_same(a: Option<usize>, b: Option<usize>) -> bool
    ensures { result ≡ is_same_number a b }
{
    match (a, b) {
        (None, None) => true,
        (Some(a), Some(b)) => a == b,
        _ => false,
    }
}

impl<'a> Steps<'a> {
    /// The way through these statements.
    pub(crate) fn new(statements: &'a [Statement]) -> Steps<'a>
        ensures begin { ArePast statements.now [] result }
        ensures component { result.component ≡ None }
    {
        Steps {
            all: statements,
            rest: statements,
            is_ordered: is_in_order(statements),
            component: None,
        }
    }

    /// The next statement, and the way behind it; None at the end. Where the statements are in
    /// order, the work of all calls is linear in their number.
    pub(crate) fn next(self) -> Option<(Step<'a>, Steps<'a>)>
        ensures none { IfNone result ((ss done : List Statement)
            → ArePast ss done self.entry → done ≡ ss) }
        ensures some { IfSome result (λ x. (ss done : List Statement)
            → ArePast ss done self.entry → HasStep ss done self.entry x.0 x.1) }
        ensures shorter { IfSome result (λ x. length x.1.rest.now < length self.entry.rest.now) }
    {
        let Some((statement, more)) = self.rest.split_first() else {
            return None;
        };
        let part = self.part_for(statement.component);
        let steps = Steps {
            rest: more,
            component: statement.component,
            ..self
        };
        Some((Step { statement, part }, steps))
    }

    /// Statements that have all on this component, which isn't before the last one that was passed;
    /// None if it is that one.
    fn part_for(self, component: Option<usize>) -> Option<&'a [Statement]>
        ensures { (ss done : List Statement) → ArePast ss done self.entry
            → IsAhead self.entry component
            → HasPart ss self.entry.component component (option_map (λ p. p.now) result) }
    {
        if is_same(component, self.component) {
            None
        } else {
            Some(self.part_of(component))
        }
    }

    /// Statements that have all on this component, which is behind the last one that was passed.
    fn part_of(self, component: Option<usize>) -> &'a [Statement]
        ensures { (ss done : List Statement) → ArePast ss done self.entry
            → HasAllAhead ss self.entry component result.now }
    {
        let Some(number) = component else {
            return self.all;
        };
        if !self.is_ordered {
            return self.all;
        }
        split(self.rest, number).0
    }
}
