//! Certifications that the primary key has revoked.

ghost use Rattle.std.specs.Prelude.{◌≡◌, false, Some, IfOk};
ghost use Rattle.std.specs.List.{list_any};
ghost use Rattle.opgp_valid.specs.Revoking.{has, marked, revoked_at, revoked_on, revokes_some};
ghost use Rattle.opgp_valid.specs.Revoking.{with_one};
ghost use Rattle.opgp_valid.specs.Told.{with_revocations};

use crate::group::is_certification;
use crate::speaking::{later, made_at};
use crate::state::revokes_identity;
use crate::statement::{Author, Statement};
use crate::steps::{Step, Steps};
use opgp_octets::{OutOfMemory, SignatureType};
use std::alloc::Global;

/// Which certifications of a user ID or user attribute its primary key has revoked.
#[derive(Clone, Copy)]
struct RevokedOn {
    /// All of them: a revocation doesn't say when it was made.
    all: bool,
    /// Those that weren't made later, nor say when they were; None if none is.
    until: Option<u32>,
}

impl RevokedOn {
    const NONE: RevokedOn = RevokedOn {
        all: false,
        until: None,
    };

    /// The same with one more revocation.
    fn with(self, revocation: &Statement) -> RevokedOn
        ensures { result ≡ with_one self revocation.now }
    {
        match made_at(revocation) {
            Some(made) => RevokedOn {
                until: later(self.until, Some(made)),
                ..self
            },
            None => RevokedOn { all: true, ..self },
        }
    }

    /// Whether a certification of that user ID or attribute is revoked.
    fn has(self, statement: &Statement) -> bool
        ensures { result ≡ has self statement.now }
    {
        match (self.until, made_at(statement)) {
            (Some(until), Some(made)) => self.all || made <= until,
            (until, _) => self.all || until.is_some(),
        }
    }
}

/// Which certifications of the component of this number are revoked, where these statements have
/// all on it.
fn revoked_on(statements: &[Statement], number: usize) -> RevokedOn
    ensures { result ≡ revoked_on statements.now (Some number) }
{
    let mut revoked = RevokedOn::NONE;
    let mut rest = statements;
    'statements: while let [statement, more @ ..] = rest {
        if revokes_identity(number, statement) {
            revoked = revoked.with(statement);
        }
        rest = more;
    }
    revoked
}

/// Which certifications of the component of a statement are revoked, where these are of the
/// component of the statement before.
fn revoked_at(step: Step<'_>, before: RevokedOn) -> RevokedOn
    ensures { result ≡ revoked_at before step.entry }
{
    match (step.part, step.statement.component) {
        (None, _) => before,
        (Some(part), Some(number)) => revoked_on(part, number),
        (Some(_), None) => RevokedOn::NONE,
    }
}

/// A statement with whether it is a certification that is among these.
fn marked(statement: Statement, revoked: RevokedOn) -> Statement
    ensures { result ≡ marked revoked statement }
{
    Statement {
        is_revoked: is_certification(&statement) && revoked.has(&statement),
        ..statement
    }
}

/// Whether a signature is a revocation of certifications by the primary key.
fn revokes_some(statement: &Statement) -> bool
    ensures { result ≡ revokes_some statement.now }
{
    matches!(statement.kind, SignatureType::CertificationRevocation)
        && matches!(statement.author, Author::Primary)
}

/// Whether one of these signatures revokes certifications.
fn is_any_revoked(statements: &[Statement]) -> bool
    ensures { result ≡ list_any revokes_some statements.now }
{
    let mut rest = statements;
    'statements: while let [statement, more @ ..] = rest {
        if revokes_some(statement) {
            return true;
        }
        rest = more;
    }
    false
}

/// The statements, each with whether it is a certification that the primary key has revoked. Where
/// none is, nothing is allocated. The work is linear in their number, if they are in the order of
/// their components. Fails only when out of memory.
pub(crate) fn with_revocations(
    alloc: Global,
    statements: Vec<Statement>,
) -> Result<Vec<Statement>, OutOfMemory>
    requires { list_any (λ s. s.is_revoked) statements.items ≡ false }
    ensures { IfOk result (λ v. v.items ≡ with_revocations statements.items) }
{
    if !is_any_revoked(&statements) {
        return Ok(statements);
    }
    let mut found = Vec::with_capacity(alloc, statements.len())?;
    let mut revoked = RevokedOn::NONE;
    let mut steps = Steps::new(&statements);
    'steps: while let Some((step, next)) = steps.next() {
        revoked = revoked_at(step, revoked);
        found.push(marked(*step.statement, revoked))?;
        steps = next;
    }
    Ok(found)
}
