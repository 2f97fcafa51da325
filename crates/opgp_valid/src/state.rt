//! How the parts of a certificate stand at a time.

ghost use Rattle.std.specs.Prelude.{◌≡◌};
ghost use Rattle.std.specs.List.{list_any};
ghost use Rattle.opgp_valid.specs.Facts.{facts_value};
ghost use Rattle.opgp_valid.specs.Moment.{saying_at};
ghost use Rattle.opgp_valid.specs.State.{first_revocation, identity_of, revocation_in};
ghost use Rattle.opgp_valid.specs.State.{revokes_identity, state_of, unusable, uses_by, vouches};
ghost use Rattle.opgp_valid.specs.Standing.{is_revoked};
ghost use Rattle.opgp_valid.specs.declared.facts.Key.TheVariants as keys;
ghost use Rattle.std.specs.Option.{option_and_then};

use crate::cause::{Spot, made_of, spot_of};
use crate::facts::{Facts, Key};
use crate::group::certifies;
use crate::judging::{created_of, revokes};
use crate::moment::{has_ended, own_saying, primary_saying};
use crate::saying::Saying;
use crate::speaking::sooner;
use crate::statement::{Author, Statement};
use crate::uses::Uses;
use crate::why::Why;
use opgp_octets::SignatureType;

/// How a key stands at a time.
#[derive(Clone, Copy, Debug, PartialEq, Eq)]
pub struct KeyState {
    /// Why it is of no use at all: `Revoked`, `Early`, `Unbound` or `Expired`, the first that
    /// applies; None if it is of use.
    pub why: Option<Why>,
    /// What all that is heard for it lets it be used for (RFC 9580, 5.2.3.29): nothing if none that
    /// speaks for it has key flags. A subkey without a good signature by itself neither signs nor
    /// certifies (5.2.1.9).
    pub uses: Uses,
    /// From when on it is there, in seconds since 1970: since both it and the primary key are.
    pub begin: u32,
    /// When it expires, or its primary key does, in seconds since 1970; None for never.
    pub end: Option<u64>,
    /// The code of the reason of the first revocation (5.2.3.31).
    pub reason: Option<u8>,
}

/// How a user ID or user attribute stands at a time.
#[derive(Clone, Copy, Debug, PartialEq, Eq)]
pub enum IdentityState {
    /// A good certification of it by the primary key counts, which that hasn't revoked: a newer one
    /// stands.
    Certified,
    /// No such one, and the primary key revoked a certification of it, whenever that was.
    Revoked,
    /// Neither.
    Unbound,
}

/// A revocation.
#[derive(Clone, Copy)]
pub(crate) struct Revocation {
    /// The code of its reason (RFC 9580, 5.2.3.31).
    pub(crate) reason: Option<u8>,
    /// It revokes the primary key.
    pub(crate) is_of_primary: bool,
    /// When it was made, in seconds since 1970, if it states one time.
    pub(crate) made: Option<u64>,
    /// Where it is.
    pub(crate) spot: Spot,
}

/// The revocation that a signature is.
fn revocation_in(statement: &Statement) -> Revocation
    ensures { result ≡ revocation_in statement.now }
{
    Revocation {
        reason: statement.reason,
        is_of_primary: matches!(statement.kind, SignatureType::KeyRevocation),
        made: made_of(statement),
        spot: spot_of(statement),
    }
}

/// The first of these signatures that revokes a key.
pub(crate) fn first_revocation(statements: &[Statement], key: Key) -> Option<Revocation>
    ensures { result ≡ first_revocation key statements.now }
{
    let mut rest = statements;
    'statements: while let [statement, more @ ..] = rest {
        if revokes(key, statement) {
            return Some(revocation_in(statement));
        }
        rest = more;
    }
    None
}

/// The code of the reason of a revocation, if there is one.
fn reason_of(revocation: Option<Revocation>) -> Option<u8>
    ensures { result ≡ option_and_then (λ r. r.reason) revocation }
{
    match revocation {
        Some(revocation) => revocation.reason,
        None => None,
    }
}

/// The uses that these signatures allow a key.
fn uses_of(own: Saying, key: Key) -> Uses
    ensures { result ≡ uses_by own key }
{
    if !own.has_flags {
        return Uses::NONE;
    }
    match key {
        Key::Subkey { .. } if !own.is_backed => Uses {
            certify: false,
            sign: false,
            ..own.uses
        },
        _ => own.uses,
    }
}

/// Why a key is of no use at all at a time, if it isn't, where this is said of its primary key and
/// of it.
pub(crate) fn unusable(
    facts: Facts<'_>,
    key: Key,
    primary: Saying,
    own: Saying,
    is_known_revoked: bool,
    at: u64,
) -> Option<Why>
    requires primary { primary ≡ saying_at (facts_value facts) keys.Primary at }
    requires own { own ≡ saying_at (facts_value facts) key at }
    requires revoked { is_known_revoked ≡ is_revoked (facts_value facts) key }
    ensures { result ≡ unusable (facts_value facts.entry) key at }
{
    if is_known_revoked {
        Some(Why::Revoked)
    } else if at < u64::from(facts.created) || at < u64::from(created_of(facts, key)) {
        Some(Why::Early)
    } else if !primary.is_said || !own.is_said {
        Some(Why::Unbound)
    } else if has_ended(primary.end, at) || has_ended(own.end, at) {
        Some(Why::Expired)
    } else {
        None
    }
}

/// How a key stands at a time, where this is said of its primary key and of it, and this is the
/// first revocation of it.
#[tactic(auto, using(crate::proofs::Revocations::revoked_first, crate::proofs::Revocations::reason_first))]
pub(crate) fn state_with(
    facts: Facts<'_>,
    key: Key,
    primary: Saying,
    own: Saying,
    revocation: Option<Revocation>,
    at: u64,
) -> KeyState
    requires primary { primary ≡ saying_at (facts_value facts) keys.Primary at }
    requires own { own ≡ saying_at (facts_value facts) key at }
    requires revocation { revocation ≡ first_revocation key (facts_value facts).statements }
    ensures { result ≡ state_of (facts_value facts.entry) key at }
{
    KeyState {
        why: unusable(facts, key, primary, own, revocation.is_some(), at),
        uses: uses_of(own, key),
        begin: facts.created.max(created_of(facts, key)),
        end: sooner(primary.end, own.end),
        reason: reason_of(revocation),
    }
}

/// How a key stands at a time, in seconds since 1970. Allocates nothing; the work is linear in the
/// number of statements.
pub fn key_state(facts: Facts<'_>, key: Key, at: u64) -> KeyState
    ensures { result ≡ state_of (facts_value facts.entry) key at }
{
    let primary = primary_saying(facts, at);
    let own = own_saying(facts, key, primary, at);
    let revocation = first_revocation(facts.statements, key);
    state_with(facts, key, primary, own, revocation, at)
}

/// Whether a signature revokes the certification of this component.
pub(crate) fn revokes_identity(number: usize, statement: &Statement) -> bool
    ensures { result ≡ revokes_identity number statement.now }
{
    matches!(statement.kind, SignatureType::CertificationRevocation)
        && statement.component == Some(number)
        && matches!(statement.author, Author::Primary)
}

/// Whether a signature is a good certification of this component that counts at this time, and isn't
/// revoked.
fn vouches(number: usize, at: u64, statement: &Statement) -> bool
    ensures { result ≡ vouches number at statement.now }
{
    certifies(statement.kind)
        && statement.component == Some(number)
        && !statement.is_revoked
        && statement.is_good()
        && statement.is_understood
        && matches!(statement.author, Author::Primary)
        && statement.is_alive(at)
}

/// Whether one of these signatures revokes the certification of this component.
fn is_identity_revoked(statements: &[Statement], number: usize) -> bool
    ensures { result ≡ list_any (revokes_identity number) statements.now }
{
    let mut rest = statements;
    'statements: while let [statement, more @ ..] = rest {
        if revokes_identity(number, statement) {
            return true;
        }
        rest = more;
    }
    false
}

/// Whether one of these signatures is such a certification of this component at this time.
fn is_vouched_for(statements: &[Statement], number: usize, at: u64) -> bool
    ensures { result ≡ list_any (vouches number at) statements.now }
{
    let mut rest = statements;
    'statements: while let [statement, more @ ..] = rest {
        if vouches(number, at, statement) {
            return true;
        }
        rest = more;
    }
    false
}

/// How the user ID or attribute that is the component of this number stands at a time, in seconds
/// since 1970. Allocates nothing; the work is linear in the number of statements.
pub fn identity_state(facts: Facts<'_>, number: usize, at: u64) -> IdentityState
    ensures { result ≡ identity_of (facts_value facts.entry) number at }
{
    if is_vouched_for(facts.statements, number, at) {
        IdentityState::Certified
    } else if is_identity_revoked(facts.statements, number) {
        IdentityState::Revoked
    } else {
        IdentityState::Unbound
    }
}
