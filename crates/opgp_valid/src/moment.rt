//! What holds of a key at one time.

ghost use Rattle.std.specs.Prelude.{◌≡◌};
ghost use Rattle.opgp_valid.specs.Facts.{facts_value};
ghost use Rattle.opgp_valid.specs.Moment.{saying_at, subkey_saying_of};
ghost use Rattle.opgp_valid.specs.Saying.{saying_of};
ghost use Rattle.opgp_valid.specs.Speaking.{newest, newest_current};
ghost use Rattle.opgp_valid.specs.Standing.{has_ended, is_expired_at, is_unbacked_at};
ghost use Rattle.opgp_valid.specs.Standing.{is_unbound_at, limiting, may_not_sign_at, spoken};
ghost use Rattle.opgp_valid.specs.declared.facts.Key.TheVariants as keys;

use crate::current::current_saying;
use crate::facts::{Facts, Key};
use crate::group::{Group, Sort};
use crate::saying::{Saying, newest_saying};
use crate::statement::Statement;

/// What holds of a key at one time.
#[derive(Clone, Copy)]
pub(crate) struct Moment {
    /// Nothing that counts speaks for it, or for its primary key.
    pub(crate) is_unbound: bool,
    /// It has expired, or its primary key has.
    pub(crate) is_expired: bool,
    /// What speaks for it doesn't let it sign.
    pub(crate) may_not_sign: bool,
    /// It is a subkey, and what speaks for it has no good signature by it that counts.
    pub(crate) is_unbacked: bool,
}

/// Whether an end has come at this time.
pub(crate) fn has_ended(end: Option<u64>, at: u64) -> bool
    ensures { result ≡ has_ended at end }
{
    match end {
        Some(end) => end <= at,
        None => false,
    }
}

/// What the newest of a group say of the primary key at this time.
fn newest_of(facts: Facts<'_>, group: Group, at: u64) -> Saying
    ensures { result ≡ saying_of facts.entry.created at
        (newest group at (facts_value facts.entry).statements) }
{
    newest_saying(facts.statements, group, facts.created, at)
}

/// What the newest of a group say of the primary key at this time, of the newest certifications of
/// each user ID and attribute.
fn current_of(facts: Facts<'_>, group: Group, at: u64) -> Saying
    ensures { result ≡ saying_of facts.entry.created at
        (newest_current group at (facts_value facts.entry).statements) }
{
    current_saying(facts.statements, group, facts.created, at)
}

/// What limits what speaks for the primary key at this time: with what it has revoked, or without.
#[tactic(auto, using(crate::proofs::Sayings::said_both))]
fn primary_limits(facts: Facts<'_>, must_stand: bool, at: u64) -> Saying
    ensures { result
        ≡ saying_of facts.entry.created at (limiting (facts_value facts.entry) must_stand at) }
{
    let direct = newest_of(facts, Group::any(Sort::Direct), at);
    let certified = newest_of(facts, Group::any(Sort::Certifications).kept(must_stand), at);
    let main = current_of(facts, Group::any(Sort::Main).kept(must_stand), at);
    let expiring = current_of(facts, Group::any(Sort::Expiring).kept(must_stand), at);
    direct.and(certified.and(main.and(expiring)))
}

/// What would speak for the primary key at this time: with what it has revoked, or without.
#[tactic(auto, using(crate::proofs::Sayings::said_both))]
fn primary_spoken(facts: Facts<'_>, must_stand: bool, at: u64) -> Saying
    ensures { result
        ≡ saying_of facts.entry.created at (spoken (facts_value facts.entry) must_stand at) }
{
    let direct = newest_of(facts, Group::good(Sort::Direct), at);
    if facts.version == 4 {
        let user_ids = Group::good(Sort::UserIds).kept(must_stand);
        direct.and(newest_of(facts, user_ids, at))
    } else {
        direct
    }
}

/// What is said of the primary key at this time. What it has revoked plays no part while something
/// else speaks.
#[tactic(auto, using(crate::proofs::Sayings::said_within))]
pub(crate) fn primary_saying(facts: Facts<'_>, at: u64) -> Saying
    ensures { result ≡ saying_at (facts_value facts.entry) keys.Primary at }
{
    let unrevoked = primary_spoken(facts, true, at);
    if unrevoked.is_said {
        unrevoked.within(primary_limits(facts, true, at))
    } else {
        primary_spoken(facts, false, at).within(primary_limits(facts, false, at))
    }
}

/// What is said of a key at this time, where this is said of its primary key.
pub(crate) fn own_saying(facts: Facts<'_>, key: Key, primary: Saying, at: u64) -> Saying
    requires { primary ≡ saying_at (facts_value facts) keys.Primary at }
    ensures { result ≡ saying_at (facts_value facts.entry) key at }
{
    match key {
        Key::Primary => primary,
        Key::Subkey { number, created } => subkey_saying(facts.statements, number, created, at),
    }
}

/// What is said of the subkey that is the component of this number, and was created then.
#[tactic(auto, using(crate::proofs::Sayings::said_within))]
pub(crate) fn subkey_saying(
    statements: &[Statement],
    number: usize,
    created: u32,
    at: u64,
) -> Saying
    ensures { result ≡ subkey_saying_of statements.now number created at }
{
    let spoken = newest_saying(statements, Group::good(Sort::Bindings(number)), created, at);
    spoken.within(newest_saying(statements, Group::any(Sort::Bindings(number)), created, at))
}

/// What holds of a key at this time.
pub(crate) fn key_at(facts: Facts<'_>, key: Key, at: u64) -> Moment
    ensures unbound { result.is_unbound ≡ is_unbound_at (facts_value facts.entry) key at }
    ensures expired { result.is_expired ≡ is_expired_at (facts_value facts.entry) key at }
    ensures signs { result.may_not_sign ≡ may_not_sign_at (facts_value facts.entry) key at }
    ensures backed { result.is_unbacked ≡ is_unbacked_at (facts_value facts.entry) key at }
{
    let primary = primary_saying(facts, at);
    let own = own_saying(facts, key, primary, at);
    Moment {
        is_unbound: !primary.is_said || !own.is_said,
        is_expired: has_ended(primary.end, at) || has_ended(own.end, at),
        may_not_sign: !own.has_flags || !own.uses.sign,
        is_unbacked: matches!(key, Key::Subkey { .. }) && !own.is_backed,
    }
}
