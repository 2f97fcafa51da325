//! What makes keys of no use at a time.

ghost use Rattle.std.specs.Prelude.{◌≡◌, ◌++◌, ◌<◌, ◌^◌, if◌then◌else◌, false, length};
ghost use Rattle.std.specs.Prelude.{IfOk, OnOk, Some};
ghost use Rattle.std.specs.List.{flat_map};
ghost use Rattle.opgp_keyring.specs.Grouped.{component_of, components_left};
ghost use Rattle.opgp_keyring.specs.Keyring.{component_packets};
ghost use Rattle.opgp_valid.specs.Cause.{cause_by, expired_at, expired_key, unbound_at};
ghost use Rattle.opgp_valid.specs.Cause.{unbound_key};
ghost use Rattle.opgp_valid.specs.KeyCauses.{AreEnoughFor, IsShared, causes_from, causes_of};
ghost use Rattle.opgp_valid.specs.KeyCauses.{expired_shared, part_cause, revoked_with};
ghost use Rattle.opgp_valid.specs.KeyCauses.{unbound_shared, unusable_cause};
ghost use Rattle.opgp_valid.specs.Facts.{facts_value};
ghost use Rattle.opgp_valid.specs.Judgement.{subkey_at};
ghost use Rattle.opgp_valid.specs.Moment.{saying_at};
ghost use Rattle.opgp_valid.specs.State.{first_revocation, unusable};
ghost use Rattle.opgp_valid.specs.Walk.{AreEnough};
ghost use Rattle.opgp_valid.specs.declared.facts.Key.TheVariants as keys;
ghost use Rattle.opgp_valid.specs.declared.why.Why.TheVariants as whys;

use crate::cause::{Cause, cause_by, early_by, early_key, expired_by, of_key, unbound_at};
use crate::certified::created_of;
use crate::facts::{Facts, Key};
use crate::moment::{has_ended, subkey_saying};
use crate::saying::Saying;
use crate::state::{Revocation, first_revocation, unusable};
use crate::states::{Primary, primary_of};
use crate::walk::{Part, Walk};
use crate::why::Why;
use opgp_keyring::{Certificate, Component, Components, Head};
use opgp_octets::OutOfMemory;
use std::alloc::Global;

/// What is found of the primary key, and what makes it of no use, and its subkeys with it.
#[derive(Clone, Copy)]
pub(crate) struct Shared {
    primary: Primary,
    unbound: Option<Cause>,
    expired: Option<Cause>,
}

/// The cause that nothing speaks for the primary key, if that is so.
fn unbound_shared(facts: Facts<'_>, saying: Saying, at: u64) -> Option<Cause>
    requires { saying ≡ saying_at (facts_value facts) keys.Primary at }
    ensures { result ≡ unbound_shared (facts_value facts.entry) at }
{
    if saying.is_said {
        None
    } else {
        Some(unbound_at(facts, Key::Primary, false, at))
    }
}

/// The cause that the primary key has expired, if that is so.
fn expired_shared(facts: Facts<'_>, saying: Saying, at: u64) -> Option<Cause>
    requires { saying ≡ saying_at (facts_value facts) keys.Primary at }
    ensures { result ≡ expired_shared (facts_value facts.entry) at }
{
    if has_ended(saying.end, at) {
        Some(expired_by(facts, Key::Primary, false, at, saying.end))
    } else {
        None
    }
}

/// What is found of the primary key, once for all parts.
fn shared_of(facts: Facts<'_>, at: u64) -> Shared
    ensures { IsShared (facts_value facts.entry) at result }
{
    let primary = primary_of(facts, at);
    Shared {
        primary,
        unbound: unbound_shared(facts, primary.saying, at),
        expired: expired_shared(facts, primary.saying, at),
    }
}

/// The cause that a key is revoked, by the first revocation of it.
fn revoked_with(key: Key, revocation: Option<Revocation>) -> Cause
    ensures { result ≡ revoked_with key revocation }
{
    match revocation {
        Some(revocation) => Cause {
            date: revocation.made,
            spot: Some(revocation.spot),
            ..of_key(Why::Revoked, revoked_key(key, revocation), false)
        },
        None => of_key(Why::Revoked, key, false),
    }
}

/// The key that a revocation revokes: the primary key, or this one.
fn revoked_key(key: Key, revocation: Revocation) -> Key
    ensures { result ≡ (if revocation.is_of_primary then keys.Primary else key) }
{
    if revocation.is_of_primary {
        Key::Primary
    } else {
        key
    }
}

/// The cause that nothing speaks for a key, by statements that are enough for it.
fn unbound_now(facts: Facts<'_>, part: Facts<'_>, key: Key, shared: Shared, at: u64) -> Cause
    requires shared { IsShared (facts_value facts) at shared }
    requires part { AreEnoughFor (facts_value facts) key at (facts_value part) }
    ensures { result ≡ unbound_at (facts_value facts.entry)
        (unbound_key (facts_value facts.entry) key at) false at }
{
    match shared.unbound {
        Some(cause) => cause,
        None => unbound_at(part, key, false, at),
    }
}

/// The cause that a key has expired of which this is said, by statements that are enough for it.
fn expired_now(
    facts: Facts<'_>,
    part: Facts<'_>,
    key: Key,
    shared: Shared,
    own: Saying,
    at: u64,
) -> Cause
    requires shared { IsShared (facts_value facts) at shared }
    requires part { AreEnoughFor (facts_value facts) key at (facts_value part) }
    requires own { own ≡ saying_at (facts_value facts) key at }
    ensures { result ≡ expired_at (facts_value facts.entry)
        (expired_key (facts_value facts.entry) key at) false at }
{
    match shared.expired {
        Some(cause) => cause,
        None => expired_by(part, key, false, at, own.end),
    }
}

/// What makes a key of no use by this reason, which is the first, by statements that are enough for
/// it, what is said of it, and the first revocation of it.
fn cause_now(
    facts: Facts<'_>,
    part: Facts<'_>,
    key: Key,
    shared: Shared,
    own: Saying,
    revocation: Option<Revocation>,
    at: u64,
    why: Why,
) -> Cause
    requires shared { IsShared (facts_value facts) at shared }
    requires part { AreEnoughFor (facts_value facts) key at (facts_value part) }
    requires own { own ≡ saying_at (facts_value facts) key at }
    requires revocation { revocation ≡ first_revocation key (facts_value facts).statements }
    requires why { unusable (facts_value facts) key at ≡ Some why }
    ensures { result ≡ cause_by (facts_value facts.entry) key at at why }
{
    match why {
        Why::Revoked => revoked_with(key, revocation),
        Why::Early => early_by(facts, early_key(facts, key, at)),
        Why::Unbound => unbound_now(facts, part, key, shared, at),
        Why::Expired => expired_now(facts, part, key, shared, own, at),
        _ => cause_by(facts, key, at, at, why),
    }
}

/// What makes a key of no use, if it is of none, by statements that are enough for it, what is said
/// of it, and the first revocation of it.
#[tactic(auto, using(crate::proofs::Revocations::revoked_first))]
fn key_cause(
    facts: Facts<'_>,
    part: Facts<'_>,
    key: Key,
    shared: Shared,
    own: Saying,
    revocation: Option<Revocation>,
    at: u64,
) -> Option<Cause>
    requires shared { IsShared (facts_value facts) at shared }
    requires part { AreEnoughFor (facts_value facts) key at (facts_value part) }
    requires own { own ≡ saying_at (facts_value facts) key at }
    requires revocation { revocation ≡ first_revocation key (facts_value facts).statements }
    ensures { result ≡ unusable_cause (facts_value facts.entry) key at }
{
    let is_revoked = revocation.is_some();
    match unusable(facts, key, shared.primary.saying, own, is_revoked, at) {
        Some(why) => Some(cause_now(facts, part, key, shared, own, revocation, at, why)),
        None => None,
    }
}

/// What makes the primary key of no use, if it is of none.
fn primary_cause(facts: Facts<'_>, shared: Shared, at: u64) -> Option<Cause>
    requires { IsShared (facts_value facts) at shared }
    ensures { result ≡ unusable_cause (facts_value facts.entry) keys.Primary at }
{
    let Primary { saying, revocation } = shared.primary;
    key_cause(facts, facts, Key::Primary, shared, saying, revocation, at)
}

/// What makes the subkey of a part of no use that was created then, if it is of none.
#[tactic(auto, using(crate::proofs::Parts::same_saying))]
fn subkey_cause(
    facts: Facts<'_>,
    shared: Shared,
    part: Part<'_>,
    created: u32,
    at: u64,
) -> Option<Cause>
    requires shared { IsShared (facts_value facts) at shared }
    requires enough { AreEnough (facts_value facts).statements part }
    ensures { result ≡
        unusable_cause (facts_value facts.entry) (keys.Subkey part.entry.number created) at }
{
    let Part {
        number,
        statements,
        earlier,
    } = part;
    let key = Key::Subkey { number, created };
    let own = subkey_saying(statements, number, created, at);
    let revocation = earlier
        .or(first_revocation(statements, key))
        .or(shared.primary.revocation);
    let part = Facts {
        statements,
        ..facts
    };
    key_cause(facts, part, key, shared, own, revocation, at)
}

/// What makes a component of no use that is a key, if it is of none, by a part that is enough for
/// it.
fn part_cause(
    facts: Facts<'_>,
    shared: Shared,
    part: Part<'_>,
    component: Component<'_>,
    at: u64,
) -> Option<Cause>
    requires shared { IsShared (facts_value facts) at shared }
    requires enough { AreEnough (facts_value facts).statements part }
    ensures { result ≡ part_cause (facts_value facts.entry) at
        (subkey_at part.entry.number (Some (component_of component.entry))) }
{
    match component.head().head() {
        Head::Subkey(key) => subkey_cause(facts, shared, part, created_of(key), at),
        Head::UserId(_) | Head::Attribute(_) => None,
    }
}

/// Adds what makes components of no use that are keys. Fails only when out of memory.
fn add_components(
    causes: &mut Vec<Option<Cause>>,
    facts: Facts<'_>,
    shared: Shared,
    mut components: Components<'_>,
    at: u64,
) -> Result<(), OutOfMemory>
    requires shared { IsShared (facts_value facts) at shared }
    requires few { length (flat_map component_packets (components_left components)) < 2 ^ 64 }
    ensures { OnOk result (causes.new.items ≡ causes.old.items
        ++ causes_from (facts_value facts.entry) at 0 (components_left components.entry)) }
{
    let mut walk = Walk::new(facts.statements);
    let mut number = 0usize;
    'components: while let Some(component) = components.next() {
        let (part, next) = walk.next(number);
        causes.push(part_cause(facts, shared, part, component, at))?;
        walk = next;
        number += 1;
    }
    Ok(())
}

/// What makes each key of a certificate of no use at a time, in seconds since 1970: the primary
/// key, and then each component in order, with None for a key that is of use, and for what isn't a
/// key. The facts are what the certificate's signatures say.
///
/// The work is linear in the numbers of components and of statements, as that of [`part_states`]
/// is. Fails only when out of memory.
///
/// [`part_states`]: crate::part_states
pub fn part_causes(
    alloc: Global,
    facts: Facts<'_>,
    certificate: &Certificate,
    at: u64,
) -> Result<Vec<Option<Cause>>, OutOfMemory>
    ensures { IfOk result (λ v. v.items
        ≡ causes_of (facts_value facts.entry) certificate.now at) }
{
    let shared = shared_of(facts, at);
    let mut causes = Vec::new(alloc);
    causes.push(primary_cause(facts, shared, at))?;
    add_components(&mut causes, facts, shared, certificate.components(), at)?;
    Ok(causes)
}
