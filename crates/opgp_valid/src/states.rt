//! How all parts of a certificate stand at a time.

ghost use Rattle.std.specs.Prelude.{◌≡◌, ◌++◌, ◌<◌, ◌^◌, length, IfOk, OnOk, Some};
ghost use Rattle.std.specs.List.{flat_map};
ghost use Rattle.opgp_keyring.specs.Grouped.{component_of, components_left};
ghost use Rattle.opgp_keyring.specs.Keyring.{component_packets};
ghost use Rattle.opgp_valid.specs.Facts.{facts_value};
ghost use Rattle.opgp_valid.specs.Judgement.{subkey_at};
ghost use Rattle.opgp_valid.specs.States.{IsOfPrimary, part_state, states_from, states_of};
ghost use Rattle.opgp_valid.specs.State.{identity_of, state_of};
ghost use Rattle.opgp_valid.specs.Walk.{AreEnough};
ghost use Rattle.opgp_valid.specs.declared.facts.Key.TheVariants as keys;

use crate::certified::created_of;
use crate::facts::{Facts, Key};
use crate::moment::{primary_saying, subkey_saying};
use crate::saying::Saying;
use crate::state::{
    IdentityState, KeyState, Revocation, first_revocation, identity_state, state_with,
};
use crate::walk::{Part, Walk};
use opgp_keyring::{Certificate, Component, Components, Head};
use opgp_octets::OutOfMemory;
use std::alloc::Global;

/// How a part of a certificate stands at a time.
#[derive(Clone, Copy, Debug, PartialEq, Eq)]
pub enum PartState {
    /// The primary key, or a subkey.
    Key(KeyState),
    /// A user ID or user attribute.
    Identity(IdentityState),
}

/// What is found of the primary key, once for all parts.
#[derive(Clone, Copy)]
pub(crate) struct Primary {
    pub(crate) saying: Saying,
    pub(crate) revocation: Option<Revocation>,
}

/// What is found of the primary key at a time.
pub(crate) fn primary_of(facts: Facts<'_>, at: u64) -> Primary
    ensures { IsOfPrimary (facts_value facts.entry) at result }
{
    Primary {
        saying: primary_saying(facts, at),
        revocation: first_revocation(facts.statements, Key::Primary),
    }
}

/// How the primary key stands.
fn primary_state(facts: Facts<'_>, primary: Primary, at: u64) -> KeyState
    requires { IsOfPrimary (facts_value facts) at primary }
    ensures { result ≡ state_of (facts_value facts.entry) keys.Primary at }
{
    let Primary { saying, revocation } = primary;
    state_with(facts, Key::Primary, saying, saying, revocation, at)
}

/// How the subkey of a part stands that was created then.
#[tactic(auto, using(crate::proofs::Parts::same_saying))]
fn subkey_state(
    facts: Facts<'_>,
    primary: Primary,
    part: Part<'_>,
    created: u32,
    at: u64,
) -> KeyState
    requires primary { IsOfPrimary (facts_value facts) at primary }
    requires enough { AreEnough (facts_value facts).statements part }
    ensures { result ≡
        state_of (facts_value facts.entry) (keys.Subkey part.entry.number created) at }
{
    let Part {
        number,
        statements,
        earlier,
    } = part;
    let key = Key::Subkey { number, created };
    let own = subkey_saying(statements, number, created, at);
    let revocation = earlier
        .or(first_revocation(statements, key))
        .or(primary.revocation);
    state_with(facts, key, primary.saying, own, revocation, at)
}

/// How the user ID or attribute of a part stands.
#[tactic(auto, using(crate::proofs::Parts::same_identity))]
fn identity_of(facts: Facts<'_>, part: Part<'_>, at: u64) -> IdentityState
    requires { AreEnough (facts_value facts).statements part }
    ensures { result ≡ identity_of (facts_value facts.entry) part.entry.number at }
{
    let facts = Facts {
        statements: part.statements,
        ..facts
    };
    identity_state(facts, part.number, at)
}

/// How a component stands, by a part that is enough for it.
fn part_state(
    facts: Facts<'_>,
    primary: Primary,
    part: Part<'_>,
    component: Component<'_>,
    at: u64,
) -> PartState
    requires primary { IsOfPrimary (facts_value facts) at primary }
    requires enough { AreEnough (facts_value facts).statements part }
    ensures { result ≡ part_state (facts_value facts.entry) at
        (subkey_at part.entry.number (Some (component_of component.entry))) part.entry.number }
{
    match component.head().head() {
        Head::Subkey(key) => {
            PartState::Key(subkey_state(facts, primary, part, created_of(key), at))
        }
        Head::UserId(_) | Head::Attribute(_) => PartState::Identity(identity_of(facts, part, at)),
    }
}

/// Adds how components stand. Fails only when out of memory.
fn add_components(
    states: &mut Vec<PartState>,
    facts: Facts<'_>,
    primary: Primary,
    mut components: Components<'_>,
    at: u64,
) -> Result<(), OutOfMemory>
    requires primary { IsOfPrimary (facts_value facts) at primary }
    requires few { length (flat_map component_packets (components_left components)) < 2 ^ 64 }
    ensures { OnOk result (states.new.items ≡ states.old.items
        ++ states_from (facts_value facts.entry) at 0 (components_left components.entry)) }
{
    let mut walk = Walk::new(facts.statements);
    let mut number = 0usize;
    'components: while let Some(component) = components.next() {
        let (part, next) = walk.next(number);
        states.push(part_state(facts, primary, part, component, at))?;
        walk = next;
        number += 1;
    }
    Ok(())
}

/// How all parts of a certificate stand at a time, in seconds since 1970: the primary key, and then
/// each component in order, as [`key_state`] and [`identity_state`] have it. The facts are what the
/// certificate's signatures say.
///
/// The work is linear in the numbers of components and of statements, if these are in the order of
/// their components, those on the primary key first, as [`Certified`] gathers them. That isn't
/// relied on: it is looked at first, and in any other order each part is looked for among all
/// statements. Fails only when out of memory.
///
/// [`Certified`]: crate::Certified
/// [`identity_state`]: crate::identity_state
/// [`key_state`]: crate::key_state
pub fn part_states(
    alloc: Global,
    facts: Facts<'_>,
    certificate: &Certificate,
    at: u64,
) -> Result<Vec<PartState>, OutOfMemory>
    ensures { IfOk result (λ v. v.items
        ≡ states_of (facts_value facts.entry) certificate.now at) }
{
    let primary = primary_of(facts, at);
    let mut states = Vec::new(alloc);
    states.push(PartState::Key(primary_state(facts, primary, at)))?;
    add_components(&mut states, facts, primary, certificate.components(), at)?;
    Ok(states)
}
