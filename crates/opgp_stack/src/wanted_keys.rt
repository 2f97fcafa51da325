//! Keys that are looked for by their names, among those of the certificates that come.

ghost use Rattle.std.specs.Prelude.{◌≡◌, ◌++◌, ◌||◌, ◌∷◌, [], ℕ, List, Some, false, IfOk, OnOk};
ghost use Rattle.std.specs.Prelude.{if◌then◌else◌, is_some, map, option_map};
ghost use Rattle.std.specs.List.{flat_map, list_any};
ghost use Rattle.std.specs.Option.{unwrap_or};
ghost use Rattle.std.specs.Str.{bytes_eq};
ghost use Rattle.opgp_report.specs.First.{print_of};
ghost use Rattle.opgp_report.specs.Report.{certificate_keys, subkey_bodies};
ghost use Rattle.opgp_keyring.specs.Grouped.{component_of, components_left};
ghost use Rattle.opgp_stack.specs.WantedKeys.{AreNotes, note_of};
ghost use Rattle.opgp_stack.specs.KeyName.{has_any, has_one_of, missing_from, name_octets};

use crate::key_name::{KeyName, print_of};
use opgp_hash::Fingerprint;
use opgp_keyring::{Certificate, Component, Components, Head};
use opgp_octets::OutOfMemory;
use std::alloc::Global;
use std::collections::BTreeMap;

/// The names of keys, and of each whether a key that came has it. To look for a key's names takes
/// time in the logarithm of their number.
#[derive(Drop)]
pub(crate) struct WantedKeys<'a> {
    names: &'a [KeyName],
    // By the octets of a name.
    notes: BTreeMap<&'a [u8], bool>,
}

impl<'a> WantedKeys<'a> {
    /// These names, where no key has come yet. Fails only when out of memory.
    pub(crate) fn new(alloc: Global, names: &'a [KeyName]) -> Result<WantedKeys<'a>, OutOfMemory>
        ensures names { IfOk result (λ w. w.names ≡ names.entry) }
        ensures notes { IfOk result (λ w.
            AreNotes (map name_octets names.entry.now) [] w.notes) }
    {
        let mut notes = BTreeMap::new(alloc);
        let mut rest = names;
        'names: while let [name, more @ ..] = rest {
            want(&mut notes, name.octets())?;
            rest = more;
        }
        Ok(WantedKeys { names, notes })
    }

    /// Notes which of the names the keys of a certificate have. Whether they have one of them.
    pub(crate) fn note(&mut self, certificate: &Certificate) -> bool
        ensures names { self.new.names ≡ self.old.names }
        ensures noted { (names bodies : List (List ℕ)) → AreNotes names bodies self.old.notes
            → (result ≡ has_any names certificate.now)
            × AreNotes names (bodies ++ certificate_keys certificate.now) self.new.notes }
    {
        let primary = note_key(&mut self.notes, &print_of(&certificate.key()));
        let subkeys = note_subkeys(&mut self.notes, certificate.components());
        primary || subkeys
    }

    /// The number of the first of the names that isn't that of a key that came, from 0; None: each
    /// is.
    pub(crate) fn missing(&self) -> Option<usize>
        ensures { result ≡ missing_from
            (λ name. unwrap_or (note_of name self.now.notes) false) 0
            (map name_octets self.now.names.now) }
    {
        let mut number = 0usize;
        let mut rest = self.names;
        'names: while let [name, more @ ..] = rest {
            if !is_found(&self.notes, name.octets()) {
                return Some(number);
            }
            number += 1;
            rest = more;
        }
        None
    }
}

/// Looks for the key of a name too. Fails only when out of memory.
fn want<'a>(notes: &mut BTreeMap<&'a [u8], bool>, name: &'a [u8]) -> Result<(), OutOfMemory>
    ensures { OnOk result ((other : List ℕ) → note_of other notes.new
        ≡ (if bytes_eq name.now other then Some false else note_of other notes.old)) }
{
    notes.insert(name, false)?;
    Ok(())
}

/// Notes that a key has this name. Whether it is looked for.
fn note_name(notes: &mut BTreeMap<&[u8], bool>, name: &[u8]) -> bool
    ensures wanted { result ≡ is_some (note_of name.now notes.old) }
    ensures noted { (other : List ℕ) → note_of other notes.new
        ≡ option_map (λ had. had || bytes_eq name.now other) (note_of other notes.old) }
{
    match notes.get_mut(name) {
        Some(had) => {
            *had = true;
            true
        }
        None => false,
    }
}

/// Whether a key that came has this name.
fn is_found(notes: &BTreeMap<&[u8], bool>, name: &[u8]) -> bool
    ensures { result ≡ unwrap_or (note_of name.now notes.now) false }
{
    match notes.get(name) {
        Some(had) => *had,
        None => false,
    }
}

/// Notes which names the key with this fingerprint has. Whether it has one that is looked for.
fn note_key(notes: &mut BTreeMap<&[u8], bool>, print: &Fingerprint) -> bool
    ensures { (names bodies : List (List ℕ)) (body : List ℕ) → print.now ≡ print_of body
        → AreNotes names bodies notes.old → (result ≡ has_one_of names (print_of body))
        × AreNotes names (bodies ++ body ∷ []) notes.new }
{
    let by_print = note_name(notes, print.octets());
    let id = print.key_id();
    let by_id = note_name(notes, id.0.as_slice());
    by_print || by_id
}

/// Notes which names the key of a component has, if it is a subkey. Whether it has one that is
/// looked for.
fn note_component(notes: &mut BTreeMap<&[u8], bool>, component: Component<'_>) -> bool
    ensures { (names bodies : List (List ℕ)) → AreNotes names bodies notes.old
        → (result ≡ list_any (λ body. has_one_of names (print_of body))
        (subkey_bodies (component_of component.entry)))
        × AreNotes names (bodies ++ subkey_bodies (component_of component.entry)) notes.new }
{
    match component.head().head() {
        Head::Subkey(key) => note_key(notes, &print_of(&key)),
        _ => false,
    }
}

/// Notes which names the subkeys among components have. Whether they have one that is looked for.
fn note_subkeys(notes: &mut BTreeMap<&[u8], bool>, mut components: Components<'_>) -> bool
    ensures { (names bodies : List (List ℕ)) → AreNotes names bodies notes.old
        → (result ≡ list_any (λ body. has_one_of names (print_of body))
        (flat_map subkey_bodies (components_left components.entry)))
        × AreNotes names (bodies ++ flat_map subkey_bodies (components_left components.entry))
        notes.new }
{
    let mut any = false;
    'components: while let Some(component) = components.next() {
        let here = note_component(notes, component);
        any = any || here;
    }
    any
}
