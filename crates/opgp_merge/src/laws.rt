//! What the definitions imply.

ghost use Rattle.std.specs.Prelude.{◌≡◌, ◌&&◌, ◌∷◌, [], not, true, ℕ, List, map, slice_get};
ghost use Rattle.std.specs.List.{Contains, enumerate_from, filter};
ghost use Rattle.std.specs.Option.{option_to_list};
ghost use Rattle.opgp_keyring.specs.Keyring.{ComponentValue, KeyringValue, IsKeyring};
ghost use Rattle.opgp_report.specs.Asked.{Asked, asked_of};
ghost use Rattle.opgp_report.specs.Report.{keys_in};
ghost use Rattle.opgp_merge.specs.Chosen.{chosen_keyring, components_from};
ghost use Rattle.opgp_merge.specs.Chosen.{is_attribute, is_chosen, is_everything, is_user_id};
ghost use Rattle.opgp_merge.specs.Merged.{merged_of};
ghost use Rattle.opgp_merge.specs.declared.choice.Choice.{Choice};

/// Merging a keyring gives a keyring.
pub fn merged_keyrings_are_keyrings()
    ensures { (r : KeyringValue) → IsKeyring r → IsKeyring (merged_of r) }
{}

/// Merging twice is merging once.
#[tactic(auto, using(crate::proofs::Twice::merged_twice))]
pub fn merged_twice()
    ensures { (r : KeyringValue) → merged_of (merged_of r) ≡ merged_of r }
{}

/// The signatures of a merged keyring hash what those of the keyring did, and nothing else.
pub fn merged_keyrings_ask_the_same()
    ensures all { (r : KeyringValue) (a : Asked) → Contains (asked_of r) a
        → Contains (asked_of (merged_of r)) a }
    ensures only { (r : KeyringValue) (a : Asked) → Contains (asked_of (merged_of r)) a
        → Contains (asked_of r) a }
{}

/// A merged keyring has the keys of the keyring, by their bodies, and no others.
pub fn merged_keyrings_have_the_same_keys()
    ensures all { (r : KeyringValue) (body : List ℕ) → Contains (keys_in r) body
        → Contains (keys_in (merged_of r)) body }
    ensures only { (r : KeyringValue) (body : List ℕ) → Contains (keys_in (merged_of r)) body
        → Contains (keys_in r) body }
{}

/// What is chosen of a keyring is a keyring.
pub fn chosen_keyrings_are_keyrings()
    ensures { (choice : Choice) (r : KeyringValue) → IsKeyring r
        → IsKeyring (chosen_keyring choice r) }
{}

/// The choice of everything leaves out nothing.
#[tactic(auto, using(crate::proofs::Staying::all_stays))]
pub fn everything_stays()
    ensures { (choice : Choice) (r : KeyringValue) → is_everything choice ≡ true
        → chosen_keyring choice r ≡ r }
{}

/// Of the user IDs of a certificate, numbered from 0, those of the chosen numbers stay, in order.
#[tactic(auto, using(crate::proofs::Staying::chosen_stay))]
pub fn chosen_user_ids_stay()
    ensures { (choice : Choice) (cs : List ComponentValue)
        → filter is_user_id (components_from 0 choice cs)
        ≡ map (λ p. p.1) (filter (λ p. is_chosen choice.user_ids.now p.0)
        (enumerate_from 0 (filter is_user_id cs))) }
{}

/// Of the user IDs of a certificate the one of the chosen number stays, if it has one.
#[tactic(auto, using(crate::proofs::Staying::one_stays))]
pub fn one_user_id_stays()
    ensures { (choice : Choice) (n : ℕ) (cs : List ComponentValue) → choice.user_ids.now ≡ n ∷ []
        → filter is_user_id (components_from 0 choice cs)
        ≡ option_to_list (slice_get (filter is_user_id cs) n) }
{}

/// Of the other components of a certificate all stay, or all but its user attributes.
#[tactic(auto, using(crate::proofs::Staying::others_stay))]
pub fn other_components_stay()
    ensures { (choice : Choice) (cs : List ComponentValue)
        → filter (λ c. not (is_user_id c)) (components_from 0 choice cs)
        ≡ filter (λ c. not (is_user_id c) && not (choice.no_attributes && is_attribute c)) cs }
{}
