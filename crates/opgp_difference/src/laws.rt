//! What the definitions imply.

ghost use Rattle.std.specs.Prelude.{◌≡◌, []};
ghost use Rattle.opgp_keyring.specs.Keyring.{KeyringValue};
ghost use Rattle.opgp_difference.specs.Difference.{applied, told};
ghost use Rattle.opgp_difference.specs.Entries.{Entry, is_in, standing_in};

/// The difference applied to the old keyring gives the entries of the new one, and no others.
pub fn applied_is_the_new_keyring()
    ensures { (old new : KeyringValue) (e : Entry)
        → is_in (applied old new) e ≡ is_in (standing_in new) e }
{}

/// Where nothing is gone and nothing is new, the keyrings have the same entries.
pub fn nothing_told_is_nothing_changed()
    ensures { (old new : KeyringValue) (e : Entry) → told new old ≡ [] → told old new ≡ []
        → is_in (standing_in old) e ≡ is_in (standing_in new) e }
{}

/// Where the keyrings have the same entries, nothing is gone and nothing is new.
pub fn nothing_changed_is_nothing_told()
    ensures { (old new : KeyringValue)
        → ((e : Entry) → is_in (standing_in old) e ≡ is_in (standing_in new) e)
        → told old new ≡ [] }
{}
