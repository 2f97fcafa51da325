//! Whether a key is believed for a signature.

ghost use Rattle.std.specs.Prelude.{◌≡◌};
ghost use Rattle.std.specs.List.{list_any};
ghost use Rattle.opgp_valid.specs.Facts.{facts_value};
ghost use Rattle.opgp_valid.specs.Standing.{created_of, revokes, standing_of};

use crate::facts::{Facts, Key};
use crate::moment::key_at;
use crate::statement::Statement;
use crate::why::Why;
use opgp_octets::SignatureType;

/// Whether a signature revokes a key.
pub(crate) fn revokes(key: Key, statement: &Statement) -> bool
    ensures { result ≡ revokes key statement.now }
{
    match statement.kind {
        SignatureType::KeyRevocation => true,
        SignatureType::SubkeyRevocation => match (key, statement.component) {
            (Key::Subkey { number, .. }, Some(component)) => component == number,
            _ => false,
        },
        _ => false,
    }
}

/// When a key was created, in seconds since 1970.
pub(crate) fn created_of(facts: Facts<'_>, key: Key) -> u32
    ensures { result ≡ created_of (facts_value facts.entry) key }
{
    match key {
        Key::Primary => facts.created,
        Key::Subkey { created, .. } => created,
    }
}

/// Whether one of these signatures revokes a key.
pub(crate) fn is_revoked(statements: &[Statement], key: Key) -> bool
    ensures { result ≡ list_any (revokes key) statements.now }
{
    let mut rest = statements;
    'statements: while let [statement, more @ ..] = rest {
        if revokes(key, statement) {
            return true;
        }
        rest = more;
    }
    false
}

/// Whether a key is believed for a signature over a document that was made then and is read now, in
/// seconds since 1970: None if it is; else the first reason why not, in the order of [`Why`].
/// Allocates nothing; the work is linear in the number of statements.
///
/// It is believed if all of these hold, by each section of RFC 9580 that is named:
///
/// - The signature wasn't made later than now.
/// - No genuine revocation is there by the primary key or by a key that may revoke it, of the
///   primary key or of the subkey (5.2.1.11, 5.2.1.12, 5.2.3.23), whenever it was made.
/// - The signature wasn't made before the key was created, nor before the primary key was.
/// - When the signature was made, and now, there is a good direct key signature or, in version 4, a
///   good certification of a user ID by the primary key itself (10.1). The newest of each that
///   counts is heard (5.2.3.10), and of equally new ones each. Heard too, good or not, are the
///   newest of all direct key signatures and that of all certifications; and, of the newest
///   certifications of each user ID and attribute, the newest that says that it is the primary one
///   (5.2.3.27), and the newest that lets the key expire.
/// - A certification that the primary key has revoked (5.2.1.13) is heard only if nothing else
///   speaks for the primary key.
/// - By none of those has the primary key expired (5.2.3.13).
/// - For a subkey there is a good binding by the primary key, at both times (5.2.1.8). The newest
///   of these and the newest of all are heard, and by neither has it expired.
/// - Something good that is heard for the key has key flags, and all that has lets it sign
///   (5.2.3.29).
/// - Each heard binding has a good signature by the subkey embedded (5.2.1.9).
pub fn standing(facts: Facts<'_>, key: Key, made: u64, now: u64) -> Option<Why>
    ensures { result ≡ standing_of (facts_value facts.entry) key made now }
{
    if made > now {
        return Some(Why::Future);
    }
    if is_revoked(facts.statements, key) {
        return Some(Why::Revoked);
    }
    if made < u64::from(facts.created) || made < u64::from(created_of(facts, key)) {
        return Some(Why::Early);
    }
    let then = key_at(facts, key, made);
    let today = key_at(facts, key, now);
    if then.is_unbound || today.is_unbound {
        Some(Why::Unbound)
    } else if then.is_expired || today.is_expired {
        Some(Why::Expired)
    } else if then.may_not_sign || today.may_not_sign {
        Some(Why::Flags)
    } else if then.is_unbacked || today.is_unbacked {
        Some(Why::Back)
    } else {
        None
    }
}
