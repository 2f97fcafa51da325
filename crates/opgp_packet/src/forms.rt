//! The forms of subpacket data. Each function returns None only if the octets don't have its form.

ghost use Rattle.std.specs.Prelude.{◌≡◌, ◌≤◌, length, option_map, IfSome, IfNone, ℕ, List};
ghost use Rattle.opgp_octets.specs.Octets.{IsBodySized};
ghost use Rattle.opgp_packet.specs.MeaningReading.{number_in, one_in, two_in, ended_in};
ghost use Rattle.opgp_packet.specs.MeaningReading.{behind_one_in, behind_two_in, revoker_in};
ghost use Rattle.opgp_packet.specs.MeaningReading.{eight_in, notation_in, named_in, pairs_in};

use crate::sub_meaning::KeyId8;
use opgp_octets::{u16_at, u32_at};

/// A number of four octets.
pub(crate) fn number(o: &[u8]) -> Option<u32>
    ensures { result ≡ number_in o.now }
{
    match o {
        [a, b, c, d] => Some(u32::from_be_bytes([*a, *b, *c, *d])),
        _ => None,
    }
}

/// One octet.
pub(crate) fn one(o: &[u8]) -> Option<u8>
    ensures { result ≡ one_in o.now }
{
    match o {
        [n] => Some(*n),
        _ => None,
    }
}

/// Two octets.
pub(crate) fn two(o: &[u8]) -> Option<(u8, u8)>
    ensures { result ≡ two_in o.now }
{
    match o {
        [first, second] => Some((*first, *second)),
        _ => None,
    }
}

/// A text, without the octet 0 that ends it.
pub(crate) fn ended_by_zero(o: &[u8]) -> Option<&[u8]>
    ensures { option_map (λ x. x.now) result ≡ ended_in o.now }
{
    match o {
        [text @ .., 0] => Some(text),
        _ => None,
    }
}

/// An octet, and what follows.
pub(crate) fn behind_one(o: &[u8]) -> Option<(u8, &[u8])>
    ensures { option_map (λ x. (x.0, x.1.now)) result ≡ behind_one_in o.now }
{
    match o {
        [first, rest @ ..] => Some((*first, rest)),
        _ => None,
    }
}

/// Two octets, and what follows.
pub(crate) fn behind_two(o: &[u8]) -> Option<(u8, u8, &[u8])>
    ensures { option_map (λ x. (x.0, x.1, x.2.now)) result ≡ behind_two_in o.now }
{
    match o {
        [first, second, rest @ ..] => Some((*first, *second, rest)),
        _ => None,
    }
}

/// A revoker's class, algorithm and fingerprint, which has 20 octets.
pub(crate) fn revoker(o: &[u8]) -> Option<(u8, u8, &[u8])>
    ensures { option_map (λ x. (x.0, x.1, x.2.now)) result ≡ revoker_in o.now }
{
    match behind_two(o) {
        Some((class, algorithm, fingerprint)) => {
            if fingerprint.len() == 20 {
                Some((class, algorithm, fingerprint))
            } else {
                None
            }
        }
        None => None,
    }
}

/// A key ID.
pub(crate) fn key_id(o: &[u8]) -> Option<KeyId8>
    ensures { result ≡ eight_in o.now }
{
    if o.len() != 8 {
        return None;
    }
    let mut id = [0; 8];
    id.copy_from_slice(o);
    Some(id)
}

/// The flags, the name and the value of a notation, which end with the octets.
pub(crate) fn notation(o: &[u8]) -> Option<(u32, &[u8], &[u8])>
    ensures { option_map (λ x. (x.0, x.1.now, x.2.now)) result ≡ notation_in o.now }
{
    let (flags, rest) = u32_at(o)?;
    let (name_size, rest) = u16_at(rest)?;
    let (value_size, rest) = u16_at(rest)?;
    let name_size = usize::from(name_size);
    if rest.len() != name_size + usize::from(value_size) {
        return None;
    }
    let (name, value) = rest.split_at(name_size);
    Some((flags, name, value))
}

/// A version and a fingerprint of its size.
pub(crate) fn named(o: &[u8]) -> Option<(u8, &[u8])>
    ensures { option_map (λ x. (x.0, x.1.now)) result ≡ named_in o.now }
{
    let (version, fingerprint) = behind_one(o)?;
    match (version, fingerprint.len()) {
        (4, 20) | (6, 32) => Some((version, fingerprint)),
        _ => None,
    }
}

/// Pairs of octets.
pub(crate) fn pairs(o: &[u8]) -> Option<&[u8]>
    ensures { option_map (λ x. x.now) result ≡ pairs_in o.now }
{
    if o.len() % 2 == 0 { Some(o) } else { None }
}
