//! The names of keys as text.

ghost use Rattle.std.specs.Prelude.{◌≡◌, ◌<◌, ◌≤◌, ℕ, List, Ok, IfNone, IfSome, length, take};
ghost use Rattle.hex.specs.Hex.{decode_of};
ghost use Rattle.opgp_stack.specs.KeyText.{AreDigits, behind_prefix, without_blanks};
ghost use Rattle.opgp_stack.specs.declared.key_name.KeyName.{KeyName};
ghost use Rattle.opgp_stack.specs.declared.key_text.TheConstants.{MOST};

use crate::key_name::KeyName;
use hex::decode_to_slice;

/// The most digits of a name, those of a fingerprint of version 6, with `0x` in front.
const MOST: usize = 66;

/// The digits of a name, without blanks.
#[derive(Clone, Copy)]
pub(crate) struct Digits {
    room: [u8; MOST],
    size: usize,
    ghost within: { size ≤ MOST },
}

impl Digits {
    ghost use Rattle.opgp_stack.specs.Digits.{digits_in};

    /// What a text has beside blanks; None: more than the digits of any name.
    pub(crate) fn of(text: &[u8]) -> Option<Digits>
        ensures some { IfSome result (λ d. digits_in d ≡ without_blanks text.now) }
        ensures none { IfNone result (MOST < length (without_blanks text.now)) }
    {
        let mut room = [0; MOST];
        let mut size = 0;
        let mut rest = text;
        'octets: while let [octet, more @ ..] = rest {
            if *octet != b' ' {
                if size == MOST {
                    return None;
                }
                room[size] = *octet;
                size += 1;
            }
            rest = more;
        }
        Some(Digits { room, size })
    }

    /// The digits, without `0x` in front.
    pub(crate) fn digits(&self) -> &[u8]
        ensures { result.now ≡ behind_prefix (digits_in self.now) }
    {
        let digits = &self.room[..self.size];
        if digits.starts_with(b"0x") || digits.starts_with(b"0X") {
            &digits[2..]
        } else {
            digits
        }
    }
}

/// The octets that so many digits are.
fn octets_of<const N: usize>(digits: &[u8]) -> Option<[u8; N]>
    ensures some { IfSome result (λ octets. decode_of digits.now ≡ Ok octets) }
    ensures sized { IfSome result (λ octets. length octets ≡ N) }
    ensures none { IfNone result ((octets : List ℕ) → length octets ≡ N
        → decode_of digits.now ≡ Ok octets → ⊥) }
{
    let mut octets = [0; N];
    match decode_to_slice(digits, &mut octets) {
        Ok(()) => Some(octets),
        Err(_) => None,
    }
}

/// The name that has these digits.
pub(crate) fn name_of(digits: &[u8]) -> Option<KeyName>
    ensures some { IfSome result (AreDigits digits.now) }
    ensures none { IfNone result ((key : KeyName) → AreDigits digits.now key → ⊥) }
{
    if let Some(octets) = octets_of::<8>(digits) {
        return Some(KeyName::Id(octets));
    }
    if let Some(octets) = octets_of::<20>(digits) {
        return Some(KeyName::Four(octets));
    }
    match octets_of::<32>(digits) {
        Some(octets) => Some(KeyName::Six(octets)),
        None => None,
    }
}
