//! What the subpackets of an area say.

ghost use Rattle.std.specs.Prelude.{◌≡◌, MatchOption};
ghost use Rattle.std.specs.Option.{option_map};
ghost use Rattle.opgp_octets.specs.declared.subpacket_kind.SubpacketKind.TheVariants as kinds;
ghost use Rattle.opgp_packet.specs.Forms as form;
ghost use Rattle.opgp_octets.specs.SubpacketKind.{subpacket_kind_of};
ghost use Rattle.opgp_packet.specs.MeaningReading.{meaning_of};
ghost use Rattle.opgp_packet.specs.SubView.{fields_of, kind_shown, sub_shown};
ghost use Rattle.opgp_packet.specs.Subs.{subs_to_come};
ghost use Rattle.opgp_valid.specs.Subpackets.{has_flags, has_unfit, has_unknown_critical};
ghost use Rattle.opgp_valid.specs.Subpackets.{is_main_in, is_nonzero, is_unfit, is_unknown_critical};
ghost use Rattle.opgp_valid.specs.Subpackets.{lasts_in, states_time};
ghost use Rattle.opgp_valid.specs.Subpackets.{made_in, reason_in, reason_stated, revoker_stated};
ghost use Rattle.opgp_valid.specs.Subpackets.{shorter, uses_in_area, uses_stated};

use crate::uses::Uses;
use opgp_octets::SubpacketKind;
use opgp_packet::{SubMeaning, SubView, Subs};

/// The number of seconds that a subpacket states, if it is of this kind, and has 4 octets.
fn number_stated(kind: SubpacketKind, subpacket: SubView<'_>) -> Option<u32>
    ensures { result ≡ fields_of kind form.number (sub_shown subpacket.entry) }
{
    if subpacket.kind() != kind.number() {
        return None;
    }
    match subpacket.octets() {
        [a, b, c, d] => Some(u32::from_be_bytes([*a, *b, *c, *d])),
        _ => None,
    }
}

/// When a signature with this hashed area was made, in seconds since 1970: the one creation time in
/// it (RFC 9580, 5.2.3.11); None if there is none, or several.
pub fn made_in(subpackets: Subs<'_>) -> Option<u32>
    ensures { result ≡ made_in (subs_to_come subpackets.entry) }
{
    let mut found = None;
    for subpacket in subpackets {
        if let Some(time) = number_stated(SubpacketKind::Created, subpacket) {
            if found.is_some() {
                return None;
            }
            found = Some(time);
        }
    }
    found
}

/// When a subpacket says that its signature was made, if it is a creation time.
pub(crate) fn time_stated(subpacket: SubView<'_>) -> Option<u32>
    ensures { result ≡ fields_of kinds.Created form.number (sub_shown subpacket.entry) }
{
    number_stated(SubpacketKind::Created, subpacket)
}

/// Whether a creation time is in this hashed area (RFC 9580, 5.2.3.11).
pub(crate) fn states_time(subpackets: Subs<'_>) -> bool
    ensures { result ≡ states_time (subs_to_come subpackets.entry) }
{
    for subpacket in subpackets {
        if time_stated(subpacket).is_some() {
            return true;
        }
    }
    false
}

/// The shorter of two lengths of time; 0 is for ever.
fn shorter(a: u32, b: u32) -> u32
    ensures { result ≡ shorter a b }
{
    if a == 0 {
        b
    } else if b == 0 {
        a
    } else {
        a.min(b)
    }
}

/// The shortest length of time that subpackets of this kind state, in seconds; 0 for ever.
fn lasts_in(kind: SubpacketKind, subpackets: Subs<'_>) -> u32
    ensures { result ≡ lasts_in kind (subs_to_come subpackets.entry) }
{
    let mut shortest = 0;
    for subpacket in subpackets {
        if let Some(lasts) = number_stated(kind, subpacket) {
            shortest = shorter(shortest, lasts);
        }
    }
    shortest
}

/// After how many seconds a signature with this hashed area expires (RFC 9580, 5.2.3.18); 0 for
/// never.
pub fn signature_lasts(subpackets: Subs<'_>) -> u32
    ensures { result ≡ lasts_in kinds.Expires (subs_to_come subpackets.entry) }
{
    lasts_in(SubpacketKind::Expires, subpackets)
}

/// After how many seconds the key expires by a signature with this hashed area (RFC 9580,
/// 5.2.3.13); 0 for never.
pub fn key_lasts(subpackets: Subs<'_>) -> u32
    ensures { result ≡ lasts_in kinds.KeyExpires (subs_to_come subpackets.entry) }
{
    lasts_in(SubpacketKind::KeyExpires, subpackets)
}

/// What a subpacket lets a key be used for, if it is key flags (RFC 9580, 5.2.3.29).
fn uses_stated(subpacket: SubView<'_>) -> Option<Uses>
    ensures { result ≡ uses_stated (sub_shown subpacket.entry) }
{
    if subpacket.kind() != SubpacketKind::KeyFlags.number() {
        return None;
    }
    match subpacket.octets() {
        [flags, ..] => Some(Uses::of(*flags)),
        [] => Some(Uses::of(0)),
    }
}

/// What the key flags in this hashed area let a key be used for: what all of them allow (RFC 9580,
/// 5.2.3.29); everything if there are none.
#[tactic(auto, using(crate::proofs::Sayings::both_assoc))]
pub fn uses_in_area(subpackets: Subs<'_>) -> Uses
    ensures { result ≡ uses_in_area (subs_to_come subpackets.entry) }
{
    let mut found = Uses::ALL;
    for subpacket in subpackets {
        if let Some(uses) = uses_stated(subpacket) {
            found = found.and(uses);
        }
    }
    found
}

/// Whether there are key flags in this hashed area (RFC 9580, 5.2.3.29).
pub fn has_flags(subpackets: Subs<'_>) -> bool
    ensures { result ≡ has_flags (subs_to_come subpackets.entry) }
{
    for subpacket in subpackets {
        if uses_stated(subpacket).is_some() {
            return true;
        }
    }
    false
}

/// Whether a subpacket says that its user ID is the primary one.
fn is_main_stated(subpacket: SubView<'_>) -> bool
    ensures { result
        ≡ is_nonzero (fields_of kinds.PrimaryUserId form.octet (sub_shown subpacket.entry)) }
{
    if subpacket.kind() != SubpacketKind::PrimaryUserId.number() {
        return false;
    }
    match subpacket.octets() {
        [octet] => *octet != 0,
        _ => false,
    }
}

/// Whether this hashed area says that its user ID is the primary one (RFC 9580, 5.2.3.27).
pub fn is_main_in(subpackets: Subs<'_>) -> bool
    ensures { result ≡ is_main_in (subs_to_come subpackets.entry) }
{
    for subpacket in subpackets {
        if is_main_stated(subpacket) {
            return true;
        }
    }
    false
}

/// Whether the data of a subpacket of an area hasn't the form of its kind.
pub fn has_unfit(subpackets: Subs<'_>) -> bool
    ensures { result ≡ has_unfit (subs_to_come subpackets.entry) }
{
    for subpacket in subpackets {
        if is_unfit(subpacket) {
            return true;
        }
    }
    false
}

/// Whether the data of a subpacket hasn't the form of its kind.
#[tactic(auto, unfolding(opgp_octets::specs::SubpacketKind::subpacket_kind_of))]
fn is_unfit(subpacket: SubView<'_>) -> bool
    ensures { result ≡ is_unfit (meaning_of
        (subpacket_kind_of (kind_shown (sub_shown subpacket.entry).kind))
        (sub_shown subpacket.entry).octets) }
{
    matches!(subpacket.meaning(), SubMeaning::Unfit)
}

/// The fingerprint of a key that may revoke, if a subpacket names one (RFC 9580, 5.2.3.23).
pub(crate) fn revoker_stated(subpacket: SubView<'_>) -> Option<&[u8]>
    ensures { option_map (λ o. o.now) result ≡ revoker_stated (sub_shown subpacket.entry) }
{
    if subpacket.kind() != SubpacketKind::RevocationKey.number() {
        return None;
    }
    match subpacket.octets() {
        [class, _algorithm, fingerprint @ ..] if *class >= 128 && fingerprint.len() == 20 => {
            Some(fingerprint)
        }
        _ => None,
    }
}

/// The code of the reason for a revocation, if a subpacket states one (RFC 9580, 5.2.3.31).
fn reason_stated(subpacket: SubView<'_>) -> Option<u8>
    ensures { result ≡ reason_stated (sub_shown subpacket.entry) }
{
    if subpacket.kind() != SubpacketKind::RevocationReason.number() {
        return None;
    }
    match subpacket.octets() {
        [code, ..] => Some(*code),
        [] => None,
    }
}

/// The code of the first reason for a revocation in an area (RFC 9580, 5.2.3.31).
pub fn reason_in(subpackets: Subs<'_>) -> Option<u8>
    ensures { result ≡ reason_in (subs_to_come subpackets.entry) }
{
    for subpacket in subpackets {
        if let Some(code) = reason_stated(subpacket) {
            return Some(code);
        }
    }
    None
}

/// Whether a subpacket is critical, and its kind is unknown, its data hasn't the form of its kind,
/// or it is a notation: of these none is known here (RFC 9580, 5.2.3.7, 5.2.3.24).
#[tactic(auto, unfolding(opgp_octets::specs::SubpacketKind::subpacket_kind_of))]
fn is_unknown_critical(subpacket: SubView<'_>) -> bool
    ensures { result ≡ is_unknown_critical (sub_shown subpacket.entry) }
{
    if !subpacket.critical() {
        return false;
    }
    if matches!(
        SubpacketKind::from(subpacket.kind()),
        SubpacketKind::Notation
    ) {
        return true;
    }
    matches!(subpacket.meaning(), SubMeaning::Unfit | SubMeaning::Unknown)
}

/// Whether an area has a critical subpacket of an unknown kind or form, or a critical notation.
/// Such a signature is to be considered in error (RFC 9580, 5.2.3.7). Allocates nothing.
pub fn has_unknown_critical(subpackets: Subs<'_>) -> bool
    ensures { result ≡ has_unknown_critical (subs_to_come subpackets.entry) }
{
    for subpacket in subpackets {
        if is_unknown_critical(subpacket) {
            return true;
        }
    }
    false
}
