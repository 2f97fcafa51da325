//! A subpacket of a signature.

ghost use Rattle.std.specs.Prelude.{◌≡◌, ◌≤◌, length};
ghost use Rattle.std.specs.Option.{option_map};
ghost use Rattle.opgp_octets.specs.Octets.{IsOctets, IsBodySized};
ghost use Rattle.opgp_octets.specs.SubpacketKind.{subpacket_kind_of};

use crate::Subpacket;
use crate::forms::{key_id, named};
use crate::sub_meaning::{KeyId8, SubMeaning, typed};
use opgp_octets::{SubLen, SubpacketKind};

/// A subpacket of a signature, borrowed from its area (RFC 9580, 5.2.3.7).
#[derive(Clone, Copy)]
pub struct SubView<'a> {
    pub(crate) sub: Subpacket<'a>,
}

impl<'a> SubView<'a> {
    ghost use Rattle.opgp_packet.specs.Subpackets.{IsSub};
    ghost use Rattle.opgp_packet.specs.SubView.{sub_shown, is_critical, kind_shown};
    ghost use Rattle.opgp_packet.specs.SubView.{issuer_in, issuer_fingerprint_in};
    ghost use Rattle.opgp_packet.specs.Meaning.{Means};
    ghost use Rattle.opgp_packet.specs.MeaningReading.{meaning_of};
    ghost use Rattle.opgp_packet.specs.SubMeaning.{meaning_shown};

    /// Its length, which includes the type octet, and the form of the length.
    pub fn len(&self) -> SubLen
        ensures { result ≡ (sub_shown self.now).len }
    {
        self.sub.len()
    }

    /// Whether it is critical: bit 7 of the type octet.
    pub fn critical(&self) -> bool
        ensures { result ≡ is_critical (sub_shown self.now).kind }
    {
        self.sub.kind() >= 128
    }

    /// Its kind, 0 to 127: the type octet without bit 7.
    pub fn kind(&self) -> u8
        ensures { result ≡ kind_shown (sub_shown self.now).kind }
    {
        self.sub.kind() % 128
    }

    /// Its data: the octets after the type octet.
    pub fn octets(&self) -> &'a [u8]
        ensures value { result.now ≡ (sub_shown self.now).octets }
        ensures sub { IsSub (sub_shown self.now) }
        ensures small { IsBodySized result.now }
    {
        self.sub.octets()
    }

    /// The issuer's key ID, if the kind is 16 and there are 8 octets (RFC 9580, 5.2.3.12).
    pub fn issuer(&self) -> Option<KeyId8>
        ensures { result ≡ issuer_in (sub_shown self.now) }
    {
        if self.kind() != SubpacketKind::Issuer.number() {
            return None;
        }
        key_id(self.octets())
    }

    /// The version and the fingerprint of the issuer's key, if the kind is 33 and the fingerprint
    /// has 20 octets in version 4, or 32 in version 6 (RFC 9580, 5.2.3.35).
    pub fn issuer_fingerprint(&self) -> Option<(u8, &'a [u8])>
        ensures { option_map (λ x. (x.0, x.1.now)) result
            ≡ issuer_fingerprint_in (sub_shown self.now) }
    {
        if self.kind() != SubpacketKind::IssuerFingerprint.number() {
            return None;
        }
        named(self.octets())
    }

    /// Its data in the form of its kind, or [`SubMeaning::Unfit`], or [`SubMeaning::Unknown`].
    /// Allocates nothing; the work is linear in the length of the data. For kind 32 it reads a
    /// whole signature, so look at [`SubView::kind`] first for any other kind.
    pub fn meaning(&self) -> SubMeaning<'a>
        ensures means { Means (subpacket_kind_of (kind_shown (sub_shown self.now).kind))
            (sub_shown self.now).octets (meaning_shown result) }
        // It is what reading the data as that of the kind gives.
        ensures exact { meaning_shown result
            ≡ meaning_of (subpacket_kind_of (kind_shown (sub_shown self.now).kind))
            (sub_shown self.now).octets }
        ensures small { IsBodySized (sub_shown self.now).octets }
    {
        self.read_meaning()
    }

    fn read_meaning(&self) -> SubMeaning<'a>
        ensures exact { meaning_shown result
            ≡ meaning_of (subpacket_kind_of (kind_shown (sub_shown self.now).kind))
            (sub_shown self.now).octets }
        ensures small { IsBodySized (sub_shown self.now).octets }
        ensures octets { IsOctets (sub_shown self.now).octets }
    {
        typed(SubpacketKind::from(self.kind()), self.octets()).unwrap_or(SubMeaning::Unfit)
    }
}
