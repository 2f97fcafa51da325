//! A subpacket borrowed from its area.

ghost use Rattle.std.specs.Prelude.{◌≡◌, ◌<◌, ◌≤◌, suc, length, IfOk};
ghost use Rattle.opgp_octets.specs.Octets.{IsOctets};
ghost use Rattle.opgp_octets.specs.Reading.{Reads};
ghost use Rattle.opgp_octets.specs.SubLen.{SubLenFits, SubLenFits-prop, sub_len_amount};
ghost use Rattle.opgp_packet.specs.AreaReading.{sub_at};

use opgp_octets::{Reason, SubLen, read_sub_len};

/// A subpacket borrowed from its area (RFC 9580, 5.2.3.7, 5.12).
#[derive(Clone, Copy)]
pub struct Subpacket<'a> {
    len: SubLen,
    kind: u8,
    octets: &'a [u8],
    ghost fits: { SubLenFits len } by { SubLenFits-prop len },
    ghost amount: { sub_len_amount len ≡ suc (length octets.now) },
    ghost each: { IsOctets octets.now },
}

impl<'a> Subpacket<'a> {
    ghost use Rattle.opgp_packet.specs.Subpacket.{sub_seen};
    ghost use Rattle.opgp_packet.specs.Subpackets.{IsSub};

    /// Its length, which includes the type octet, and the form of the length.
    pub fn len(&self) -> SubLen
        ensures { result ≡ (sub_seen self.now).len }
    {
        self.len
    }

    /// Its whole type octet. In a signature bit 7 says that it is critical.
    pub fn kind(&self) -> u8
        ensures { result ≡ (sub_seen self.now).kind }
    {
        self.kind
    }

    /// Its data: the octets after the type octet.
    pub fn octets(&self) -> &'a [u8]
        ensures value { result.now ≡ (sub_seen self.now).octets }
        ensures sub { IsSub (sub_seen self.now) }
    {
        // Read, so that the type's invariant is known.
        let _kind = self.kind;
        self.octets
    }

    /// The subpacket that begins the octets, and what follows it.
    ///
    /// The errors are [`Reason::SubEmpty`] and [`Reason::SubShort`].
    #[tactic(auto, unfolding(crate::specs::AreaReading::sub_at))]
    pub(crate) fn read(o: &'a [u8]) -> Result<(Subpacket<'a>, &'a [u8]), Reason>
        ensures reads { Reads (λ x. (sub_seen x.0, x.1.now)) result (sub_at o.now) }
        ensures shorter { IfOk result (λ x. length x.1.now < length o.now) }
    {
        let Some((len, count)) = read_sub_len(o) else {
            return Err(Reason::SubShort);
        };
        let (_, rest) = o.split_at(count);
        let amount = len.amount() as usize;
        if amount == 0 {
            return Err(Reason::SubEmpty);
        }
        let [kind, rest @ ..] = rest else {
            return Err(Reason::SubShort);
        };
        if rest.len() < amount - 1 {
            return Err(Reason::SubShort);
        }
        let (octets, rest) = rest.split_at(amount - 1);
        Ok((
            Subpacket {
                len,
                kind: *kind,
                octets,
            },
            rest,
        ))
    }
}
