//! A packet of a keyring and its place.

ghost use Rattle.std.specs.Prelude.{◌≡◌};
ghost use Rattle.opgp_keyring.specs.Member.{member_packet};

use opgp_keyring::Member;
use std::marker::Model;

/// The place of a packet in a certificate of a keyring; all numbers count from 0.
#[derive(Clone, Copy, Debug, PartialEq, Eq)]
pub struct PacketPlace {
    /// The number of its certificate.
    pub certificate: usize,
    /// The number of the user ID, attribute or subkey that it is, or that it is on; None for the
    /// primary key and what is on that.
    pub component: Option<usize>,
    /// Its number among all packets that follow the key or component, fillers included; None for
    /// the key or component itself.
    pub hang: Option<usize>,
}

/// A packet of a keyring, borrowed, and its place.
#[derive(Drop)]
pub struct PlacedPacket<'a> {
    place: PacketPlace,
    packet: Member<'a>,
}

impl<'a> Model for PlacedPacket<'a> {
    ghost use Rattle.opgp_keyring.specs.Member.{member_packet};
    ghost use Rattle.opgp_difference.specs.Entries.{PlacedValue};

    ghost Value = { PlacedValue };

    ghost view = { λ p. record { place = p.place; packet = member_packet p.packet } };
}

impl<'a> PlacedPacket<'a> {
    /// The packet at this place.
    pub(crate) fn new(place: PacketPlace, packet: Member<'a>) -> PlacedPacket<'a>
        ensures { result ≡ record { place = place; packet = member_packet packet.entry } }
    {
        PlacedPacket { place, packet }
    }

    /// Its place.
    pub fn place(&self) -> PacketPlace
        ensures { result ≡ self.now.place }
    {
        self.place
    }

    /// The packet.
    pub fn packet(&self) -> Member<'a>
        ensures { member_packet result ≡ self.now.packet }
    {
        self.packet
    }
}
