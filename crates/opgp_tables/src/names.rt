//! The names of the numbers that rows have.

ghost use Rattle.std.specs.Prelude.{◌≡◌, ◌≤◌, ⊤, MatchOption, Some, None, length};
ghost use Rattle.opgp_octets.specs.HashAlgorithm.{hash_algorithm_of};
ghost use Rattle.opgp_octets.specs.KeyAlgorithm.{key_algorithm_of};
ghost use Rattle.opgp_octets.specs.PacketType.{packet_type_of};
ghost use Rattle.opgp_octets.specs.SignatureType.{signature_type_of};
ghost use Rattle.opgp_octets.specs.SubpacketKind.{subpacket_kind_of};
ghost use Rattle.opgp_tables.specs.Names.{hash_named, key_named, kind_named, name_in};
ghost use Rattle.opgp_tables.specs.Names.{packet_named, signature_named, table_of, why_name};
ghost use Rattle.opgp_tables.specs.Names.{why_of};

use opgp_document::DocumentWhy;
use opgp_hash::Why;
use opgp_octets::{
    HashAlgorithm, KeyAlgorithm, Layer, PacketType, Reason, SignatureType, SubpacketKind,
};

/// A table of numbers and their names. Each table has a number itself, which never changes.
#[derive(Clone, Copy)]
pub enum NumberTable {
    /// 0: the types of packets (RFC 9580, 5).
    PacketTypes,
    /// 1: public-key algorithms (9.1).
    KeyAlgorithms,
    /// 2: hash algorithms (9.5).
    HashAlgorithms,
    /// 3: the types of signatures (5.2.1).
    SignatureTypes,
    /// 4: the kinds of a signature's subpackets (5.2.3.7).
    SubpacketKinds,
    /// 5: the layers that refuse an input.
    Layers,
    /// 6: the reasons of faults.
    Reasons,
    /// 7: why a signature isn't hashed.
    Whys,
}

impl NumberTable {
    /// The table of this number, or None.
    #[tactic(auto, unfolding(crate::specs::Names::table_of))]
    pub fn of(number: u32) -> Option<NumberTable>
        ensures { result ≡ table_of number }
    {
        Some(match number {
            0 => NumberTable::PacketTypes,
            1 => NumberTable::KeyAlgorithms,
            2 => NumberTable::HashAlgorithms,
            3 => NumberTable::SignatureTypes,
            4 => NumberTable::SubpacketKinds,
            5 => NumberTable::Layers,
            6 => NumberTable::Reasons,
            7 => NumberTable::Whys,
            _ => return None,
        })
    }

    /// The name that the table has for a number, as the standard or the program has it; or None.
    /// It has 52 octets at most.
    #[tactic(auto, using(opgp_octets::proofs::Numbers::layer_short, opgp_octets::proofs::Numbers::reason_short))]
    pub fn name(self, number: u8) -> Option<&'static str>
        ensures value { MatchOption result (name_in self number ≡ None)
            (λ name. name_in self number ≡ Some name.now) }
        ensures short { MatchOption result ⊤ (λ name. length name.now ≤ 52) }
    {
        match self {
            NumberTable::PacketTypes => packet_name(PacketType::from(number)),
            NumberTable::KeyAlgorithms => key_name(KeyAlgorithm::from(number)),
            NumberTable::HashAlgorithms => hash_name(HashAlgorithm::from(number)),
            NumberTable::SignatureTypes => signature_name(SignatureType::from(number)),
            NumberTable::SubpacketKinds => kind_name(SubpacketKind::from(number)),
            NumberTable::Layers => Layer::of(number).map(|layer| layer.name()),
            NumberTable::Reasons => Reason::of(number).map(|reason| reason.name()),
            NumberTable::Whys => why_name(number),
        }
    }
}

#[tactic(auto, using(crate::proofs::Lines::packet_short))]
fn packet_name(number: PacketType) -> Option<&'static str>
    ensures value { MatchOption result (packet_named number ≡ None)
        (λ name. packet_named number ≡ Some name.now) }
    ensures short { MatchOption result ⊤ (λ name. length name.now ≤ 52) }
{
    match number {
        PacketType::Other(_) => None,
        known => Some(known.name()),
    }
}

#[tactic(auto, using(crate::proofs::Lines::key_short))]
fn key_name(number: KeyAlgorithm) -> Option<&'static str>
    ensures value { MatchOption result (key_named number ≡ None)
        (λ name. key_named number ≡ Some name.now) }
    ensures short { MatchOption result ⊤ (λ name. length name.now ≤ 52) }
{
    match number {
        KeyAlgorithm::Other(_) => None,
        known => Some(known.name()),
    }
}

#[tactic(auto, using(crate::proofs::Lines::hash_short))]
fn hash_name(number: HashAlgorithm) -> Option<&'static str>
    ensures value { MatchOption result (hash_named number ≡ None)
        (λ name. hash_named number ≡ Some name.now) }
    ensures short { MatchOption result ⊤ (λ name. length name.now ≤ 52) }
{
    match number {
        HashAlgorithm::Other(_) => None,
        known => Some(known.name()),
    }
}

#[tactic(auto, using(crate::proofs::Lines::signature_short))]
fn signature_name(number: SignatureType) -> Option<&'static str>
    ensures value { MatchOption result (signature_named number ≡ None)
        (λ name. signature_named number ≡ Some name.now) }
    ensures short { MatchOption result ⊤ (λ name. length name.now ≤ 52) }
{
    match number {
        SignatureType::Other(_) => None,
        known => Some(known.name()),
    }
}

#[tactic(auto, using(crate::proofs::Lines::kind_short))]
fn kind_name(number: SubpacketKind) -> Option<&'static str>
    ensures value { MatchOption result (kind_named number ≡ None)
        (λ name. kind_named number ≡ Some name.now) }
    ensures short { MatchOption result ⊤ (λ name. length name.now ≤ 52) }
{
    match number {
        SubpacketKind::Other(_) => None,
        known => Some(known.name()),
    }
}

/// The name of the reason why a signature isn't hashed, of this number.
#[tactic(auto, using(crate::proofs::Lines::why_short))]
fn why_name(number: u8) -> Option<&'static str>
    ensures value { MatchOption result (why_name number ≡ None)
        (λ name. why_name number ≡ Some name.now) }
    ensures short { MatchOption result ⊤ (λ name. length name.now ≤ 52) }
{
    if number == 6 {
        return Some(DocumentWhy::LineEnds.name());
    }
    why_of(number).map(|why| why.name())
}

/// The reason why a signature isn't hashed, of this number.
#[tactic(auto, unfolding(crate::specs::Names::why_of))]
fn why_of(number: u8) -> Option<Why>
    ensures { result ≡ why_of number }
{
    Some(match number {
        1 => Why::Opaque,
        2 => Why::Kind,
        3 => Why::Misplaced,
        4 => Why::Version,
        5 => Why::Hash,
        _ => return None,
    })
}
