//! Types of packets by where they may be in a keyring.

ghost use Rattle.std.specs.Prelude.{◌≡◌};
ghost use Rattle.opgp_keyring.specs.Keyring.{is_filler};
ghost use Rattle.opgp_keyring.specs.Sorted.{IsSorted};

use opgp_octets::PacketType;

/// Where packets of a type may be in a keyring.
#[derive(Clone, Copy)]
pub(crate) enum Sorted {
    /// A primary key.
    Primary,
    /// A user ID, an attribute, a subkey or a signature: it must follow a primary key.
    Behind,
    /// A marker, trust or padding packet, or one of a type that isn't critical.
    Filler,
    /// Nowhere: no keyring has packets of the type.
    Stray,
}

/// Where packets of this type may be in a keyring.
pub(crate) fn sort(kind: u8) -> Sorted
    ensures { IsSorted result kind }
{
    match PacketType::from(kind) {
        PacketType::PublicKey => Sorted::Primary,
        PacketType::Signature
        | PacketType::UserId
        | PacketType::UserAttribute
        | PacketType::PublicSubkey => Sorted::Behind,
        _ if is_filler(kind) => Sorted::Filler,
        _ => Sorted::Stray,
    }
}

/// Whether packets of the type may be anywhere, and are kept in place.
pub(crate) fn is_filler(kind: u8) -> bool
    ensures { result ≡ is_filler kind }
{
    matches!(kind, 10 | 12 | 21 | 40..)
}
