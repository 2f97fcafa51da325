//! What a field means.

use opgp_octets::SubpacketKind;

/// What a field of the hashed octets means (RFC 9580, 5.2.4).
#[derive(Clone, Copy, PartialEq, Eq)]
pub enum Meaning {
    /// The salt of a version 6 signature.
    Salt,
    /// A part of a key.
    Key(Role, KeyPart),
    /// A part of a user ID.
    UserId(BodyPart),
    /// A part of a user attribute.
    Attribute(BodyPart),
    /// A document, whole.
    Content,
    /// A part of the signature's own body, in front of its hashed area.
    Signature(SignaturePart),
    /// A part of a subpacket of the hashed area.
    Subpacket(SubpacketPart),
    /// A hashed area that doesn't consist of subpackets, whole.
    Area,
    /// A part of the trailer.
    Trailer(TrailerPart),
}

/// Which key of a certificate it is.
#[derive(Clone, Copy, PartialEq, Eq)]
pub enum Role {
    /// The primary key.
    Primary,
    /// A subkey.
    Subkey,
}

/// A part of a key (RFC 9580, 5.2.4, 5.5.2).
#[derive(Clone, Copy, PartialEq, Eq)]
pub enum KeyPart {
    /// The octet in front: 99 in version 4, 9B in version 6.
    Prefix,
    /// How many octets the key's body has, in two octets or in version 6 in four.
    Length,
    /// The version of the key.
    Version,
    /// When it was created, in seconds since 1970.
    Created,
    /// The number of its algorithm.
    Algorithm,
    /// How many octets its material has; in version 6 alone.
    MaterialLength,
    /// Its public material, whole.
    Material,
}

/// A part of a user ID or user attribute (RFC 9580, 5.2.4).
#[derive(Clone, Copy, PartialEq, Eq)]
pub enum BodyPart {
    /// The octet in front: B4 for a user ID, D1 for a user attribute.
    Prefix,
    /// How many octets its body has, in four octets.
    Length,
    /// Its body: the text of a user ID, the subpackets of a user attribute.
    Body,
}

/// A part of the signature's own body (RFC 9580, 5.2.3).
#[derive(Clone, Copy, PartialEq, Eq)]
pub enum SignaturePart {
    /// The version.
    Version,
    /// The signature's type.
    Type,
    /// The number of the key's algorithm.
    KeyAlgorithm,
    /// The number of the hash algorithm.
    HashAlgorithm,
    /// How many octets the hashed area has, in two octets or in version 6 in four.
    AreaLength,
}

/// A part of a subpacket (RFC 9580, 5.2.3.7).
#[derive(Clone, Copy, PartialEq, Eq)]
pub enum SubpacketPart {
    /// How many octets follow in the subpacket, its type octet included.
    Length,
    /// Its type octet: its kind, and bit 7 if it is critical.
    Type,
    /// Its data, which means what its kind says.
    Data(SubpacketKind),
}

/// A part of the trailer (RFC 9580, 5.2.4).
#[derive(Clone, Copy, PartialEq, Eq)]
pub enum TrailerPart {
    /// The version of the signature, again.
    Version,
    /// The octet FF.
    Marker,
    /// How many octets are hashed from the signature's version to the end of its hashed area.
    Length,
}
