//! The octet that begins a packet (RFC 9580, 4.2), and the packet types (RFC 9580, 5).

ghost use Rattle.std.specs.Prelude.{◌≡◌};
ghost use Rattle.opgp_frame.specs.Header.{is_read_kind, is_data_kind, is_unknown_critical, kind_in};
ghost use Rattle.opgp_frame.specs.PacketFault.{header_fault};

use opgp_octets::{PacketType, Reason};

/// Whether the type is critical and unknown (RFC 9580, 4.3).
pub(crate) fn is_unknown_critical(kind: u8) -> bool
    ensures { result ≡ is_unknown_critical kind }
{
    matches!(kind, 15 | 16 | 19 | 20 | 22..=39)
}

/// Whether packets of the type are read.
pub(crate) fn is_read_kind(kind: u8) -> bool
    ensures { result ≡ is_read_kind kind }
{
    kind != PacketType::Reserved.number()
        && kind != PacketType::CompressedData.number()
        && kind < 64
        && !is_unknown_critical(kind)
}

/// Whether packets of the type are data packets, whose bodies may come in pieces.
pub(crate) fn is_data_kind(kind: u8) -> bool
    ensures { result ≡ is_data_kind kind }
{
    kind == PacketType::SymmetricallyEncryptedData.number()
        || kind == PacketType::LiteralData.number()
        || kind == PacketType::EncryptedIntegrityProtectedData.number()
}

/// The type that is in a packet's first octet.
pub(crate) fn kind_in(header: u8) -> u8
    ensures { result ≡ kind_in header }
{
    if header >= 192 {
        header - 192
    } else {
        header.saturating_sub(128) / 4
    }
}

/// Why no packet begins with this octet, whatever follows.
pub(crate) fn header_fault(header: u8) -> Option<Reason>
    ensures { result ≡ header_fault header }
{
    if header < 128 {
        return Some(Reason::NotAPacket);
    }
    match kind_in(header) {
        kind if kind == PacketType::Reserved.number() => Some(Reason::TypeZero),
        kind if kind == PacketType::CompressedData.number() => Some(Reason::Compressed),
        kind if is_unknown_critical(kind) => Some(Reason::UnknownCritical),
        _ if header < 192 && header % 4 == 3 => Some(Reason::Indeterminate),
        _ => None,
    }
}
