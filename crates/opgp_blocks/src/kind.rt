//! Lines that begin or end a block (RFC 9580, 6.2.1 and 6.2.3).

ghost use Rattle.std.specs.Prelude.{◌≡◌};
ghost use Rattle.opgp_blocks.specs.Line.{begins, ends, ends_label, is_label_octet, is_labelled};

/// Whether the content of a line begins a block.
pub(crate) fn begins(content: &[u8]) -> bool
    ensures { result ≡ begins content.now }
{
    if content.starts_with(b"-----BEGIN PGP ".as_slice()) {
        is_labelled(&content[15..]) && content != b"-----BEGIN PGP SIGNED MESSAGE-----".as_slice()
    } else {
        false
    }
}

/// Whether the content of a line ends a block.
pub(crate) fn ends(content: &[u8]) -> bool
    ensures { result ≡ ends content.now }
{
    if content.starts_with(b"-----END PGP ".as_slice()) {
        is_labelled(&content[13..])
    } else {
        false
    }
}

/// Printable ASCII, but `-`.
fn is_label_octet(c: u8) -> bool
    ensures { result ≡ is_label_octet c }
{
    c > 31 && c < 127 && c != b'-'
}

/// Whether the octets are a label and `-----`.
fn is_labelled(octets: &[u8]) -> bool
    ensures { result ≡ is_labelled octets.now }
{
    match octets {
        [c, more @ ..] => is_label_octet(*c) && ends_label(more),
        [] => false,
    }
}

/// Whether the octets are the rest of a label and `-----`.
fn ends_label(octets: &[u8]) -> bool
    ensures { result ≡ ends_label octets.now }
{
    let mut rest = octets;
    'label: while let [c, more @ ..] = rest {
        if !is_label_octet(*c) {
            return rest == b"-----".as_slice();
        }
        rest = more;
    }
    false
}
