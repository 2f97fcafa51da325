//! Which headers can be written.

ghost use Rattle.std.specs.Prelude.{◌≡◌, ◌==◌, true, false};
ghost use Rattle.std.specs.List.{list_any};
ghost use Rattle.opgp_armor.specs.Blocks.{headers_of};
ghost use Rattle.opgp_armor.specs.Text.{is_trailing};
ghost use Rattle.opgp_armor.specs.Written.{AreWritable, IsWritable, ends_trailing};

/// Whether each header can be written.
pub(crate) fn are_writable(headers: &[(Vec<u8>, Vec<u8>)]) -> bool
    ensures { result ≡ true → AreWritable (headers_of headers.now) }
{
    for (key, value) in headers {
        if !is_writable(key.as_slice(), value.as_slice()) {
            return false;
        }
    }
    true
}

/// Whether a header can be written: its key isn't empty and has neither a colon nor a line feed;
/// its value has no line feed and doesn't end in a space, a tab or a carriage return.
fn is_writable(key: &[u8], value: &[u8]) -> bool
    ensures { result ≡ true → IsWritable (key.now, value.now) }
{
    if key.is_empty() || has(key, b':') || has(key, b'\n') || has(value, b'\n') {
        return false;
    }
    has_kept_end(value)
}

/// Whether the octets have this one.
fn has(octets: &[u8], wanted: u8) -> bool
    ensures { result ≡ list_any (λ octet. octet == wanted) octets.now }
{
    octets.iter().any(|octet| *octet == wanted)
}

/// Whether a value doesn't end in a space, a tab or a carriage return.
#[tactic(auto, using(crate::proofs::Writable::ends_last))]
fn has_kept_end(value: &[u8]) -> bool
    ensures { result ≡ true → ends_trailing value.now ≡ false }
{
    match value.split_last() {
        None => true,
        Some((last, _)) => !is_trailing_octet(*last),
    }
}

/// Whether it is a space, a tab or a carriage return.
fn is_trailing_octet(c: u8) -> bool
    ensures { result ≡ is_trailing c }
{
    c == b' ' || c == b'\t' || c == b'\r'
}
