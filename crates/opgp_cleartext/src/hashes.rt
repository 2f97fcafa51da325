//! The headers of a cleartext message (RFC 9580, 6.2.2.3 and 7.1).

ghost use Rattle.std.specs.Prelude.{◌≡◌};
ghost use Rattle.opgp_cleartext.specs.Hashes.{behind_blanks, is_hash_header, is_hash_name};
ghost use Rattle.opgp_cleartext.specs.Hashes.{is_named, parts};
ghost use Rattle.std.specs.List.{list_all};

use crate::line::{cut_blanks, is_blank_octet};
use memchr::memchr;

/// Whether a line, without its trailing blanks, is a header of hash algorithms: `Hash: ` and their
/// names between commas, with spaces and tabs around each.
pub(crate) fn is_hash_header(line: &[u8]) -> bool
    ensures { result ≡ is_hash_header line.now }
{
    if line.starts_with(b"Hash: ".as_slice()) {
        are_names(&line[6..])
    } else {
        false
    }
}

/// Whether the octets are names of hash algorithms between commas.
fn are_names(names: &[u8]) -> bool
    ensures { result ≡ list_all is_named (parts names.now) }
{
    let mut rest = names;
    'names: while let Some(size) = memchr(b',', rest) {
        if !is_named(&rest[..size]) {
            return false;
        }
        rest = &rest[size + 1..];
    }
    is_named(rest)
}

/// Whether the octets are the name of a hash algorithm, with spaces and tabs around it.
fn is_named(part: &[u8]) -> bool
    ensures { result ≡ is_named part.now }
{
    is_hash_name(cut_blanks(skip_blanks(part)))
}

/// What is behind the spaces and tabs that the octets begin with.
fn skip_blanks(octets: &[u8]) -> &[u8]
    ensures { result.now ≡ behind_blanks octets.now }
{
    let mut rest = octets;
    'blanks: while let [c, more @ ..] = rest {
        if !is_blank_octet(*c) {
            return rest;
        }
        rest = more;
    }
    rest
}

/// Whether the octets are the name of a hash algorithm (RFC 9580, 9.5).
fn is_hash_name(name: &[u8]) -> bool
    ensures { result ≡ is_hash_name name.now }
{
    name == b"SHA256".as_slice()
        || name == b"SHA512".as_slice()
        || name == b"SHA384".as_slice()
        || name == b"SHA224".as_slice()
        || name == b"SHA1".as_slice()
        || name == b"SHA3-256".as_slice()
        || name == b"SHA3-512".as_slice()
        || name == b"MD5".as_slice()
        || name == b"RIPEMD160".as_slice()
}
