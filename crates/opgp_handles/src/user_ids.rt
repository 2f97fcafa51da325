//! The call for what the octets of a user ID say.

ghost use Rattle.std.specs.Prelude.{◌≡◌, ◌<◌, ◌==◌, length, position, Some};
ghost use Rattle.std.specs.List.{list_all, list_any};
ghost use Rattle.std.specs.Str.{is_utf8};
ghost use Rattle.opgp_handles.specs.UserIds.{address_in, facts_of, inside, is_address, is_atext};
ghost use Rattle.opgp_handles.specs.UserIds.{is_atom, behind_open, is_bracketed, is_dot_atom};
ghost use Rattle.opgp_handles.specs.UserIds.{is_domain, is_special, is_split_at};

use memchr::memchr;

/// What the octets of a user ID say: for C `opgp_user_id_facts`.
#[repr(C)]
#[derive(Clone, Copy)]
pub struct UserIdFacts {
    address_at: u64,
    address_size: u64,
    is_utf8: u32,
    has_address: u32,
}

/// Says of the octets of a user ID whether they are UTF-8 (RFC 9580, 5.11), and where its mail
/// address is.
pub fn user_id(octets: &[u8], facts: &mut UserIdFacts)
    ensures { facts.new ≡ facts_of octets.now }
{
    let is_utf8 = if is_utf8(octets) { 1 } else { 0 };
    *facts = match address_in(octets) {
        Some((address_at, address_size)) => UserIdFacts {
            address_at: address_at as u64,
            address_size: address_size as u64,
            is_utf8,
            has_address: 1,
        },
        None => UserIdFacts {
            address_at: 0,
            address_size: 0,
            is_utf8,
            has_address: 0,
        },
    };
}

/// Whether the octets are UTF-8.
fn is_utf8(octets: &[u8]) -> bool
    ensures { result ≡ is_utf8 octets.now }
{
    match str::from_utf8(octets) {
        Ok(_) => true,
        Err(_) => false,
    }
}

/// The first place of an octet.
#[tactic(auto, using(opgp_document::proofs::FirstPlaces::place_is))]
fn place_of(octets: &[u8], wanted: u8) -> Option<usize>
    ensures { result ≡ position (λ c. c == wanted) octets.now }
{
    memchr(wanted, octets)
}

/// Whether an octet is among others.
#[tactic(auto, using(opgp_document::proofs::FirstPlaces::has_place))]
fn has(octets: &[u8], wanted: u8) -> bool
    ensures { result ≡ list_any (λ c. c == wanted) octets.now }
{
    memchr(wanted, octets).is_some()
}

/// Where the address of a user ID begins, and how many octets it has.
fn address_in(octets: &[u8]) -> Option<(usize, usize)>
    ensures { result ≡ address_in octets.now }
{
    if is_address(octets) {
        return Some((0, octets.len()));
    }
    match place_of(octets, b'<') {
        Some(at) => behind_open(octets, at),
        None => None,
    }
}

/// Where the address is, if this is the place of the first `<`.
fn behind_open(octets: &[u8], at: usize) -> Option<(usize, usize)>
    requires { at < length octets.now }
    ensures { result ≡ behind_open (Some at) octets.now }
{
    if is_bracketed(octets, at) {
        Some((at + 1, octets.len().saturating_sub(at + 2)))
    } else {
        None
    }
}

/// Whether an address in `<` and `>` is there, from this place on, and no `>` in front.
fn is_bracketed(octets: &[u8], at: usize) -> bool
    requires { at < length octets.now }
    ensures { result ≡ is_bracketed at octets.now }
{
    if is_address(inside(octets, at)) {
        octets.ends_with(b">".as_slice()) && !has(&octets[..at], b'>')
    } else {
        false
    }
}

/// What is behind the octet at this place, but for the last octet.
fn inside(octets: &[u8], at: usize) -> &[u8]
    requires { at < length octets.now }
    ensures { result.now ≡ inside at octets.now }
{
    let behind = &octets[at + 1..];
    &behind[..behind.len().saturating_sub(1)]
}

/// Whether the octets are a mail address, in UTF-8.
fn is_address(octets: &[u8]) -> bool
    ensures { result ≡ is_address octets.now }
{
    match place_of(octets, b'@') {
        Some(at) => is_split(octets, at) && is_utf8(octets),
        None => false,
    }
}

/// Whether the octets are a local part and a domain, with this place between them.
fn is_split(octets: &[u8], at: usize) -> bool
    requires { at < length octets.now }
    ensures { result ≡ is_split_at (Some at) octets.now }
{
    is_dot_atom(&octets[..at]) && is_domain(&octets[at + 1..])
}

/// Whether the octets are what may stand behind the `@`.
fn is_domain(octets: &[u8]) -> bool
    ensures { result ≡ is_domain octets.now }
{
    is_dot_atom(octets) && !has(octets, b'_')
}

/// Whether the octets are atoms with dots between them.
fn is_dot_atom(octets: &[u8]) -> bool
    ensures { result ≡ is_dot_atom octets.now }
{
    octets.split(|c| *c == b'.').all(|atom| is_atom(atom))
}

/// Whether the octets are an atom.
fn is_atom(octets: &[u8]) -> bool
    ensures { result ≡ is_atom octets.now }
{
    match octets {
        [c, more @ ..] => is_atext(*c) && are_atext(more),
        [] => false,
    }
}

/// Whether the octets may all be in an atom.
fn are_atext(octets: &[u8]) -> bool
    ensures { result ≡ list_all is_atext octets.now }
{
    octets.iter().all(|c| is_atext(*c))
}

/// Whether an octet may be in an atom: it is neither a space, nor a control octet, nor special.
fn is_atext(c: u8) -> bool
    ensures { result ≡ is_atext c }
{
    c > 32 && c != 127 && !is_special(c)
}

/// Whether an octet is one of `()<>[]:;@\,"`.
fn is_special(c: u8) -> bool
    ensures { result ≡ is_special c }
{
    c == b'('
        || c == b')'
        || c == b'<'
        || c == b'>'
        || c == b'['
        || c == b']'
        || c == b':'
        || c == b';'
        || c == b'@'
        || c == b'\\'
        || c == b','
        || c == b'"'
}
