//! Octets of a document as canonical text (RFC 9580, 5.2.1.2): hashed, counted or written.

ghost use Rattle.std.specs.Prelude.{◌≡◌, ◌≤◌, ◌<◌, ◌+◌, ◌-◌, ◌++◌, ◌∷◌, [], ℕ, List, length};
ghost use Rattle.std.specs.Prelude.{take, drop, true, false, IfSome, IfNone, MatchOption};
ghost use Rattle.std.specs.Prelude.{vec_len, vec_capacity};
ghost use Rattle.memchr.specs.Find.{is_byte, IsFirst, Passes};
ghost use Rattle.opgp_document.specs.Text.{before_stray, ends_cr, has_stray, to_text};

use memchr::memchr;
use opgp_octets::put;
use sha2::Digest;

/// Feeds the hasher the next octets of a text, behind a carriage return or not, with a carriage
/// return before each line feed that has none; and says whether the last octet is a carriage
/// return. What stands between two line feeds that get one is fed at once.
pub(crate) fn feed_text<D: Digest>(hasher: &mut D, after_cr: bool, octets: &[u8]) -> bool
    ensures fed { (m : List ℕ) → D.holds hasher.old m
        → D.holds hasher.new (m ++ to_text after_cr octets.now) }
    ensures after { result ≡ ends_cr after_cr octets.now }
{
    let mut start = 0;
    'lines: while let Some(end) = lone_feed(after_cr, octets, start) {
        hasher.update(&octets[start..end]);
        hasher.update(b"\r\n".as_slice());
        start = end + 1;
    }
    hasher.update(&octets[start..]);
    is_behind_cr(after_cr, octets, octets.len())
}

/// Writes the text of the next octets at the end of `text`, which has room for it.
pub(crate) fn put_text(after_cr: bool, octets: &[u8], text: &mut Vec<u8>)
    requires room { vec_len text.old + length (to_text after_cr octets.now)
        ≤ vec_capacity text.old }
    ensures { text.new.items ≡ text.old.items ++ to_text after_cr octets.now }
{
    let mut start = 0;
    'lines: while let Some(end) = lone_feed(after_cr, octets, start) {
        put(&octets[start..end], text);
        put(b"\r\n", text);
        start = end + 1;
    }
    put(&octets[start..], text);
}

/// Puts the text of the next octets at the front of a table, which has room for it.
pub(crate) fn fill_text(after_cr: bool, octets: &[u8], table: &mut [u8])
    requires { length (to_text after_cr octets.now) ≤ length table.old }
    ensures { table.new ≡ to_text after_cr octets.now
        ++ drop (length (to_text after_cr octets.now)) table.old }
{
    let mut start = 0;
    let mut at = 0;
    'lines: while let Some(end) = lone_feed(after_cr, octets, start) {
        put_at(table, at, &octets[start..end]);
        put_at(table, at + (end - start), b"\r\n");
        at += end - start + 2;
        start = end + 1;
    }
    put_at(table, at, &octets[start..]);
}

/// Puts octets behind the first `at` of a table.
#[tactic(auto, using(crate::proofs::Filling::put_is))]
fn put_at(table: &mut [u8], at: usize, octets: &[u8])
    requires { at + length octets.now ≤ length table.old }
    ensures { table.new ≡ take at table.old
        ++ (octets.now ++ drop (at + length octets.now) table.old) }
{
    table[at..at + octets.len()].copy_from_slice(octets);
}

/// How many octets the text of the next octets has.
pub(crate) fn text_len(after_cr: bool, octets: &[u8]) -> usize
    ensures { result ≡ length (to_text after_cr octets.now) }
{
    let mut count = octets.len();
    let mut start = 0;
    'lines: while let Some(end) = lone_feed(after_cr, octets, start) {
        count += 1;
        start = end + 1;
    }
    count
}

/// Whether among the next octets of a text, behind a carriage return or not, one that is no line
/// feed comes behind a carriage return.
pub(crate) fn has_stray(after_cr: bool, octets: &[u8]) -> bool
    ensures { result ≡ has_stray after_cr octets.now }
{
    match octets_before_stray(after_cr, octets) {
        Some(_) => true,
        None => false,
    }
}

/// How many of the next octets of a text stand in front of the first that is no line feed and
/// comes behind a carriage return; None if there is no such octet.
pub(crate) fn octets_before_stray(after_cr: bool, octets: &[u8]) -> Option<usize>
    ensures { MatchOption result (has_stray after_cr octets.now ≡ false) (λ count.
        (has_stray after_cr octets.now ≡ true) × (count ≡ before_stray after_cr octets.now)) }
{
    if after_cr && is_other(octets, 0) {
        return Some(0);
    }
    let mut from = 0;
    'returns: while let Some(place) = next_place(b'\r', octets, from) {
        if is_other(octets, place + 1) {
            return Some(place + 1);
        }
        from = place + 1;
    }
    None
}

/// The first place from this one on where a line feed stands that no carriage return comes before.
/// What stands in front of it stays as it is in the text.
fn lone_feed(after_cr: bool, octets: &[u8], start: usize) -> Option<usize>
    requires { start ≤ length octets.now }
    ensures some { IfSome result (λ end. (start ≤ end) × (end < length octets.now)
        × (to_text after_cr (take (end + 1) octets.now) ≡ to_text after_cr (take start octets.now)
        ++ take (end - start) (drop start octets.now) ++ (13 ∷ 10 ∷ []))) }
    ensures none { IfNone result (to_text after_cr octets.now
        ≡ to_text after_cr (take start octets.now) ++ drop start octets.now) }
{
    let mut from = start;
    'feeds: while let Some(place) = next_place(b'\n', octets, from) {
        if !is_behind_cr(after_cr, octets, place) {
            return Some(place);
        }
        from = place + 1;
    }
    None
}

/// The first place from this one on where this octet stands.
fn next_place(octet: u8, octets: &[u8], from: usize) -> Option<usize>
    requires { from ≤ length octets.now }
    ensures { IsFirst (Passes (is_byte octet) octets.now) from (length octets.now) result }
{
    match memchr(octet, &octets[from..]) {
        Some(count) => Some(from + count),
        None => None,
    }
}

/// Whether a carriage return comes before this place, which may be the end.
pub(crate) fn is_behind_cr(after_cr: bool, octets: &[u8], place: usize) -> bool
    requires { place ≤ length octets.now }
    ensures { result ≡ ends_cr after_cr (take place octets.now) }
{
    if place == 0 {
        after_cr
    } else {
        octets[place - 1] == b'\r'
    }
}

/// Whether an octet stands at this place that is no line feed: a stray carriage return comes
/// before it, if one does.
fn is_other(octets: &[u8], place: usize) -> bool
    ensures yes { result ≡ true → (has_stray true (drop place octets.now) ≡ true)
        × (before_stray true (drop place octets.now) ≡ 0) }
    ensures no { result ≡ false
        → (has_stray true (drop place octets.now) ≡ has_stray false (drop place octets.now))
        × (before_stray true (drop place octets.now)
        ≡ before_stray false (drop place octets.now)) }
{
    place < octets.len() && octets[place] != b'\n'
}
