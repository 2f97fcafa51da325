//! Words written one after the other into a slice of fixed length.

ghost use Rattle.std.specs.Prelude.{◌≡◌, ◌<◌, ◌≤◌, ℕ, length, IfSome};
ghost use Rattle.std.specs.Fmt.{decimal};
ghost use Rattle.hex.specs.Hex.{encode_upper};
ghost use Rattle.opgp_io.specs.Line.{line_text, word_text};
ghost use Rattle.opgp_io.specs.Place.{Wrote};
ghost use Rattle.opgp_io.specs.Texts.{escaped};

use crate::line::Word;
use crate::words::plain_len;
use opgp_octets::write_digits;

/// The greatest number of digits of a number of 64 bits.
const LONGEST: usize = 20;

/// How many digits a number of at most four digits has.
fn short_decimal_len(n: u64) -> usize
    requires { n < 10000 }
    ensures { result ≡ length (decimal n) }
{
    if n < 10 {
        1
    } else if n < 100 {
        2
    } else if n < 1000 {
        3
    } else {
        4
    }
}

/// How many digits a number has.
fn decimal_len(n: u64) -> usize
    ensures { result ≡ length (decimal n) }
{
    let mut left = n;
    let mut count = 0;
    'fours: while left >= 10_000 {
        left /= 10_000;
        count += 4;
    }
    count + short_decimal_len(left)
}

/// Writes octets as they are. Returns where they end, or None if there is no room for them.
fn write_text(place: &mut [u8], at: usize, octets: &[u8]) -> Option<usize>
    requires { at ≤ length place.old }
    ensures { IfSome result (λ end. Wrote place.old place.new at end octets.now) }
{
    if octets.len() > place.len() - at {
        return None;
    }
    let end = at + octets.len();
    let here = &mut place[at..end];
    here.copy_from_slice(octets);
    Some(end)
}

/// Writes a number in decimal. Returns where it ends, or None if there may be no room for it.
fn write_decimal(place: &mut [u8], at: usize, n: u64) -> Option<usize>
    requires { at ≤ length place.old }
    ensures { IfSome result (λ end. Wrote place.old place.new at end (decimal n)) }
{
    if place.len() - at < LONGEST {
        return None;
    }
    let end = at + decimal_len(n);
    itoa::write_digits(n, place, end);
    Some(end)
}

/// Writes octets in upper-case hexadecimal. Returns where they end, or None if there is no room for
/// them.
fn write_hex(place: &mut [u8], at: usize, octets: &[u8]) -> Option<usize>
    requires { at ≤ length place.old }
    ensures { IfSome result (λ end. Wrote place.old place.new at end (encode_upper octets.now)) }
{
    if octets.len() > (place.len() - at) / 2 {
        return None;
    }
    let end = at + 2 * octets.len();
    let here = &mut place[at..end];
    write_digits(octets, here);
    Some(end)
}

/// Writes octets as a text without escapes. Returns where they end, or None if one has to be
/// escaped, or there is no room for them.
fn write_escaped(place: &mut [u8], at: usize, octets: &[u8]) -> Option<usize>
    requires { at ≤ length place.old }
    ensures { IfSome result (λ end. Wrote place.old place.new at end (escaped octets.now)) }
{
    if plain_len(octets) < octets.len() {
        return None;
    }
    write_text(place, at, octets)
}

/// Writes a word. Returns where it ends, or None if there may be no room for it, or if an octet of
/// it has to be escaped.
fn write_word(place: &mut [u8], at: usize, word: &Word<'_>) -> Option<usize>
    requires { at ≤ length place.old }
    ensures { IfSome result (λ end. Wrote place.old place.new at end (word_text word.now)) }
{
    match *word {
        Word::Text(octets) => write_text(place, at, octets),
        Word::Decimal(n) => write_decimal(place, at, n),
        Word::Hex(octets) => write_hex(place, at, octets),
        Word::Escaped(octets) => write_escaped(place, at, octets),
    }
}

/// Writes words, one after the other, at the front of a slice. Returns where they end, or None if
/// there may be no room for them, or if an octet of an escaped one has to be escaped.
pub(crate) fn write_words(place: &mut [u8], words: &[Word<'_>]) -> Option<usize>
    ensures { IfSome result (λ end. Wrote place.old place.new 0 end (line_text words.now)) }
{
    let mut at = 0;
    for word in words {
        at = write_word(place, at, word)?;
    }
    Some(at)
}
