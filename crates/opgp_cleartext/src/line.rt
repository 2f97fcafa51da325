//! The lines of a text, and what one of them says.

ghost use Rattle.std.specs.Prelude.{◌≡◌, ◌≤◌, ◌<◌, ◌+◌, ◌++◌, ◌⊎◌, ◌∷◌, [], true, false, Some};
ghost use Rattle.std.specs.Prelude.{None, length, drop, IfSome, IfNone};
ghost use Rattle.std.specs.List.{list_all};
ghost use Rattle.opgp_armor.specs.Text.{content, is_trailing, lines};
ghost use Rattle.opgp_cleartext.specs.Line.{has_return, is_blank, shown_of, unescaped_of};
ghost use Rattle.opgp_cleartext.specs.Line.{without_blanks, without_return};

use memchr::memchr;

/// The line that begins here, without its line feed, and where the next one begins.
pub(crate) fn line_at(text: &[u8], at: usize) -> Option<(&[u8], usize)>
    requires { at ≤ length text.now }
    ensures some { IfSome result (λ r.
        lines (drop at text.now) ≡ r.0.now ∷ lines (drop r.1 text.now)) }
    ensures within { IfSome result (λ r. (at < r.1) × (r.1 ≤ length text.now)
        × (at + length r.0.now ≤ r.1)) }
    // It ends in a line feed, or with the text.
    ensures ended { IfSome result (λ r. ((r.1 ≡ at + (length r.0.now + 1))
        × (drop at text.now ≡ r.0.now ++ 10 ∷ drop r.1 text.now)) ⊎ (r.1 ≡ length text.now)) }
    ensures none { IfNone result (lines (drop at text.now) ≡ []) }
{
    let rest = &text[at..];
    match memchr(b'\n', rest) {
        Some(size) => Some((&rest[..size], at + size + 1)),
        None => {
            if rest.is_empty() {
                None
            } else {
                Some((rest, text.len()))
            }
        }
    }
}

/// Space, tab or carriage return.
fn is_trailing_octet(c: u8) -> bool
    ensures { result ≡ is_trailing c }
{
    c == b' ' || c == b'\t' || c == b'\r'
}

/// A line without its trailing spaces, tabs and carriage returns, as armor reads its lines.
pub(crate) fn content_of(line: &[u8]) -> &[u8]
    ensures { result.now ≡ content line.now }
{
    let mut end = line.len();
    'strip: while end > 0 && is_trailing_octet(line[end - 1]) {
        end -= 1;
    }
    &line[..end]
}

/// Space or tab.
pub(crate) fn is_blank_octet(c: u8) -> bool
    ensures { result ≡ is_blank c }
{
    c == b' ' || c == b'\t'
}

/// A line without the spaces and tabs at its end.
pub(crate) fn cut_blanks(line: &[u8]) -> &[u8]
    ensures { result.now ≡ without_blanks line.now }
{
    let mut end = line.len();
    'strip: while end > 0 && is_blank_octet(line[end - 1]) {
        end -= 1;
    }
    &line[..end]
}

/// A line without the carriage return at its end, if it has one there.
pub(crate) fn cut_return(line: &[u8]) -> &[u8]
    ensures { result.now ≡ without_return line.now }
{
    let size = line.len();
    if size > 0 && line[size - 1] == b'\r' {
        &line[..size - 1]
    } else {
        line
    }
}

/// Whether there is a carriage return among the octets.
pub(crate) fn has_return(octets: &[u8]) -> bool
    ensures { result ≡ has_return octets.now }
{
    match memchr(b'\r', octets) {
        Some(_) => true,
        None => false,
    }
}

/// A line with its escaping undone; None if a hyphen begins it that escapes nothing.
pub(crate) fn unescaped(line: &[u8]) -> Option<&[u8]>
    ensures some { IfSome result (λ octets. unescaped_of line.now ≡ Some octets.now) }
    ensures none { IfNone result (unescaped_of line.now ≡ None) }
{
    match line {
        [b'-', b' ', octets @ ..] => Some(octets),
        [b'-', ..] => None,
        _ => Some(line),
    }
}

/// The line of the document that a line of a message's text says.
pub(crate) fn shown_line(line: &[u8]) -> &[u8]
    ensures { result.now ≡ shown_of line.now }
{
    let bare = cut_return(line);
    match unescaped(bare) {
        Some(octets) => cut_blanks(octets),
        None => cut_blanks(bare),
    }
}
