//! The lines of a text, and what one of them says.

ghost use Rattle.std.specs.Prelude.{◌≡◌, ◌≢◌, ◌≤◌, ◌<◌, ◌+◌, ◌-◌, ◌∷◌, [], ℕ, true, false};
ghost use Rattle.std.specs.Prelude.{length, drop, IfSome, IfNone};
ghost use Rattle.opgp_armor.specs.Text.{is_trailing};
ghost use Rattle.opgp_blocks.specs.Line.{behind_leading, first_at, is_ending, is_leading};
ghost use Rattle.opgp_blocks.specs.Line.{is_br, shown_at, shown_from, without_endings};
ghost use Rattle.opgp_blocks.specs.View.{shown_value};

use memchr::memchr;

/// A line of a text: where its content begins, that content, and where the next line begins.
#[derive(Clone, Copy)]
pub(crate) struct ShownLine<'a> {
    pub(crate) at: usize,
    pub(crate) content: &'a [u8],
    pub(crate) next: usize,
}

/// The line that begins here, if there is one.
pub(crate) fn line_at(text: &[u8], at: usize) -> Option<ShownLine<'_>>
    requires { at ≤ length text.now }
    ensures some { IfSome result (λ r.
        shown_from at text.now ≡ shown_value r ∷ shown_from r.next text.now) }
    ensures within { IfSome result (λ r. (at < r.next) × (r.next ≤ length text.now)) }
    ensures content { IfSome result (λ r. (at ≤ r.at)
        × (r.at + length r.content.now ≤ r.next)) }
    // Only at the end of the text is there no room for a line feed.
    ensures fed { IfSome result (λ r. r.next < length text.now
        → r.at + length r.content.now < r.next) }
    ensures none { IfNone result (shown_from at text.now ≡ []) }
{
    let rest = &text[at..];
    match memchr(b'\n', rest) {
        Some(size) => Some(shown(&rest[..size], at, at + size + 1)),
        None => {
            if rest.is_empty() {
                None
            } else {
                Some(shown(rest, at, text.len()))
            }
        }
    }
}

/// Where the first line begins: behind a byte order mark.
pub(crate) fn first_at(text: &[u8]) -> usize
    ensures { result ≡ first_at text.now }
{
    if text.starts_with(b"\xef\xbb\xbf".as_slice()) {
        3
    } else {
        0
    }
}

/// What this line says, which begins here, in front of the next one.
fn shown(line: &[u8], at: usize, next: usize) -> ShownLine<'_>
    requires { at + length line.now ≤ next }
    ensures value { shown_value result ≡ shown_at at line.now }
    ensures next { result.next ≡ next }
    ensures content { (at ≤ result.at)
        × (result.at + length result.content.now ≤ at + length line.now) }
{
    let rest = skip_leading(line);
    ShownLine {
        at: at + (line.len() - rest.len()),
        content: cut_endings(rest),
        next,
    }
}

/// Space, tab or `>`.
fn is_leading_octet(c: u8) -> bool
    ensures { result ≡ is_leading c }
{
    c == b' ' || c == b'\t' || c == b'>'
}

/// What is behind the spaces, tabs and `>` that a line begins with.
fn skip_leading(line: &[u8]) -> &[u8]
    ensures value { result.now ≡ behind_leading line.now }
    ensures few { length result.now ≤ length line.now }
{
    let mut rest = line;
    'leading: while let [c, more @ ..] = rest {
        if !is_leading_octet(*c) {
            return rest;
        }
        rest = more;
    }
    rest
}

/// Space, tab or carriage return.
fn is_trailing_octet(c: u8) -> bool
    ensures { result ≡ is_trailing c }
{
    c == b' ' || c == b'\t' || c == b'\r'
}

/// Whether these octets are `<br` in either case.
fn is_br(a: u8, b: u8, c: u8) -> bool
    ensures { result ≡ is_br a b c }
{
    (c == b'r' || c == b'R') && (b == b'b' || b == b'B') && a == b'<'
}

/// Whether the octets are what may end a line: one space, tab or carriage return, or a break of
/// HTML.
fn is_ending(octets: &[u8]) -> bool
    ensures { result ≡ is_ending octets.now }
{
    match octets {
        [a] => is_trailing_octet(*a),
        [a, b, c, d] => is_br(*a, *b, *c) && *d == b'>',
        [a, b, c, d, e] => is_br(*a, *b, *c) && *d == b'/' && *e == b'>',
        [a, b, c, d, e, f] => is_br(*a, *b, *c) && *d == b' ' && *e == b'/' && *f == b'>',
        _ => false,
    }
}

/// Whether the last octets of a line, so many, may end it.
fn ends_by(line: &[u8], size: usize) -> bool
    ensures short { result ≡ true → size ≤ length line.now }
    ensures value { size ≤ length line.now
        → result ≡ is_ending (drop (length line.now - size) line.now) }
{
    size <= line.len() && is_ending(&line[line.len() - size..])
}

/// How many octets at the end of a line are what may end it; 0 if none are.
fn ending_size(line: &[u8]) -> usize
    ensures within { result ≤ length line.now }
    ensures found { result ≢ 0 → is_ending (drop (length line.now - result) line.now) ≡ true }
    ensures none { result ≡ 0 → (k : ℕ) → is_ending (drop k line.now) ≡ false }
{
    if ends_by(line, 1) {
        1
    } else if ends_by(line, 4) {
        4
    } else if ends_by(line, 5) {
        5
    } else if ends_by(line, 6) {
        6
    } else {
        0
    }
}

/// A line without the endings at its end.
fn cut_endings(line: &[u8]) -> &[u8]
    ensures value { result.now ≡ without_endings line.now }
    ensures few { length result.now ≤ length line.now }
{
    let mut rest = line;
    let mut size = ending_size(rest);
    'endings: while size > 0 {
        rest = &rest[..rest.len() - size];
        size = ending_size(rest);
    }
    rest
}
