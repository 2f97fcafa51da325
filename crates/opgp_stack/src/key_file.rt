//! Files of the names of keys.

ghost use Rattle.std.specs.Prelude.{◌≡◌, ◌+◌, ◌≤◌, ◌++◌, ◌∷◌, [], ℕ, List, true, IfOk, IfSome};
ghost use Rattle.std.specs.Prelude.{MatchBool, MatchResult, length, option_map};
ghost use Rattle.std.specs.List.{position_or_len};
ghost use Rattle.opgp_stack.specs.KeyFile.{IsKeyLine, NameKeys, NameNoneAt, is_comment, is_line_end};
ghost use Rattle.opgp_stack.specs.KeyFile.{lines_behind, lines_in, names_key, trimmed};
ghost use Rattle.opgp_stack.specs.declared.key_name.KeyName.{KeyName};

use crate::key_name::KeyName;
use memchr::memchr;
use opgp_octets::OutOfMemory;
use std::alloc::Global;

/// How many octets are in front of the first line feed.
#[tactic(auto, using(opgp_document::proofs::FirstPlaces::place_or_len))]
fn line_len(octets: &[u8]) -> usize
    ensures { result ≡ position_or_len is_line_end octets.now }
{
    match memchr(b'\n', octets) {
        Some(at) => at,
        None => octets.len(),
    }
}

/// The first line, and what is behind its line feed, if it has one.
fn first_line<'a>(octets: &'a [u8]) -> (&'a [u8], Option<&'a [u8]>)
    ensures lines { lines_in octets.now
        ≡ result.0.now ∷ lines_behind (option_map (λ rest. rest.now) result.1) }
    ensures behind { IfSome result.1 (λ rest. length rest.now + 1 ≤ length octets.now) }
{
    let end = line_len(octets);
    if end < octets.len() {
        (&octets[..end], Some(&octets[end + 1..]))
    } else {
        (octets, None)
    }
}

/// Whether a line without blanks around it is empty or a comment.
fn is_comment(text: &[u8]) -> bool
    ensures { result ≡ is_comment text.now }
{
    match text {
        [] => true,
        [first, ..] => *first == b'#',
    }
}

/// Adds the key that a line names, if it is to name one. Whether it does, or needn't. Fails only
/// when out of memory.
fn add_line(keys: &mut Vec<KeyName>, line: &[u8]) -> Result<bool, OutOfMemory>
    ensures named { IfOk result (λ good. MatchBool good
        ((lines : List (List ℕ)) → NameKeys lines keys.old.items
        → NameKeys (lines ++ line.now ∷ []) keys.new.items)
        ((names_key line.now ≡ true) × ((key : KeyName) → IsKeyLine line.now key → ⊥))) }
{
    let text = line.trim_ascii();
    if is_comment(text) {
        return Ok(true);
    }
    match KeyName::read(text) {
        Some(key) => {
            keys.push(key)?;
            Ok(true)
        }
        None => Ok(false),
    }
}

/// The keys that a file names, in the order of its lines, each of which says a key as
/// [`KeyName::parse`] reads it. Blanks around a line count for nothing; blank lines, and lines that
/// begin with `#`, name none.
///
/// The inner error is the number, from 1, of the first line that is to name a key and doesn't.
/// Fails only when out of memory.
pub fn keys_in(alloc: Global, file: &[u8]) -> Result<Result<Vec<KeyName>, u64>, OutOfMemory>
    ensures { IfOk result (λ said. MatchResult said
        (λ keys. NameKeys (lines_in file.now) keys.items)
        (λ line. (above : ℕ) × (line ≡ above + 1) × NameNoneAt (lines_in file.now) above)) }
{
    let mut keys = Vec::new(alloc);
    let mut line = 1u64;
    let mut left = Some(file);
    'lines: while let Some(octets) = left {
        let (first, behind) = first_line(octets);
        if !add_line(&mut keys, first)? {
            return Ok(Err(line));
        }
        line += 1;
        left = behind;
    }
    Ok(Ok(keys))
}
