//! Writing armor.

ghost use Rattle.std.specs.Prelude.{◌≡◌, ◌≤◌, ◌++◌, ◌∷◌, [], length, take, map, IfOk, OnOk};
ghost use Rattle.opgp_armor.specs.Armored.{Armored};
ghost use Rattle.opgp_armor.specs.Blocks.{headers_of};
ghost use Rattle.opgp_armor.specs.Rules.{LineRule};
ghost use Rattle.opgp_armor.specs.Text.{begin_line, end_line};
ghost use Rattle.opgp_armor.specs.Letters.{base64_of};
ghost use Rattle.opgp_armor.specs.Written.{AreWithin, AreWritable, armor_text, data_lines};
ghost use Rattle.opgp_armor.specs.Written.{header_line, text_of};

use crate::label::Label;
use base64::engine::general_purpose::STANDARD;
use opgp_octets::OutOfMemory;
use std::alloc::Global;

/// Appends a line with its line feed.
fn add_line(text: &mut Vec<u8>, line: &[u8]) -> Result<(), OutOfMemory>
    ensures { OnOk result (text.new.items ≡ text.old.items ++ (line.now ++ 10 ∷ [])) }
{
    text.extend_from_slice(line)?;
    text.push(b'\n')?;
    Ok(())
}

/// Appends the line of a header.
fn add_header(text: &mut Vec<u8>, key: &[u8], value: &[u8]) -> Result<(), OutOfMemory>
    ensures { OnOk result
        (text.new.items ≡ text.old.items ++ (header_line (key.now, value.now) ++ 10 ∷ [])) }
{
    text.extend_from_slice(key)?;
    text.extend_from_slice(b": ")?;
    add_line(text, value)
}

/// Appends the lines of headers.
fn add_headers(text: &mut Vec<u8>, headers: &[(Vec<u8>, Vec<u8>)]) -> Result<(), OutOfMemory>
    ensures { OnOk result
        (text.new.items ≡ text.old.items ++ text_of (map header_line (headers_of headers.now))) }
{
    for (key, value) in headers {
        add_header(text, key.as_slice(), value.as_slice())?;
    }
    Ok(())
}

/// Writes the letters of a data line (RFC 9580, 6.2), and returns how many there are.
///
/// A row has at most 48 octets, so the line has at most 64 letters. Its line feed isn't written.
#[tactic(auto, unfolding(crate::specs::Letters::base64_of))]
pub fn encode_row(octets: &[u8], row: &mut [u8; 64]) -> usize
    requires { length octets.now ≤ 48 }
    ensures within { result ≤ 64 }
    ensures letters { take result row.new ≡ base64_of octets.now }
{
    match STANDARD.encode_slice(octets, row) {
        Ok(count) => count,
        Err(_) => unreachable!(),
    }
}

/// Appends the data lines of the octets, 64 letters a line; the last line may be shorter.
fn add_letters(text: &mut Vec<u8>, octets: &[u8]) -> Result<(), OutOfMemory>
    ensures { OnOk result (text.new.items ≡ text.old.items ++ data_lines octets.now) }
{
    let mut rest = octets;
    'rows: while rest.len() > 0 {
        let (front, after) = rest.split_at(rest.len().min(48));
        let mut row = [0; 64];
        let count = encode_row(front, &mut row);
        add_line(text, &row[..count])?;
        rest = after;
    }
    Ok(())
}

/// How many octets the text takes, if a vector can be that long.
fn text_size(label: Label, headers: &[(Vec<u8>, Vec<u8>)], octets: &[u8]) -> usize {
    let mut size = label.begin_line().len() + label.end_line().len() + 3;
    for (key, value) in headers {
        size = size
            .saturating_add(key.len())
            .saturating_add(value.len())
            .saturating_add(3);
    }
    let letters = octets.len().div_ceil(3).saturating_mul(4);
    size.saturating_add(letters)
        .saturating_add(octets.len().div_ceil(48))
}

/// One block as an armored text (RFC 9580, 6.2): 64 letters a line, lines that end in a line feed,
/// no checksum.
///
/// The condition is that each header can be written: its key isn't empty and has neither a colon
/// nor a line feed, and its value has no line feed and doesn't end in a space, a tab or a carriage
/// return.
///
/// The text is a new vector, which is allocated once. Fails only when out of memory.
pub fn armor(
    alloc: Global,
    label: Label,
    headers: &[(Vec<u8>, Vec<u8>)],
    octets: &[u8],
) -> Result<Vec<u8>, OutOfMemory>
    requires { AreWritable (headers_of headers.now) }
    ensures text { IfOk result (λ text.
        text.items ≡ armor_text label (headers_of headers.now) octets.now) }
    ensures block { IfOk result (λ text. (rule : LineRule)
        → 128 ≤ rule.most → AreWithin rule.most (headers_of headers.now) → Armored rule text.items
        (record { label = label; headers = headers_of headers.now; octets = octets.now } ∷ [])) }
{
    let mut text = Vec::new(alloc);
    text.reserve_exact(text_size(label, headers, octets))?;
    add_line(&mut text, label.begin_line())?;
    add_headers(&mut text, headers)?;
    add_line(&mut text, b"")?;
    add_letters(&mut text, octets)?;
    add_line(&mut text, label.end_line())?;
    Ok(text)
}
