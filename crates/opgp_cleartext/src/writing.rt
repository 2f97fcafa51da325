//! The lines that a text says, joined: counted, appended, or put into a table.

ghost use Rattle.std.specs.Prelude.{◌≡◌, ◌≤◌, ◌+◌, ◌++◌, length, drop, take, map, vec_len};
ghost use Rattle.std.specs.Prelude.{vec_capacity};
ghost use Rattle.opgp_armor.specs.Text.{lines};
ghost use Rattle.opgp_cleartext.specs.Cleartext.{joined_by};
ghost use Rattle.opgp_cleartext.specs.Line.{shown_of};

use crate::line::{line_at, shown_line};
use opgp_octets::put;

/// How many octets the lines have that the text says, joined by `between`.
pub(crate) fn joined_len(text: &[u8], between: &[u8]) -> usize
    requires { length between.now ≤ 2 }
    ensures { result ≡ length (joined_by between.now (map shown_of (lines text.now))) }
{
    let Some((first, next)) = line_at(text, 0) else {
        return 0;
    };
    let mut count = shown_line(first).len();
    let mut at = next;
    'lines: while let Some((line, next)) = line_at(text, at) {
        count += between.len() + shown_line(line).len();
        at = next;
    }
    count
}

/// Writes the lines that the text says, joined by `between`, at the end of `out`, which has room
/// for them.
pub(crate) fn put_joined(text: &[u8], between: &[u8], out: &mut Vec<u8>)
    requires { vec_len out.old + length (joined_by between.now (map shown_of (lines text.now)))
        ≤ vec_capacity out.old }
    ensures { out.new.items
        ≡ out.old.items ++ joined_by between.now (map shown_of (lines text.now)) }
{
    let Some((first, next)) = line_at(text, 0) else {
        return;
    };
    put(shown_line(first), out);
    let mut at = next;
    'lines: while let Some((line, next)) = line_at(text, at) {
        put(between, out);
        put(shown_line(line), out);
        at = next;
    }
}

/// Puts the lines that the text says, joined by `between`, at the front of a table, which has room
/// for them.
pub(crate) fn fill_joined(text: &[u8], between: &[u8], table: &mut [u8])
    requires { length (joined_by between.now (map shown_of (lines text.now)))
        ≤ length table.old }
    ensures { table.new ≡ joined_by between.now (map shown_of (lines text.now))
        ++ drop (length (joined_by between.now (map shown_of (lines text.now)))) table.old }
{
    let Some((first, next)) = line_at(text, 0) else {
        return;
    };
    let first = shown_line(first);
    put_at(table, 0, first);
    let mut count = first.len();
    let mut at = next;
    'lines: while let Some((line, next)) = line_at(text, at) {
        put_at(table, count, between);
        count += between.len();
        let shown = shown_line(line);
        put_at(table, count, shown);
        count += shown.len();
        at = next;
    }
}

/// Puts octets behind the first `at` of a table.
fn put_at(table: &mut [u8], at: usize, octets: &[u8])
    requires { at + length octets.now ≤ length table.old }
    ensures { table.new ≡ take at table.old
        ++ (octets.now ++ drop (at + length octets.now) table.old) }
{
    table[at..at + octets.len()].copy_from_slice(octets);
}
