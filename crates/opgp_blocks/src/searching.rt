//! Where a block begins in a text, and where it ends.

ghost use Rattle.std.specs.Prelude.{◌≡◌, ◌≤◌, ◌<◌, ◌+◌, ◌*◌, ◌∷◌, [], length, IfSome, IfNone};
ghost use Rattle.opgp_blocks.specs.Line.{shown_from};
ghost use Rattle.opgp_blocks.specs.Blocks.{blocks, cleaned, end_of, lines_from, up_to_end};
ghost use Rattle.opgp_blocks.specs.View.{shown_value};

use crate::kind::{begins, ends};
use crate::line::{ShownLine, line_at};

/// A line that begins a block, and where that line begins.
#[derive(Clone, Copy)]
pub(crate) struct Begin<'a> {
    pub(crate) first: usize,
    pub(crate) line: ShownLine<'a>,
}

/// What a block has behind its first line: how many lines, where the content of the last one ends,
/// how many octets it has when it is cleaned; and where the line behind it begins.
#[derive(Clone, Copy)]
pub(crate) struct Rest {
    pub(crate) lines: usize,
    pub(crate) end: usize,
    pub(crate) wanted: usize,
    pub(crate) next: usize,
}

/// The first line that begins a block, from this line on.
pub(crate) fn next_begin(text: &[u8], at: usize) -> Option<Begin<'_>>
    requires { at ≤ length text.now }
    ensures some { IfSome result (λ b. blocks (shown_from at text.now)
        ≡ (shown_value b.line ∷ up_to_end (shown_from b.line.next text.now))
        ∷ blocks (shown_from b.line.next text.now)) }
    ensures first { IfSome result (λ b. shown_from b.first text.now
        ≡ shown_value b.line ∷ shown_from b.line.next text.now) }
    ensures within { IfSome result (λ b. (b.first ≤ b.line.at)
        × (b.line.at + length b.line.content.now ≤ b.line.next)
        × (b.line.next ≤ length text.now)) }
    ensures none { IfNone result (blocks (shown_from at text.now) ≡ []) }
{
    let mut first = at;
    'lines: while let Some(line) = line_at(text, first) {
        if begins(line.content) {
            return Some(Begin { first, line });
        }
        first = line.next;
    }
    None
}

/// What the block has behind its first line.
pub(crate) fn rest_of_block(text: &[u8], begin: ShownLine<'_>) -> Rest
    requires within { begin.next ≤ length text.now }
    requires content { begin.at + length begin.content.now ≤ begin.next }
    ensures lines { lines_from result.lines begin.entry.next text.now
        ≡ up_to_end (shown_from begin.entry.next text.now) }
    ensures end { result.end ≡ end_of (shown_value begin.entry)
        (up_to_end (shown_from begin.entry.next text.now)) }
    ensures wanted { result.wanted
        ≡ length (cleaned (up_to_end (shown_from begin.entry.next text.now))) }
    ensures next { blocks (shown_from result.next text.now)
        ≡ blocks (shown_from begin.entry.next text.now) }
    ensures bounds { (result.next ≤ length text.now) × (begin.entry.at ≤ result.end)
        × (result.lines + begin.entry.next ≤ result.next)
        × (result.wanted + 2 * begin.entry.next ≤ 2 * result.next) }
{
    let mut rest = Rest {
        lines: 0,
        end: begin.at + begin.content.len(),
        wanted: 0,
        next: begin.next,
    };
    'lines: while let Some(line) = line_at(text, rest.next) {
        if begins(line.content) {
            return rest;
        }
        rest = Rest {
            lines: rest.lines + 1,
            end: line.at + line.content.len(),
            wanted: rest.wanted + line.content.len() + 1,
            next: line.next,
        };
        if ends(line.content) {
            return rest;
        }
    }
    rest
}
