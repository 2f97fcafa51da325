//! The blocks of a text, one after the other.

ghost use Rattle.std.specs.Prelude.{◌≤◌, length};

use crate::found::FoundBlock;
use crate::line::first_at;
use crate::searching::{next_begin, rest_of_block};

/// The blocks of a text, in order: an iterator that allocates nothing.
#[derive(Clone, Copy, Debug)]
pub struct Blocks<'a> {
    pub(crate) text: &'a [u8],
    pub(crate) at: usize,
    ghost within: { at ≤ length text.now },
}

impl<'a> Blocks<'a> {
    ghost use Rattle.std.specs.Prelude.{◌≡◌, ◌∷◌, [], IfSome, IfNone};
    ghost use Rattle.opgp_blocks.specs.Blocks.{found_in};
    ghost use Rattle.opgp_blocks.specs.View.{found_value, left_of};

    /// The blocks of a text.
    pub fn new(text: &'a [u8]) -> Blocks<'a>
        ensures { left_of result ≡ found_in text.now }
    {
        let at = first_at(text);
        Blocks { text, at }
    }

    /// The next block, if there is one. All calls together take time linear in the text.
    pub fn next(&mut self) -> Option<FoundBlock<'a>>
        ensures some { IfSome result (λ b. left_of self.old ≡ found_value b ∷ left_of self.new) }
        ensures none { IfNone result (left_of self.old ≡ []) }
    {
        let text = self.text;
        let begin = next_begin(text, self.at)?;
        let rest = rest_of_block(text, begin.line);
        self.at = rest.next;
        Some(FoundBlock {
            text,
            first: begin.first,
            lines: rest.lines + 1,
            at: begin.line.at,
            size: rest.end - begin.line.at,
            wanted: begin.line.content.len() + 1 + rest.wanted,
        })
    }
}
