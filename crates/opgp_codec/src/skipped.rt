//! What lies outside of armored blocks and is passed over.

ghost use Rattle.std.specs.Prelude.{◌≡◌, ◌+◌, ◌≤◌, length, true, false};
ghost use Rattle.std.specs.List.{list_any};
ghost use Rattle.opgp_codec.specs.Foreign.{is_foreign};

use memchr::memrchr;
use opgp_armor::ArmorEvent;

/// The octets of a text outside of its blocks, with those of an unfinished line.
#[derive(Clone, Copy)]
pub(crate) struct Skipped {
    octets: u64,
    line: u64,
    is_text: bool,
    in_block: bool,
    ghost within: { line ≤ octets },
}

/// Whether no text has this octet: a control character that is no white space.
fn is_foreign(octet: u8) -> bool
    ensures { result ≡ is_foreign octet }
{
    octet < 9 || octet > 13 && octet < 32 || octet == 127
}

/// Whether no text has some octet of a part.
fn has_foreign(part: &[u8]) -> bool
    ensures { result ≡ list_any is_foreign part.now }
{
    part.iter().any(|octet| is_foreign(*octet))
}

impl Skipped {
    ghost use Rattle.opgp_codec.specs.Skipped.{begins_block, count_of, foreign_of, is_in_block};
    ghost use Rattle.opgp_codec.specs.Skipped.{Passes};

    /// Of a text of which nothing has come.
    pub(crate) fn none() -> Skipped
        ensures { count_of result ≡ 0 }
    {
        Skipped {
            octets: 0,
            line: 0,
            is_text: true,
            in_block: false,
        }
    }

    /// The number of the octets, if some of them are in no text; else 0.
    pub(crate) fn foreign(&self) -> u64
        ensures { result ≡ foreign_of self.now }
    {
        if self.is_text { 0 } else { self.octets }
    }

    /// Counts what was taken of a text, up to the end of the line that makes this event, or all
    /// that came.
    pub(crate) fn meet(&mut self, part: &[u8], event: &Option<ArmorEvent>)
        ensures outside { is_in_block self.old ≡ false → begins_block event.now ≡ false
            → Passes self.old self.new part.now }
        ensures begin { is_in_block self.old ≡ false → begins_block event.now ≡ true
            → count_of self.new ≤ count_of self.old + length part.now }
        ensures inside { is_in_block self.old ≡ true → count_of self.new ≡ count_of self.old }
    {
        if self.in_block {
            if let Some(ArmorEvent::End) = event {
                self.in_block = false;
            }
            return;
        }
        if let Some(ArmorEvent::Begin(_)) = event {
            self.begin(part);
        } else {
            self.pass(part);
        }
    }

    /// Counts a part of a text outside of blocks.
    fn pass(&mut self, part: &[u8])
        ensures { Passes self.old self.new part.now }
    {
        let count = part.len() as u64;
        let behind = match memrchr(b'\n', part) {
            Some(end) => (part.len() - end - 1) as u64,
            None => self.line.saturating_add(count),
        };
        self.octets = self.octets.saturating_add(count);
        self.line = behind.min(self.octets);
        self.is_text = self.is_text && !has_foreign(part);
    }

    /// Counts a part whose last line begins a block.
    fn begin(&mut self, part: &[u8])
        ensures { count_of self.new ≤ count_of self.old + length part.now }
    {
        let front = match part {
            [front @ .., _] => front,
            [] => part,
        };
        match memrchr(b'\n', front) {
            Some(end) => self.pass(&part[..end + 1]),
            None => self.octets -= self.line,
        }
        self.line = 0;
        self.in_block = true;
    }
}
