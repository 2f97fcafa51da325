//! Armored text, from its octets to framed blocks.

ghost use Rattle.std.specs.Prelude.{◌≡◌, ◌<◌, ◌≤◌, ◌+◌, ◌^◌, ◌++◌, ◌⊎◌, ℕ, List, [], length, false};
ghost use Rattle.std.specs.Prelude.{true, take, IfOk, IfSome, OnOk, Some, None};
ghost use Rattle.opgp_octets.specs.declared.limits.Limits.{Limits};
ghost use Rattle.opgp_armor.specs.declared.label.Label.TheVariants.{Message};
ghost use Rattle.opgp_armor.specs.Events.{events_of};
ghost use Rattle.opgp_keyring.specs.Composition.{Item};

use crate::blocks::Blocks;
use crate::found::Opening;
use crate::skipped::Skipped;
use opgp_armor::laws::{
    events_are_in_order, no_more_blocks_than_octets, no_more_octets_than_given,
};
use opgp_armor::{ArmorEvent, Dearmor, Label};
use opgp_octets::{Fault, Limits, OutOfMemory};
use std::alloc::{AllocError, Global};

/// So many octets of lines are framed together: most packets are whole among them, and are lent
/// from there.
const MANY: usize = 8192;

/// What comes behind the octets of lines that wait.
#[derive(Clone, Copy)]
pub(crate) enum Behind {
    /// Nothing yet.
    Nothing,
    /// The begin line of a block.
    Begin(Label),
    /// The end line of the block.
    End,
}

/// Armored text on its way to packets: its reader, and the octets of lines that aren't framed yet.
#[derive(Drop)]
pub(crate) struct Text {
    dearmor: Dearmor,
    octets: Vec<u8>,
    lent: usize,
    at: usize,
    behind: Behind,
    skipped: Skipped,
    ghost within: { at ≤ length octets.items },
    ghost before: { lent ≤ length octets.items },
    ghost small: { length octets.items < 2 ^ 64 },
}

impl Text {
    ghost use Rattle.opgp_codec.specs.Blocks.{FindsIf, FindsIn, Framed, has_begun, part_of};
    ghost use Rattle.opgp_codec.specs.Skipped.{foreign_of};
    ghost use Rattle.opgp_codec.specs.Text.{IsEnd, Keeps, Through};
    ghost use Rattle.opgp_codec.specs.Text.{IsDrained, count_of, lent_octets, work_of};
    ghost use Rattle.opgp_codec.specs.declared.accepts.Accepts.{Accepts};
    ghost use Rattle.opgp_codec.specs.declared.blocks.Blocks.{Blocks};
    ghost use Rattle.opgp_codec.specs.declared.text.Behind.TheVariants.{Nothing};

    /// A text of which nothing has come. Allocates nothing; steps do, from `alloc`.
    pub(crate) fn new(alloc: Global, limits: Limits) -> Text
        ensures through { (accepts : Accepts) (f : Blocks) (items : List Item) → has_begun f ≡ false
            → Framed accepts limits f [] (Some Message) [] items
            → Through accepts limits result f [] items }
        ensures count { count_of result ≡ 0 }
        ensures work { work_of result ≡ 0 }
    {
        Text {
            dearmor: Dearmor::new(alloc, limits),
            octets: Vec::new(alloc),
            lent: 0,
            at: 0,
            behind: Behind::Nothing,
            skipped: Skipped::none(),
        }
    }

    /// How many octets outside of armored blocks were passed over, if they are no text; else 0.
    pub(crate) fn skipped(&self) -> u64
        ensures { result ≡ foreign_of self.now.skipped }
    {
        self.skipped.foreign()
    }

    /// The octets from which the last packet was lent.
    pub(crate) fn octets(&self) -> &[u8]
        ensures { result.now ≡ lent_octets self.now }
    {
        &self.octets[self.lent..]
    }

    /// Takes octets of the piece up to the end of what they complete, or all of them. What waits
    /// comes first. Some is the number of octets, where the framer has found something.
    ///
    /// Fails only when out of memory.
    pub(crate) fn step(
        &mut self,
        framer: &mut Blocks,
        piece: &[u8],
    ) -> Result<Option<usize>, OutOfMemory>
        requires through { (accepts : Accepts) × (limits : Limits) × (input : List ℕ)
            × (items : List Item) × Through accepts limits self.old framer.old input items }
        requires room { count_of self.old + length piece.now < 2 ^ 63 }
        ensures through { IfOk result (λ r. (found : List Item)
            × FindsIn r framer.new (lent_octets self.new) found
            × ((accepts : Accepts) (limits : Limits) (input : List ℕ) (items : List Item)
            → Through accepts limits self.old framer.old input items
            → Through accepts limits self.new framer.new (input ++ part_of r piece.now)
            (items ++ found))) }
        ensures within { IfOk result (λ r. IfSome r (λ n. n ≤ length piece.now)) }
        ensures drained { IfOk result (λ r. r ≡ None → IsDrained self.new) }
        ensures moves { IfOk result (λ r. IfSome r (λ n.
            (0 < n) ⊎ (work_of self.new < work_of self.old))) }
    {
        if self.drain(framer)? {
            return Ok(Some(0));
        }
        let mut taken = 0;
        'fills: while taken < piece.len() {
            taken += self.fill(&piece[taken..])?;
            if self.drain(framer)? {
                return Ok(Some(taken));
            }
        }
        Ok(None)
    }

    /// Frames the octets that wait, and what is behind them, up to what they complete. Whether the
    /// framer has found something; else nothing is left.
    fn drain(&mut self, framer: &mut Blocks) -> Result<bool, OutOfMemory>
        requires { (accepts : Accepts) × (limits : Limits) × (input : List ℕ)
            × (items : List Item) × Through accepts limits self.old framer.old input items }
        ensures through { IfOk result (λ finds. (found : List Item)
            × FindsIf finds framer.new (lent_octets self.new) found
            × ((accepts : Accepts) (limits : Limits) (input : List ℕ) (items : List Item)
            → Through accepts limits self.old framer.old input items
            → Through accepts limits self.new framer.new input (items ++ found))) }
        ensures drained { IfOk result (λ finds. finds ≡ false → IsDrained self.new) }
        ensures moves { IfOk result (λ finds. finds ≡ true → work_of self.new < work_of self.old) }
        ensures count { IfOk result (λ finds. count_of self.new ≡ count_of self.old) }
    {
        if self.frame(framer)? {
            return Ok(true);
        }
        Ok(self.pass(framer))
    }

    /// Frames octets that wait, up to what they complete. Whether the framer has found something;
    /// else none are left.
    fn frame(&mut self, framer: &mut Blocks) -> Result<bool, OutOfMemory>
        requires through { (accepts : Accepts) × (limits : Limits) × (input : List ℕ)
            × (items : List Item) × Through accepts limits self.old framer.old input items }
        ensures through { IfOk result (λ finds. (found : List Item)
            × FindsIf finds framer.new (lent_octets self.new) found
            × ((accepts : Accepts) (limits : Limits) (input : List ℕ) (items : List Item)
            → Through accepts limits self.old framer.old input items
            → Through accepts limits self.new framer.new input (items ++ found))) }
        ensures all { IfOk result (λ finds.
            finds ≡ false → length self.new.octets.items ≤ self.new.at) }
        ensures moves { IfOk result (λ finds. finds ≡ true → self.old.at < self.new.at) }
        ensures octets { IfOk result (λ finds. self.new.octets ≡ self.old.octets) }
        ensures behind { IfOk result (λ finds. self.new.behind ≡ self.old.behind) }
        ensures count { IfOk result (λ finds. count_of self.new ≡ count_of self.old) }
    {
        if self.at >= self.octets.len() {
            return Ok(false);
        }
        no_more_octets_than_given();
        self.lent = self.at;
        self.at += framer.next(&self.octets[self.at..])?;
        Ok(framer.finds())
    }

    /// Passes on what is behind octets that are framed. Whether the framer has found something.
    fn pass(&mut self, framer: &mut Blocks) -> bool
        requires through { (accepts : Accepts) × (limits : Limits) × (input : List ℕ)
            × (items : List Item) × Through accepts limits self.old framer.old input items }
        requires all { length self.old.octets.items ≤ self.old.at }
        ensures through { (found : List Item)
            × FindsIf result framer.new (lent_octets self.new) found
            × ((accepts : Accepts) (limits : Limits) (input : List ℕ) (items : List Item)
            → Through accepts limits self.old framer.old input items
            → Through accepts limits self.new framer.new input (items ++ found)) }
        ensures drained { IsDrained self.new }
        ensures moves { result ≡ true → work_of self.new < work_of self.old }
        ensures count { count_of self.new ≡ count_of self.old }
    {
        no_more_blocks_than_octets();
        events_are_in_order();
        match self.behind {
            Behind::Nothing => false,
            Behind::Begin(label) => {
                framer.begin(label);
                self.behind = Behind::Nothing;
                false
            }
            Behind::End => {
                framer.end();
                self.behind = Behind::Nothing;
                framer.finds()
            }
        }
    }

    /// Takes lines of the piece until their octets are many, or a block begins or ends.
    fn fill(&mut self, piece: &[u8]) -> Result<usize, OutOfMemory>
        requires through { (accepts : Accepts) × (limits : Limits) × (f : Blocks) × (input : List ℕ)
            × (items : List Item) × Through accepts limits self.old f input items }
        requires drained { IsDrained self.old }
        requires some { 0 < length piece.now }
        requires room { count_of self.old + length piece.now < 2 ^ 63 }
        ensures through { IfOk result (λ n. (accepts : Accepts) (limits : Limits) (f : Blocks)
            (input : List ℕ) (items : List Item) → Through accepts limits self.old f input items
            → Through accepts limits self.new f (input ++ take n piece.now) items) }
        ensures moves { IfOk result (λ n. (0 < n) × (n ≤ length piece.now)) }
        ensures count { IfOk result (λ n. count_of self.new ≡ count_of self.old + n) }
    {
        self.octets.clear();
        self.lent = 0;
        self.at = 0;
        let mut taken = self.line(piece)?;
        'lines: while taken < piece.len() && self.has_room() {
            taken += self.line(&piece[taken..])?;
        }
        Ok(taken)
    }

    /// Whether another line may wait.
    fn has_room(&self) -> bool
        ensures { result ≡ true → self.now.behind ≡ Nothing }
    {
        self.octets.len() < MANY && matches!(self.behind, Behind::Nothing)
    }

    /// Takes octets of the piece up to the end of a line that yields an event, or all of them.
    fn line(&mut self, piece: &[u8]) -> Result<usize, OutOfMemory>
        requires through { (accepts : Accepts) × (limits : Limits) × (f : Blocks) × (input : List ℕ)
            × (items : List Item) × Through accepts limits self.old f input items }
        requires nothing { self.old.behind ≡ Nothing }
        requires some { 0 < length piece.now }
        requires room { count_of self.old + length piece.now < 2 ^ 63 }
        ensures through { IfOk result (λ n. (accepts : Accepts) (limits : Limits) (f : Blocks)
            (input : List ℕ) (items : List Item) → Through accepts limits self.old f input items
            → Through accepts limits self.new f (input ++ take n piece.now) items) }
        ensures moves { IfOk result (λ n. (0 < n) × (n ≤ length piece.now)) }
        ensures count { IfOk result (λ n. count_of self.new ≡ count_of self.old + n) }
    {
        events_are_in_order();
        let n = match self.dearmor.push(piece) {
            Ok(n) => n,
            Err(_) => return Err(AllocError),
        };
        let event = self.dearmor.take();
        self.skipped.meet(&piece[..n], &event);
        self.keep(event)?;
        Ok(n)
    }

    /// Has what a line yields wait.
    fn keep(&mut self, event: Option<ArmorEvent>) -> Result<(), OutOfMemory>
        requires { self.old.behind ≡ Nothing }
        ensures { OnOk result (Keeps self.old self.new (events_of event)) }
    {
        match event {
            Some(ArmorEvent::Octets(octets)) => {
                self.octets.extend_from_slice(octets.as_slice())?;
                self.dearmor.reuse(octets);
            }
            Some(ArmorEvent::Begin(label)) => self.behind = Behind::Begin(label),
            Some(ArmorEvent::End) => self.behind = Behind::End,
            Some(ArmorEvent::Header(_key, _value)) => {}
            None => {}
        }
        Ok(())
    }

    /// The end of the text, and its fault, if it has one; and the last block, if the framer finds
    /// its label now. The condition is that nothing waits.
    ///
    /// Fails only when out of memory.
    pub(crate) fn finish(
        self,
        framer: &mut Blocks,
    ) -> Result<(Option<Opening>, Result<(), Fault>), OutOfMemory>
        requires through { (accepts : Accepts) × (limits : Limits) × (input : List ℕ)
            × (items : List Item) × Through accepts limits self framer.old input items }
        requires drained { IsDrained self }
        ensures { IfOk result (λ end. (accepts : Accepts) (limits : Limits) (input : List ℕ)
            (items : List Item) → Through accepts limits self framer.old input items
            → IsEnd accepts false limits framer.new input items end) }
    {
        no_more_blocks_than_octets();
        events_are_in_order();
        let mut dearmor = self.dearmor;
        let event = match dearmor.last() {
            Ok(event) => event,
            Err(_) => return Err(AllocError),
        };
        let opening = framer.settle(event);
        Ok((opening, dearmor.finish()))
    }
}
