//! The blocks of an input, framed one after the other.

ghost use Rattle.std.specs.Prelude.{◌≡◌, ◌<◌, ◌≤◌, ◌+◌, ◌^◌, ◌++◌, ◌∷◌, [], ℕ, List, Option, false};
ghost use Rattle.std.specs.Prelude.{true, length, map, take, IfOk, IfSome, MatchResult, None};
ghost use Rattle.std.specs.Option.{IsSomeAnd};
ghost use Rattle.opgp_armor.specs.Events.{End, events_of};
ghost use Rattle.opgp_armor.specs.declared.label.Label.{Label};
ghost use Rattle.opgp_frame.specs.Fed.{is_ready, limits_of};
ghost use Rattle.opgp_frame.specs.declared.packet.Placed.{Placed};
ghost use Rattle.opgp_octets.specs.declared.limits.Limits.{Limits};
ghost use Rattle.opgp_keyring.specs.Composition.{Item, of_packet};
ghost use Rattle.opgp_codec.specs.Accepts.{wanted_by};
ghost use Rattle.opgp_codec.specs.Found.{IsFound, is_nothing, opened};
ghost use Rattle.opgp_codec.specs.Reading.{TextBlock, AreFramed, FirstFault};
ghost use Rattle.opgp_codec.specs.declared.accepts.Accepts.{Accepts};

use crate::accepts::Accepts;
use crate::found::{Found, Opening};
use opgp_armor::{ArmorEvent, Label};
use opgp_frame::laws::taken_and_ready_are_longest;
use opgp_frame::{Deframe, Placed, PlacedView};
use opgp_octets::{Fault, Limits, OutOfMemory};
use std::alloc::{AllocError, Global};
use std::mem;

/// Frames the blocks of an input, finds their labels and packets one after the other, and keeps the
/// first framing fault, behind which it finds nothing. One block is open at any time; its label is
/// found with its first octets, or at its end.
#[derive(Drop)]
pub(crate) struct Blocks {
    alloc: Global,
    limits: Limits,
    accepts: Accepts,
    label: Option<Label>,
    begun: bool,
    number: u64,
    deframe: Deframe,
    fault: Option<Fault>,
    opening: Option<Opening>,
    found: Found,
    packets: u64,
    ghost free: { is_ready deframe ≡ false },
    ghost within: { limits_of deframe ≡ limits },
}

impl Blocks {
    ghost use Rattle.opgp_codec.specs.Blocks.{Framed, finds, open_count, number_of, has_begun};
    ghost use Rattle.opgp_codec.specs.Blocks.{viewed_in, packet_count, Ends, Finds};

    /// A framer that was given nothing. Its open block has this label.
    pub(crate) fn new(
        alloc: Global,
        limits: Limits,
        accepts: Accepts,
        label: Option<Label>,
    ) -> Blocks
        ensures framed { Framed accepts limits result [] label [] [] }
        ensures begun { has_begun result ≡ false }
        ensures count { open_count result ≡ 0 }
    {
        Blocks {
            alloc,
            limits,
            accepts,
            label,
            begun: false,
            number: 0,
            deframe: Deframe::new(alloc, 0, limits),
            fault: None,
            opening: None,
            found: Found::Nothing,
            packets: 0,
        }
    }

    /// Begins a block with this label. The condition is that the label of no open block was found.
    pub(crate) fn begin(&mut self, label: Label)
        requires { has_begun self.old ≡ false }
        ensures framed { (accepts : Accepts) (limits : Limits) (done : List TextBlock)
            (was : Option Label) (octets : List ℕ) (items : List Item)
            → Framed accepts limits self.old done was octets items
            → Framed accepts limits self.new done (Some label) [] items }
        ensures begun { has_begun self.new ≡ false }
    {
        self.label = Some(label);
        self.deframe = Deframe::new(self.alloc, self.number, self.limits);
    }

    /// Whether the last call has found a label or a packet.
    pub(crate) fn finds(&self) -> bool
        ensures { result ≡ finds self.now }
    {
        !matches!(self.found, Found::Nothing) || self.opening.is_some()
    }

    /// Adds octets to the open block, up to the end of what they complete or all of them, and
    /// returns how many. Fails only when out of memory.
    #[inline(always)]
    pub(crate) fn next(&mut self, octets: &[u8]) -> Result<usize, OutOfMemory>
        requires some { 0 < length octets.now }
        requires room { open_count self.old + length octets.now < 2 ^ 63 }
        ensures framed { IfOk result (λ n. (found : List Item) × Finds self.new octets.now found
            × ((accepts : Accepts) (limits : Limits) (done : List TextBlock) (label : Option Label)
            (given : List ℕ) (items : List Item)
            → Framed accepts limits self.old done label given items
            → Framed accepts limits self.new done label (given ++ take n octets.now)
            (items ++ found))) }
        ensures moves { IfOk result (λ n. (0 < n) × (n ≤ length octets.now)) }
        ensures all { IfOk result (λ n. finds self.new ≡ false → n ≡ length octets.now) }
        ensures count { IfOk result (λ n. open_count self.new ≤ open_count self.old + n) }
        ensures number { IfOk result (λ n. number_of self.new ≡ number_of self.old) }
    {
        self.opening = None;
        if self.fault.is_some() {
            self.found = Found::Nothing;
            return Ok(octets.len());
        }
        self.tell();
        let n = self.find(octets)?;
        Ok(n)
    }

    /// Finds the label of the open block, unless it was found already or there is a fault.
    #[inline(always)]
    fn tell(&mut self)
        requires { self.old.opening ≡ None }
        ensures framed { (accepts : Accepts) (limits : Limits) (done : List TextBlock)
            (label : Option Label) (octets : List ℕ) (items : List Item)
            → Framed accepts limits self.old done label octets items
            → Framed accepts limits self.new done label octets (items ++ opened self.new.opening) }
        ensures begun { self.old.fault ≡ None → has_begun self.new ≡ true }
        ensures count { open_count self.new ≡ open_count self.old }
        ensures number { number_of self.new ≡ number_of self.old }
        ensures fault { self.new.fault ≡ self.old.fault }
        ensures found { self.new.found ≡ self.old.found }
    {
        if self.begun || self.fault.is_some() {
            return;
        }
        self.begun = true;
        self.opening = Some(Opening {
            number: self.number,
            fits: self.accepts.fits(self.label),
        });
    }

    /// Adds octets to the open block, whose label was found.
    #[inline(always)]
    fn find(&mut self, octets: &[u8]) -> Result<usize, OutOfMemory>
        requires some { 0 < length octets.now }
        requires room { open_count self.old + length octets.now < 2 ^ 63 }
        requires begun { has_begun self.old ≡ true }
        requires fault { self.old.fault ≡ None }
        ensures framed { IfOk result (λ n. (packets : List Placed)
            × IsFound self.new.found octets.now packets
            × ((accepts : Accepts) (limits : Limits) (done : List TextBlock) (label : Option Label)
            (given : List ℕ) (items : List Item)
            → Framed accepts limits self.old done label given items
            → Framed accepts limits self.new done label (given ++ take n octets.now)
            (items ++ map of_packet packets))) }
        ensures moves { IfOk result (λ n. (0 < n) × (n ≤ length octets.now)) }
        ensures all { IfOk result (λ n. is_nothing self.new.found ≡ true → n ≡ length octets.now) }
        ensures count { IfOk result (λ n. open_count self.new ≡ open_count self.old + n) }
        ensures number { IfOk result (λ n. number_of self.new ≡ number_of self.old) }
        ensures opening { self.new.opening ≡ self.old.opening }
    {
        if let Some((n, spot)) = self.deframe.find(octets) {
            self.found = Found::Lent(spot);
            self.packets = self.packets.wrapping_add(1);
            return Ok(n);
        }
        let n = self.push(octets)?;
        Ok(n)
    }

    /// Adds octets to the open block, which don't begin with a whole packet.
    #[inline(never)]
    fn push(&mut self, octets: &[u8]) -> Result<usize, OutOfMemory>
        requires some { 0 < length octets.now }
        requires room { open_count self.old + length octets.now < 2 ^ 63 }
        requires begun { has_begun self.old ≡ true }
        requires fault { self.old.fault ≡ None }
        ensures framed { IfOk result (λ n. (packets : List Placed)
            × IsFound self.new.found octets.now packets
            × ((accepts : Accepts) (limits : Limits) (done : List TextBlock) (label : Option Label)
            (given : List ℕ) (items : List Item)
            → Framed accepts limits self.old done label given items
            → Framed accepts limits self.new done label (given ++ take n octets.now)
            (items ++ map of_packet packets))) }
        ensures moves { IfOk result (λ n. (0 < n) × (n ≤ length octets.now)) }
        ensures all { IfOk result (λ n. is_nothing self.new.found ≡ true → n ≡ length octets.now) }
        ensures count { IfOk result (λ n. open_count self.new ≡ open_count self.old + n) }
        ensures number { IfOk result (λ n. number_of self.new ≡ number_of self.old) }
        ensures opening { self.new.opening ≡ self.old.opening }
    {
        let n = match self.deframe.push(octets) {
            Ok(n) => n,
            Err(_) => return Err(AllocError),
        };
        match self.deframe.take() {
            Some(packet) => {
                self.found = Found::Whole(packet);
                self.packets = self.packets.wrapping_add(1);
            }
            None => self.found = Found::Nothing,
        }
        Ok(n)
    }

    /// Ends the open block, and opens one with the same label. It may find the label of the one
    /// that ends.
    pub(crate) fn end(&mut self)
        requires { number_of self.old < 2 ^ 63 }
        ensures framed { (accepts : Accepts) (limits : Limits) (done : List TextBlock)
            (label : Option Label) (octets : List ℕ) (items : List Item)
            → Framed accepts limits self.old done label octets items
            → Framed accepts limits self.new
            (done ++ record { label = label; octets = octets } ∷ []) label []
            (items ++ opened self.new.opening) }
        ensures found { is_nothing self.new.found ≡ true }
        ensures begun { has_begun self.new ≡ false }
    {
        self.found = Found::Nothing;
        self.opening = None;
        self.tell();
        self.close();
    }

    /// Ends the open block, whose label was found, and opens one with the same label.
    fn close(&mut self)
        requires few { number_of self.old < 2 ^ 63 }
        requires begun { self.old.fault ≡ None → has_begun self.old ≡ true }
        ensures framed { (accepts : Accepts) (limits : Limits) (done : List TextBlock)
            (label : Option Label) (octets : List ℕ) (items : List Item)
            → Framed accepts limits self.old done label octets items
            → Framed accepts limits self.new
            (done ++ record { label = label; octets = octets } ∷ []) label [] items }
        ensures begun { has_begun self.new ≡ false }
        ensures opening { self.new.opening ≡ self.old.opening }
        ensures found { self.new.found ≡ self.old.found }
    {
        let number = self.number + 1;
        let next = Deframe::new(self.alloc, number, self.limits);
        let deframe = mem::replace(&mut self.deframe, next);
        self.number = number;
        self.begun = false;
        if self.fault.is_some() {
            return;
        }
        taken_and_ready_are_longest();
        match deframe.finish() {
            Ok(()) => {}
            Err(fault) => self.fault = Some(fault),
        }
    }

    /// Ends the open block, if the last line of a text does so; and that block, if its label is
    /// found now.
    pub(crate) fn settle(&mut self, last: Option<ArmorEvent>) -> Option<Opening>
        requires { number_of self.old < 2 ^ 63 }
        ensures end { events_of last ≡ End ∷ [] → Ends self.old self.new result }
        ensures other { (events_of last ≡ End ∷ [] → ⊥) → (self.new ≡ self.old) × (result ≡ None) }
    {
        match last {
            Some(ArmorEvent::End) => {
                self.end();
                self.opening
            }
            Some(_other) => None,
            None => None,
        }
    }

    /// The block that the last call found to begin.
    pub(crate) fn opening(&self) -> Option<Opening>
        ensures { result ≡ self.now.opening }
    {
        self.opening
    }

    /// The packet that the last call found in these octets.
    #[inline(always)]
    pub(crate) fn packet<'a>(&'a self, octets: &'a [u8]) -> Option<PlacedView<'a>>
        requires { (packets : List Placed) × IsFound self.now.found octets.now packets }
        ensures { (packets : List Placed) → IsFound self.now.found octets.now packets
            → viewed_in result ≡ packets }
    {
        match &self.found {
            Found::Nothing => None,
            Found::Lent(spot) => Some(spot.lend(octets)),
            Found::Whole(packet) => Some(PlacedView::of(packet)),
        }
    }

    /// Takes the packet that the last call found, if its octets came in several pieces.
    #[inline(always)]
    pub(crate) fn take(&mut self) -> Option<Placed>
        ensures some { IfSome result (λ p. (octets : List ℕ) (packets : List Placed)
            → IsFound self.old.found octets packets → packets ≡ p ∷ []) }
        ensures none { result ≡ None → self.new ≡ self.old }
        ensures framed { (accepts : Accepts) (limits : Limits) (done : List TextBlock)
            (label : Option Label) (octets : List ℕ) (items : List Item)
            → Framed accepts limits self.old done label octets items
            → Framed accepts limits self.new done label octets items }
        ensures begun { has_begun self.new ≡ has_begun self.old }
    {
        let Found::Whole(_) = self.found else {
            return None;
        };
        match mem::replace(&mut self.found, Found::Nothing) {
            Found::Whole(packet) => Some(packet),
            Found::Lent(_) | Found::Nothing => unreachable!(),
        }
    }

    /// How many packets were found, modulo 2^64.
    pub(crate) fn packets(&self) -> u64
        ensures { result ≡ packet_count self.now }
    {
        self.packets
    }

    /// Whether all blocks are packets, or the first fault. The condition is that none is open.
    pub(crate) fn finish(self) -> Result<(), Fault>
        requires { has_begun self ≡ false }
        ensures { (accepts : Accepts) (limits : Limits) (done : List TextBlock)
            (label : Option Label) (octets : List ℕ) (items : List Item)
            → Framed accepts limits self done label octets items
            → MatchResult result (λ _. AreFramed limits (wanted_by accepts) 0 done items)
            (FirstFault limits 0 done) }
    {
        match self.fault {
            Some(fault) => Err(fault),
            None => Ok(()),
        }
    }
}
