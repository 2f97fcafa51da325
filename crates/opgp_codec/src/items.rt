//! The labels and packets of an input, one after the other.

ghost use Rattle.std.specs.Prelude.{◌≡◌, ◌<◌, ◌≤◌, ◌+◌, ◌-◌, ◌^◌, ◌%◌, ◌++◌, ◌∷◌, [], ℕ, List};
ghost use Rattle.std.specs.Prelude.{length, take, false, IfOk, IfSome, None, Option};
ghost use Rattle.opgp_octets.specs.declared.limits.Limits.{Limits};
ghost use Rattle.opgp_frame.specs.declared.packet.Placed.{Placed};
ghost use Rattle.opgp_keyring.specs.Composition.{Item, placed_in};
ghost use Rattle.opgp_codec.specs.Accepts.{wanted_by};
ghost use Rattle.opgp_codec.specs.Found.{IsFound, handed};
ghost use Rattle.opgp_codec.specs.Blocks.{Ends, FindsIn, Framed, has_begun, number_of, open_count};
ghost use Rattle.opgp_codec.specs.Blocks.{part_of, viewed_in};
ghost use Rattle.opgp_codec.specs.Items.{Fed, IsDone, IsLast, IsRest, Moves, Passed, count_of};
ghost use Rattle.opgp_codec.specs.Items.{left_of, octets_of, skipped_in, work_in};
ghost use Rattle.opgp_codec.specs.Reading.{AnswerOf, TextBlock, is_binary};
ghost use Rattle.opgp_armor.specs.declared.label.Label.{Label};
ghost use Rattle.opgp_codec.specs.Text.{IsEnd};
ghost use Rattle.opgp_codec.specs.declared.accepts.Accepts.{Accepts};
ghost use Rattle.opgp_codec.specs.declared.items.Front.{Front};
ghost use Rattle.opgp_codec.specs.declared.mode.Mode.{Mode};

use crate::accepts::Accepts;
use crate::blocks::Blocks;
use crate::found::Opening;
use crate::mode::Mode;
use crate::text::Text;
use opgp_armor::Label;
use opgp_frame::{Placed, PlacedView};
use opgp_octets::{Fault, Layer, Limits, OutOfMemory, Reason};
use std::alloc::Global;

/// What the octets go through before they are framed.
#[derive(Drop)]
enum Front {
    /// Unknown yet: no octet has come.
    Undecided,
    /// Nothing: they are packets.
    Binary,
    /// They are armored text.
    Armored(Text),
}

/// Reads the labels of an input's blocks and their packets, in order, from pieces of any size.
///
/// A packet that is whole in a piece, or among the octets of lines that are framed together, is
/// lent from there. Nothing is kept of what was found but the packet found last.
#[derive(Drop)]
pub(crate) struct Items {
    alloc: Global,
    limits: Limits,
    front: Front,
    framer: Blocks,
    given: u64,
}

impl Items {
    /// A reader that was given nothing. Allocates nothing; steps do, from `alloc`.
    pub(crate) fn new(alloc: Global, mode: Mode, limits: Limits, accepts: Accepts) -> Items
        ensures fed { Fed accepts mode limits result [] [] }
        ensures count { count_of result ≡ 0 }
        ensures done { IsDone result }
    {
        match mode {
            Mode::Auto => Items::over(alloc, limits, Front::Undecided, accepts, None),
            Mode::Binary => Items::over(alloc, limits, Front::Binary, accepts, None),
            Mode::Armor => {
                let front = Front::Armored(Text::new(alloc, limits));
                Items::over(alloc, limits, front, accepts, Some(Label::Message))
            }
        }
    }

    /// A reader with this front that was given nothing.
    fn over(
        alloc: Global,
        limits: Limits,
        front: Front,
        accepts: Accepts,
        label: Option<Label>,
    ) -> Items
        ensures front { result.front ≡ front }
        ensures limits { result.limits ≡ limits }
        ensures given { result.given ≡ 0 }
        ensures framed { Framed accepts limits result.framer [] label [] [] }
        ensures begun { has_begun result.framer ≡ false }
    {
        Items {
            alloc,
            limits,
            front,
            framer: Blocks::new(alloc, limits, accepts, label),
            given: 0,
        }
    }

    /// If nothing has come yet, the first octet of the piece decides what the input is.
    fn decide(&mut self, piece: &[u8])
        requires { (accepts : Accepts) × (mode : Mode) × (limits : Limits) × (input : List ℕ)
            × (items : List Item) × Fed accepts mode limits self.old input items }
        ensures passed { (accepts : Accepts) (mode : Mode) (limits : Limits) (input : List ℕ)
            (items : List Item) → Fed accepts mode limits self.old input items
            → Passed accepts mode limits self.new.front self.new.framer (input ++ take 1 piece.now)
            input items }
        ensures limits { self.new.limits ≡ self.old.limits }
        ensures given { self.new.given ≡ self.old.given }
        ensures work { work_in self.new.front ≡ work_in self.old.front }
    {
        let Front::Undecided = self.front else {
            return;
        };
        let [first, ..] = piece else {
            return;
        };
        if *first >= 128 {
            self.front = Front::Binary;
        } else {
            self.front = Front::Armored(Text::new(self.alloc, self.limits));
            self.framer.begin(Label::Message);
        }
    }

    /// Takes octets of the piece up to the end of the label or packet that they complete, or of
    /// both; Some is how many these are. None: all of the piece was taken, and nothing more is
    /// complete. The condition is that fewer than 2^63 octets are given in all.
    ///
    /// Fails only when out of memory; nothing is known of the reader then.
    pub(crate) fn step(&mut self, piece: &[u8]) -> Result<Option<usize>, OutOfMemory>
        requires fed { (accepts : Accepts) × (mode : Mode) × (limits : Limits) × (input : List ℕ)
            × (items : List Item) × Fed accepts mode limits self.old input items }
        requires room { count_of self.old + length piece.now < 2 ^ 63 }
        ensures fed { IfOk result (λ r. (found : List Item)
            × FindsIn r self.new.framer (octets_of self.new.front piece.now) found
            × ((accepts : Accepts) (mode : Mode) (limits : Limits) (input : List ℕ)
            (items : List Item) → Fed accepts mode limits self.old input items
            → Fed accepts mode limits self.new (input ++ part_of r piece.now) (items ++ found))) }
        ensures count { IfOk result (λ r. count_of self.new
            ≡ count_of self.old + length (part_of r piece.now)) }
        ensures within { IfOk result (λ r. IfSome r (λ n. n ≤ length piece.now)) }
        ensures done { IfOk result (λ r. r ≡ None → IsDone self.new) }
        ensures lessens { IfOk result (λ r. IfSome r (λ n. left_of self.new (length piece.now - n)
            < left_of self.old (length piece.now))) }
    {
        self.decide(piece);
        let found = advance(&mut self.front, &mut self.framer, piece)?;
        self.given += taken(found, piece) as u64;
        Ok(found)
    }

    /// The block whose label the last step has found.
    pub(crate) fn opening(&self) -> Option<Opening>
        ensures { result ≡ self.now.framer.opening }
    {
        self.framer.opening()
    }

    /// Takes the packet that the last step has found, if its octets came in several pieces. None:
    /// it may be lent.
    #[inline(always)]
    pub(crate) fn take(&mut self) -> Option<Placed>
        ensures some { IfSome result (λ p. (octets : List ℕ) (packets : List Placed)
            → IsFound self.old.framer.found octets packets → packets ≡ p ∷ []) }
        ensures none { result ≡ None → self.new ≡ self.old }
        ensures fed { (accepts : Accepts) (mode : Mode) (limits : Limits) (input : List ℕ)
            (items : List Item) → Fed accepts mode limits self.old input items
            → Fed accepts mode limits self.new input items }
        ensures front { self.new.front ≡ self.old.front }
        ensures given { self.new.given ≡ self.old.given }
    {
        self.framer.take()
    }

    /// The packet that the last step has found in this piece.
    #[inline(always)]
    pub(crate) fn packet<'a>(&'a self, piece: &'a [u8]) -> Option<PlacedView<'a>>
        requires { (packets : List Placed)
            × IsFound self.now.framer.found (octets_of self.now.front piece.now) packets }
        ensures { (packets : List Placed)
            → IsFound self.now.framer.found (octets_of self.now.front piece.now) packets
            → viewed_in result ≡ packets }
    {
        match &self.front {
            Front::Armored(text) => self.framer.packet(text.octets()),
            Front::Binary => self.framer.packet(piece),
            Front::Undecided => self.framer.packet(piece),
        }
    }

    /// The same by value: one whose octets came in several pieces is handed on, any other is
    /// copied. Fails only when out of memory.
    pub(crate) fn own(&mut self, piece: &[u8]) -> Result<Option<Placed>, OutOfMemory>
        requires { (packets : List Placed)
            × IsFound self.old.framer.found (octets_of self.old.front piece.now) packets }
        ensures value { IfOk result (λ r. (packets : List Placed)
            → IsFound self.old.framer.found (octets_of self.old.front piece.now) packets
            → handed r ≡ packets) }
        ensures fed { (accepts : Accepts) (mode : Mode) (limits : Limits) (input : List ℕ)
            (items : List Item) → Fed accepts mode limits self.old input items
            → Fed accepts mode limits self.new input items }
        ensures front { self.new.front ≡ self.old.front }
        ensures given { self.new.given ≡ self.old.given }
    {
        if let Some(packet) = self.take() {
            return Ok(Some(packet));
        }
        copied(self.packet(piece), self.alloc)
    }

    /// How many packets were found, modulo 2^64.
    pub(crate) fn packets(&self) -> u64
        ensures { (accepts : Accepts) (mode : Mode) (limits : Limits) (input : List ℕ)
            (items : List Item) → Fed accepts mode limits self.now input items
            → result ≡ length (placed_in items) % 2 ^ 64 }
    {
        self.framer.packets()
    }

    /// How many octets outside of armored blocks were passed over, if they are no text; else 0.
    pub(crate) fn skipped(&self) -> u64
        ensures { result ≡ skipped_in self.now }
    {
        match &self.front {
            Front::Armored(text) => text.skipped(),
            Front::Binary => 0,
            Front::Undecided => 0,
        }
    }

    /// Ends the input: the last block, if its label is found now; or the one fault of the lowest
    /// layer that refuses it: input, armor, framing. The condition is that the last step has found
    /// nothing.
    ///
    /// Fails only when out of memory.
    pub(crate) fn finish(self) -> Result<Result<Option<Opening>, Fault>, OutOfMemory>
        requires fed { (accepts : Accepts) × (mode : Mode) × (limits : Limits) × (input : List ℕ)
            × (items : List Item) × Fed accepts mode limits self input items }
        requires done { IsDone self }
        ensures { IfOk result (λ answer. (accepts : Accepts) (mode : Mode) (limits : Limits)
            (input : List ℕ) (items : List Item) → Fed accepts mode limits self input items
            → AnswerOf (wanted_by accepts) (IsRest items) mode limits input answer) }
    {
        let Items {
            alloc: _,
            limits,
            front,
            mut framer,
            given,
        } = self;
        let ended = end_front(front, &mut framer)?;
        Ok(conclude(limits, given, ended, framer))
    }
}

/// A copy of a packet that is lent, where one is. Fails only when out of memory.
fn copied(packet: Option<PlacedView<'_>>, alloc: Global) -> Result<Option<Placed>, OutOfMemory>
    ensures { IfOk result (λ r. handed r ≡ viewed_in packet.entry) }
{
    match packet {
        Some(packet) => {
            let packet = packet.copy(alloc)?;
            Ok(Some(packet))
        }
        None => Ok(None),
    }
}

/// How many octets of a piece a step has taken: all, where it has found nothing.
fn taken(found: Option<usize>, piece: &[u8]) -> usize
    requires { IfSome found (λ n. n ≤ length piece.now) }
    ensures { result ≡ length (part_of found piece.now) }
{
    match found {
        Some(n) => n,
        None => piece.len(),
    }
}

/// Passes octets of a piece on, up to the end of what they complete.
fn advance(
    front: &mut Front,
    framer: &mut Blocks,
    piece: &[u8],
) -> Result<Option<usize>, OutOfMemory>
    requires { (accepts : Accepts) × (mode : Mode) × (limits : Limits) × (input : List ℕ)
        × (items : List Item) × Passed accepts mode limits front.old framer.old
        (input ++ take 1 piece.now) input items × (length input + length piece.now < 2 ^ 63) }
    ensures passed { IfOk result (λ r. (found : List Item)
        × FindsIn r framer.new (octets_of front.new piece.now) found
        × ((accepts : Accepts) (mode : Mode) (limits : Limits) (input : List ℕ) (items : List Item)
        → Passed accepts mode limits front.old framer.old (input ++ take 1 piece.now) input items
        → Passed accepts mode limits front.new framer.new (input ++ part_of r piece.now)
        (input ++ part_of r piece.now) (items ++ found))) }
    ensures within { IfOk result (λ r. IfSome r (λ n. n ≤ length piece.now)) }
    ensures done { IfOk result (λ r. r ≡ None → IsLast front.new) }
    ensures moves { IfOk result (λ r. IfSome r (λ n. Moves front.old front.new n)) }
{
    match front {
        Front::Armored(text) => {
            let found = text.step(framer, piece)?;
            Ok(found)
        }
        Front::Binary => {
            let found = frame(framer, piece)?;
            Ok(found)
        }
        Front::Undecided => Ok(None),
    }
}

/// Frames octets of a piece, up to the end of what they complete.
#[inline(always)]
fn frame(framer: &mut Blocks, piece: &[u8]) -> Result<Option<usize>, OutOfMemory>
    requires { open_count framer.old + length piece.now < 2 ^ 63 }
    ensures framed { IfOk result (λ r. (found : List Item) × FindsIn r framer.new piece.now found
        × ((accepts : Accepts) (limits : Limits) (done : List TextBlock) (label : Option Label)
        (given : List ℕ) (items : List Item)
        → Framed accepts limits framer.old done label given items
        → Framed accepts limits framer.new done label (given ++ part_of r piece.now)
        (items ++ found))) }
    ensures within { IfOk result (λ r. IfSome r (λ n. (0 < n) × (n ≤ length piece.now))) }
{
    if piece.is_empty() {
        return Ok(None);
    }
    let n = framer.next(piece)?;
    if framer.finds() {
        Ok(Some(n))
    } else {
        Ok(None)
    }
}

/// Ends the input: the last block, if its label is found now, and the armor's fault, if it has one.
fn end_front(
    front: Front,
    framer: &mut Blocks,
) -> Result<(Option<Opening>, Result<(), Fault>), OutOfMemory>
    requires passed { (accepts : Accepts) × (mode : Mode) × (limits : Limits) × (input : List ℕ)
        × (items : List Item) × Passed accepts mode limits front framer.old input input items }
    requires last { IsLast front }
    ensures { IfOk result (λ ended. (accepts : Accepts) (mode : Mode) (limits : Limits)
        (input : List ℕ) (items : List Item)
        → Passed accepts mode limits front framer.old input input items
        → IsEnd accepts (is_binary mode input) limits framer.new input items ended) }
{
    match front {
        Front::Armored(text) => {
            let ended = text.finish(framer)?;
            Ok(ended)
        }
        Front::Binary => Ok((end_binary(framer), Ok(()))),
        Front::Undecided => Ok((end_binary(framer), Ok(()))),
    }
}

/// Ends the one block of an input that isn't armored.
fn end_binary(framer: &mut Blocks) -> Option<Opening>
    requires { number_of framer.old < 2 ^ 63 }
    ensures { Ends framer.old framer.new result }
{
    framer.end();
    framer.opening()
}

/// The result in the order of the layers: too many octets, the armor's fault, the first framing
/// fault.
fn conclude(
    limits: Limits,
    given: u64,
    ended: (Option<Opening>, Result<(), Fault>),
    framer: Blocks,
) -> Result<Option<Opening>, Fault>
    requires { (accepts : Accepts) × (mode : Mode) × (input : List ℕ) × (items : List Item)
        × IsEnd accepts (is_binary mode input) limits framer input items ended }
    ensures { (accepts : Accepts) (mode : Mode) (input : List ℕ) (items : List Item)
        → given ≡ length input
        → IsEnd accepts (is_binary mode input) limits framer input items ended
        → AnswerOf (wanted_by accepts) (IsRest items) mode limits input result }
{
    if given > limits.input() {
        return Err(Fault {
            layer: Layer::Input,
            reason: Reason::InputTooLong,
            block: 0,
            pos: limits.input(),
            inner: 0,
        });
    }
    let (opening, text) = ended;
    match text {
        Err(fault) => Err(fault),
        Ok(()) => match framer.finish() {
            Ok(()) => Ok(opening),
            Err(fault) => Err(fault),
        },
    }
}
