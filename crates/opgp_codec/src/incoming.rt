//! The labels and packets of what comes from a source, one after the other.

ghost use Rattle.std.specs.Prelude.{◌≡◌, ◌<◌, ◌≤◌, ◌+◌, ◌^◌, ◌++◌, ◌⊎◌, [], ℕ, List, Option};
ghost use Rattle.std.specs.Prelude.{length, take, true, false, Err, IfOk, Ok, OnErr, OnOk};
ghost use Rattle.std.specs.Io.KnownBytes.{Consumes, IsAtEnd};
ghost use Rattle.opgp_octets.specs.Limits.{input_limit};
ghost use Rattle.opgp_octets.specs.Octets.{IsOctets};
ghost use Rattle.opgp_octets.specs.declared.fault.Fault.{Fault};
ghost use Rattle.opgp_octets.specs.declared.limits.Limits.{Limits};
ghost use Rattle.opgp_frame.specs.declared.packet.Placed.{Placed};
ghost use Rattle.opgp_keyring.specs.Composition.{Item};
ghost use Rattle.opgp_codec.specs.Accepts.{wanted_by};
ghost use Rattle.opgp_codec.specs.Blocks.{viewed_in};
ghost use Rattle.opgp_codec.specs.Found.{handed};
ghost use Rattle.opgp_codec.specs.Items.{IsDone, IsRest, octets_of};
ghost use Rattle.opgp_codec.specs.Reading.{AnswerOf};
ghost use Rattle.opgp_codec.specs.declared.accepts.Accepts.{Accepts};
ghost use Rattle.opgp_codec.specs.declared.mode.Mode.{Mode};
ghost use Rattle.opgp_codec.specs.declared.read_error.ReadError.TheVariants as read;

use crate::accepts::Accepts;
use crate::found::Opening;
use crate::items::Items;
use crate::mode::Mode;
use crate::read_error::ReadError;
use opgp_frame::{Placed, PlacedView};
use opgp_io::Source;
use opgp_octets::{Fault, Limits, OutOfMemory};
use std::alloc::Global;
use std::io;

/// The greatest number of octets read at a time.
const PIECE: usize = 65_536;

/// Reads from a source on, up to the next label of a block or packet, which is lent from here:
///
/// ```text
/// while incoming.step(source)? {
///     .. incoming.opening() ..
///     .. incoming.packet() ..
/// }
/// ```
///
/// Nothing of the input is kept but its last piece, of at most 65,536 octets, and an unfinished
/// line and packet. Each read but the last brings at least one octet: so there are at most two more
/// than the limit `input` has octets.
#[derive(Drop)]
pub(crate) struct Incoming {
    items: Items,
    piece: Vec<u8>,
    filled: usize,
    at: usize,
    lent: usize,
    count: u64,
    limit: u64,
    // The last read brought nothing, or no more are made past the limit: the source isn't read again.
    ended: bool,
    ghost small: { limit < 2 ^ 63 },
    ghost some: { length piece.items ≡ 65536 },
    ghost within: { filled ≤ length piece.items },
    ghost passed: { at ≤ filled },
    ghost before: { lent ≤ filled },
}

impl Incoming {
    ghost use Rattle.opgp_codec.specs.Incoming.{Came, FoundIf, HasEnded, IsHere, IsThrough};
    ghost use Rattle.opgp_codec.specs.Incoming.{IsLeftAlone, left_in, lent_of, rest_left};
    ghost use Rattle.opgp_codec.specs.Pulled.{OfInput};

    /// A reader to which nothing has come. Fails only when out of memory.
    pub(crate) fn new(
        alloc: Global,
        mode: Mode,
        limits: Limits,
        accepts: Accepts,
    ) -> Result<Incoming, OutOfMemory>
        ensures { IfOk result (λ r. (before : Option (List ℕ))
            → Came accepts mode limits before before r []) }
    {
        let piece = vec![in alloc; 0; PIECE]?;
        Ok(Incoming {
            items: Items::new(alloc, mode, limits, accepts),
            piece,
            filled: 0,
            at: 0,
            lent: 0,
            count: 0,
            limit: limits.input(),
            ended: false,
        })
    }

    /// Reads on up to the next label or packet, or both. False: there is no more, since the source
    /// has ended, or one octet past the limit `input` has come. The condition is that the source
    /// hasn't failed.
    ///
    /// The errors are `Read`: the source has failed, and `Memory`. Nothing is known of the reader
    /// then.
    pub(crate) fn step<R: Source>(&mut self, source: &mut R) -> Result<bool, ReadError>
        requires sound { R.has_failed source.old ≡ false }
        requires came { (accepts : Accepts) × (mode : Mode) × (limits : Limits)
            × (before : Option (List ℕ)) × (items : List Item)
            × Came accepts mode limits before (R.left source.old) self.old items }
        ensures came { IfOk result (λ more. (found : List Item) × FoundIf more self.new found
            × ((accepts : Accepts) (mode : Mode) (limits : Limits) (before : Option (List ℕ))
            (items : List Item) → Came accepts mode limits before (R.left source.old) self.old items
            → Came accepts mode limits before (R.left source.new) self.new (items ++ found))) }
        ensures ended { result ≡ Ok false
            → IsThrough self.new × HasEnded self.new (R.left source.new) }
        ensures lessens { result ≡ Ok true → left_in self.new < left_in self.old }
        ensures last { result ≡ Ok false → self.new.ended ≡ true }
        ensures alone { IsLeftAlone self.old self.new source.old source.new }
        ensures sound { OnOk result (R.has_failed source.new ≡ false) }
        ensures read { result ≡ Err read.Read → R.has_failed source.new ≡ true }
        ensures memory { result ≡ Err read.Memory → R.has_failed source.new ≡ false }
        ensures other { (fault : Fault) → result ≡ Err (read.Refused fault) → ⊥ }
    {
        'pulls: while !self.find()? {
            if !self.pull(source)? {
                return Ok(false);
            }
        }
        Ok(true)
    }

    /// Frames octets of the piece, up to the end of what they complete. Whether they do; else all
    /// have gone through.
    #[inline(always)]
    fn find(&mut self) -> Result<bool, ReadError>
        requires { (accepts : Accepts) × (mode : Mode) × (limits : Limits)
            × (before now : Option (List ℕ)) × (items : List Item)
            × Came accepts mode limits before now self.old items }
        ensures came { IfOk result (λ more. (found : List Item) × FoundIf more self.new found
            × ((accepts : Accepts) (mode : Mode) (limits : Limits) (before now : Option (List ℕ))
            (items : List Item) → Came accepts mode limits before now self.old items
            → Came accepts mode limits before now self.new (items ++ found))) }
        ensures through { result ≡ Ok false → IsThrough self.new }
        ensures lessens { result ≡ Ok true → rest_left self.new < rest_left self.old }
        ensures none { result ≡ Ok false → rest_left self.new ≡ 0 }
        ensures count { self.new.count ≡ self.old.count }
        ensures limit { self.new.limit ≡ self.old.limit }
        ensures same { self.new.ended ≡ self.old.ended }
        ensures memory { (e : ReadError) → result ≡ Err e → e ≡ read.Memory }
    {
        self.lent = self.at;
        match self.items.step(&self.piece[self.at..self.filled]) {
            Ok(Some(n)) => {
                self.at += n;
                Ok(true)
            }
            Ok(None) => {
                self.at = self.filled;
                Ok(false)
            }
            Err(_) => Err(ReadError::Memory),
        }
    }

    /// Reads the next piece. Whether there is one, which has at least one octet; else the source is
    /// left alone from then on. The conditions are that the last one has gone through, and that the
    /// source hasn't failed.
    #[inline(never)]
    fn pull<R: Source>(&mut self, source: &mut R) -> Result<bool, ReadError>
        requires sound { R.has_failed source.old ≡ false }
        requires through { IsThrough self.old }
        requires within { self.old.count ≤ self.old.limit + 1 }
        requires over { self.old.ended ≡ true → HasEnded self.old (R.left source.old) }
        ensures came { OnOk result ((accepts : Accepts) (mode : Mode) (limits : Limits)
            (before : Option (List ℕ)) (items : List Item)
            → Came accepts mode limits before (R.left source.old) self.old items
            → Came accepts mode limits before (R.left source.new) self.new items) }
        ensures ended { result ≡ Ok false
            → IsThrough self.new × HasEnded self.new (R.left source.new) }
        ensures lessens { result ≡ Ok true → left_in self.new < left_in self.old }
        ensures brings { result ≡ Ok true → self.old.count < self.new.count }
        ensures last { result ≡ Ok false → self.new.ended ≡ true }
        ensures alone { IsLeftAlone self.old self.new source.old source.new }
        ensures within { self.new.count ≤ self.old.limit + 1 }
        ensures limit { self.new.limit ≡ self.old.limit }
        ensures sound { OnOk result (R.has_failed source.new ≡ false) }
        ensures read { (e : ReadError) → result ≡ Err e
            → (e ≡ read.Read) × (R.has_failed source.new ≡ true) }
    {
        if self.ended {
            return Ok(false);
        }
        self.note(source);
        if self.count > self.limit {
            self.ended = true;
            return Ok(false);
        }
        let most = self.limit + 1 - self.count;
        let n = match pull_some(source, self.piece.as_mut_slice(), most) {
            Ok(n) => n,
            Err(_) => return Err(ReadError::Read),
        };
        self.filled = n;
        self.at = 0;
        self.lent = 0;
        self.count += n as u64;
        self.ended = n == 0;
        Ok(n > 0)
    }

    /// Tells the source of what the last piece had, if there was one.
    fn note<R: Source>(&self, source: &mut R)
        ensures left { R.left source.new ≡ R.left source.old }
        ensures failed { R.has_failed source.new ≡ R.has_failed source.old }
    {
        if self.filled > 0 {
            source.note(self.items.packets(), self.items.skipped());
        }
    }

    /// The block whose label the last step has found.
    pub(crate) fn opening(&self) -> Option<Opening>
        ensures { result ≡ self.now.items.framer.opening }
    {
        self.items.opening()
    }

    /// The packet that the last step has found.
    pub(crate) fn packet(&self) -> Option<PlacedView<'_>>
        requires { (packets : List Placed) × IsHere self.now packets }
        ensures { (packets : List Placed) → IsHere self.now packets
            → viewed_in result ≡ packets }
    {
        self.items.packet(&self.piece[self.lent..self.filled])
    }

    /// The same by value: one whose octets came in several pieces is handed on, any other is
    /// copied. Fails only when out of memory.
    pub(crate) fn own(&mut self) -> Result<Option<Placed>, OutOfMemory>
        requires { (packets : List Placed) × IsHere self.old packets }
        ensures value { IfOk result (λ r. (packets : List Placed) → IsHere self.old packets
            → handed r ≡ packets) }
        ensures came { (accepts : Accepts) (mode : Mode) (limits : Limits)
            (before now : Option (List ℕ)) (items : List Item)
            → Came accepts mode limits before now self.old items
            → Came accepts mode limits before now self.new items }
        ensures left { left_in self.new ≡ left_in self.old }
    {
        self.items.own(&self.piece[self.lent..self.filled])
    }

    /// Ends the input: the last block, if its label is found now; or the one fault of the lowest
    /// layer that refuses it: input, armor, framing. The condition is that the last step has found
    /// no more.
    ///
    /// Fails only when out of memory.
    pub(crate) fn finish(self) -> Result<Result<Option<Opening>, Fault>, OutOfMemory>
        requires came { (accepts : Accepts) × (mode : Mode) × (limits : Limits)
            × (before now : Option (List ℕ)) × (items : List Item)
            × Came accepts mode limits before now self items }
        requires through { IsThrough self }
        ensures { IfOk result (λ answer. (accepts : Accepts) (mode : Mode) (limits : Limits)
            (before now : Option (List ℕ)) (items : List Item)
            → Came accepts mode limits before now self items → HasEnded self now
            → OfInput before now limits
            (λ octets. AnswerOf (wanted_by accepts) (IsRest items) mode limits octets answer)) }
    {
        self.items.finish()
    }
}

/// Pulls at most `most` octets into the buffer.
pub(crate) fn pull_some<R: Source>(reader: &mut R, buf: &mut [u8], most: u64) -> io::Result<usize>
    requires some { 0 < most }
    requires room { 0 < length buf.old }
    requires sound { R.has_failed reader.old ≡ false }
    ensures bound { IfOk result (λ n. (n ≤ length buf.new) × (n ≤ most)) }
    ensures taken { IfOk result
        (λ n. Consumes (R.left reader.old) (R.left reader.new) (take n buf.new)) }
    ensures each { IfOk result (λ n. IsOctets (take n buf.new)) }
    ensures end { IfOk result (λ n. n ≡ 0 → IsAtEnd (R.left reader.new)) }
    ensures sound { OnOk result (R.has_failed reader.new ≡ false) }
    ensures err { OnErr result (R.has_failed reader.new ≡ true) }
{
    let want = if most < buf.len() as u64 {
        most as usize
    } else {
        buf.len()
    };
    reader.pull(&mut buf[..want])
}
