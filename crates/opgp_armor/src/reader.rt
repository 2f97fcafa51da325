//! A reader of armor that takes a text in pieces of any size.

ghost use Rattle.std.specs.Prelude.{◌≡◌, ◌+◌, ◌-◌, ◌*◌, ◌^◌, ◌<◌, ◌≤◌, ◌↔◌, ℕ, List, [], ◌++◌};
ghost use Rattle.std.specs.Prelude.{true, false, is_some, length, take, Some, None, Ok, Err, IfOk, OnOk};
ghost use Rattle.std.specs.Prelude.{OnErr, MatchOption, MatchResult};
ghost use Rattle.opgp_armor.specs.Armored.{end_reason};
ghost use Rattle.opgp_armor.specs.Events.{events_of, ends_in, is_open_behind, octets_held};
ghost use Rattle.opgp_armor.specs.Machine.{step};
ghost use Rattle.opgp_armor.specs.LineAnswer.{pending_of, state_of};
ghost use Rattle.opgp_armor.specs.Cuts.{kept, IsLineSplit};
ghost use Rattle.opgp_armor.specs.declared.section.Section.TheVariants as sections;
ghost use Rattle.opgp_octets.specs.declared.outside.Outside.TheVariants as policy;

use crate::event::ArmorEvent;
use crate::lines::{Reaction, answer_line};
use crate::pending::Pending;
use crate::refusal::Refusal;
use crate::section::Section;
use crate::spare::Spare;
use memchr::memchr;
use opgp_octets::{Fault, Layer, Limits, OutOfMemory, Outside, PushFault, Reason};
use std::alloc::{AllocError, Global};
use std::mem;

/// A reader of armored text (RFC 9580, 6.2), which takes it in pieces of any size and hands out one
/// event at a time.
///
/// It keeps an unfinished line, at most three letters left over, and the event that is ready; and
/// memory for the letters and the octets of one line, which the next ones use again
/// ([`Dearmor::reuse`]). Nothing but a vector that was given back lies in that memory.
#[derive(Drop)]
pub struct Dearmor {
    alloc: Global,
    limit: usize,
    outside: Outside,
    buffer: Vec<u8>,
    section: Section,
    pending: Pending,
    spare: Spare,
    ready: Option<ArmorEvent>,
    fault: Option<Fault>,
    given: u64,
    start: u64,
    finished: u64,
    spent: bool,
    ended: bool,
    ghost low: { 128 ≤ limit },
    ghost high: { limit ≤ 1048576 },
    ghost short: { length buffer.items ≤ limit + 1 },
    ghost bounded: { octets_held buffer.items (pending_of pending).letters ready ≤ limit + 16 },
    ghost counted: { finished + length buffer.items ≤ given },
    ghost spare_short: { length spare.octets.items ≤ 2 * limit },
}

/// Adds octets to the buffer until it holds `most`, and says how many were added.
fn fill(buffer: &mut Vec<u8>, most: usize, part: &[u8]) -> Result<usize, OutOfMemory>
    ensures added { OnOk result
        (buffer.new.items ≡ buffer.old.items ++ take (most - length buffer.old.items) part.now) }
    ensures count { IfOk result (λ n. (n ≤ length part.now)
        × (take n part.now ≡ take (most - length buffer.old.items) part.now)) }
    ensures err { OnErr result (buffer.new.items ≡ buffer.old.items) }
{
    let count = most.saturating_sub(buffer.len()).min(part.len());
    buffer.extend_from_slice(&part[..count])?;
    Ok(count)
}

/// Keeps what is needed of an unfinished line outside of blocks, which continues with `part`, where
/// lines that begin no block are passed over.
fn keep_outside(buffer: &mut Vec<u8>, limit: usize, part: &[u8]) -> Result<(), OutOfMemory>
    requires low { 128 ≤ limit }
    requires high { limit ≤ 1048576 }
    ensures kept { OnOk result ((tail : List ℕ)
        → buffer.old.items
        ≡ kept (record { most = limit; outside = policy.Skip }) sections.Outside tail
        → buffer.new.items
        ≡ kept (record { most = limit; outside = policy.Skip }) sections.Outside
        (tail ++ part.now)) }
    ensures short { length buffer.old.items ≤ limit + 1 → length buffer.new.items ≤ limit + 1 }
    ensures grown { length buffer.new.items ≤ length buffer.old.items + length part.now }
{
    let count = fill(buffer, 15, part)?;
    if buffer.as_slice().starts_with(b"-----BEGIN PGP ".as_slice()) {
        fill(buffer, limit + 1, &part[count..])?;
    }
    Ok(())
}

/// Keeps the first `limit + 1` octets of an unfinished line, which continues with `part`.
fn keep_front(buffer: &mut Vec<u8>, limit: usize, part: &[u8]) -> Result<(), OutOfMemory>
    requires low { 128 ≤ limit }
    requires high { limit ≤ 1048576 }
    ensures kept { OnOk result ((tail : List ℕ) → buffer.old.items ≡ take (limit + 1) tail
        → buffer.new.items ≡ take (limit + 1) (tail ++ part.now)) }
    ensures short { length buffer.old.items ≤ limit + 1 → length buffer.new.items ≤ limit + 1 }
    ensures grown { length buffer.new.items ≤ length buffer.old.items + length part.now }
{
    fill(buffer, limit + 1, part)?;
    Ok(())
}

/// Keeps what is needed of an unfinished line, which continues with `part`.
fn keep(
    buffer: &mut Vec<u8>,
    limit: usize,
    outside: Outside,
    section: Section,
    part: &[u8],
) -> Result<(), OutOfMemory>
    requires low { 128 ≤ limit }
    requires high { limit ≤ 1048576 }
    ensures kept { OnOk result ((tail : List ℕ)
        → buffer.old.items ≡ kept (record { most = limit; outside = outside }) section tail
        → buffer.new.items ≡ kept (record { most = limit; outside = outside }) section
        (tail ++ part.now)) }
    ensures short { length buffer.old.items ≤ limit + 1 → length buffer.new.items ≤ limit + 1 }
    ensures grown { length buffer.new.items ≤ length buffer.old.items + length part.now }
{
    match section {
        Section::Outside => match outside {
            Outside::Skip => keep_outside(buffer, limit, part),
            Outside::Refuse => keep_front(buffer, limit, part),
        },
        Section::Headers(_) | Section::Data(_) | Section::AfterChecksum(_) => {
            keep_front(buffer, limit, part)
        }
    }
}

/// How many blocks the event ends.
fn ended_blocks(event: &Option<ArmorEvent>) -> u64
    ensures value { result ≡ ends_in (events_of event.now) }
    ensures small { result ≤ 1 }
{
    match event {
        Some(ArmorEvent::End) => 1,
        _ => 0,
    }
}

/// The octets before the first line end, how many octets that is with the line end, and whether
/// there is one.
fn split_line(rest: &[u8]) -> (&[u8], usize, bool)
    requires { 0 < length rest.now }
    ensures split { IsLineSplit rest.now result.0.now result.1 result.2 }
    ensures count { length result.0.now ≤ result.1 }
    ensures feed { result.2 ≡ true → length result.0.now < result.1 }
{
    match memchr(b'\n', rest) {
        Some(i) => (&rest[..i], i + 1, true),
        None => (rest, rest.len(), false),
    }
}

/// Why a text that ends in this section, after this number of blocks, is refused; None if it may
/// end.
fn end_of_text(section: Section, finished: u64) -> Option<Reason>
    ensures { MatchOption result ((section ≡ sections.Outside) × (0 < finished))
        (λ r. (r ≡ end_reason section) × (section ≡ sections.Outside → finished ≡ 0)) }
{
    match section {
        Section::Outside => {
            if finished == 0 {
                Some(Reason::NoBlock)
            } else {
                None
            }
        }
        Section::Headers(_) | Section::Data(_) | Section::AfterChecksum(_) => {
            Some(Reason::Unfinished)
        }
    }
}

impl Dearmor {
    ghost use Rattle.opgp_octets.specs.Limits.{line_limit};
    ghost use Rattle.opgp_octets.specs.declared.fault.Fault.{Fault};
    ghost use Rattle.opgp_armor.specs.Armored.{Armored, IsArmorFault};
    ghost use Rattle.opgp_armor.specs.Events.{Event, built};
    ghost use Rattle.opgp_armor.specs.Fed.{Fed, KeepsFed, IsQuiet, AfterLine, SameReader};
    ghost use Rattle.opgp_armor.specs.Fed.{SaysTheSame};
    ghost use Rattle.opgp_armor.specs.Fed.{line_limit_of, is_ready, count_of, is_spent, has_ended};
    ghost use Rattle.opgp_armor.specs.Fed.{rule_of, fault_of, held_of, spare_of, spent_fault};
    ghost use Rattle.opgp_armor.specs.Rules.{line_rule};

    /// A reader that was given nothing. Lines have at most as many octets as the limits allow, and
    /// with [`Outside::Refuse`] those outside of blocks that begin none are blank.
    ///
    /// Allocates nothing; pushes do, from `alloc`.
    pub fn new(alloc: Global, limits: Limits) -> Dearmor
        ensures fed { Fed result [] [] }
        ensures free { is_ready result ≡ false }
        ensures sound { is_spent result ≡ false }
        ensures open { has_ended result ≡ false }
        ensures count { count_of result ≡ 0 }
        ensures limits { line_limit_of result ≡ line_limit limits }
        ensures rule { rule_of result ≡ line_rule limits }
        ensures held { held_of result ≡ 0 }
        ensures spare { spare_of result ≡ 0 }
    {
        Dearmor {
            alloc,
            limit: limits.line() as usize,
            outside: limits.outside(),
            buffer: Vec::new(alloc),
            section: Section::Outside,
            pending: Pending::none(),
            spare: Spare::new(alloc),
            ready: None,
            fault: None,
            given: 0,
            start: 0,
            finished: 0,
            spent: false,
            ended: false,
        }
    }

    /// Whether an event is ready to be taken.
    pub fn ready(&self) -> bool
        ensures { result ≡ is_ready self.now }
    {
        self.ready.is_some()
    }

    /// How many octets the pushes have taken.
    pub fn given(&self) -> u64
        ensures count { result ≡ count_of self.now }
        ensures fed { (given : List ℕ) (taken : List Event) → Fed self.now given taken
            → result ≡ length given }
    {
        self.given
    }

    /// Whether the text has ended: whether `last` was called, even if it failed.
    pub fn ended(&self) -> bool
        ensures { result ≡ has_ended self.now }
    {
        self.ended
    }

    /// Takes the event that is ready.
    pub fn take(&mut self) -> Option<ArmorEvent>
        ensures fed { KeepsFed self.old self.new [] (events_of result) }
        ensures some { is_some result ≡ is_ready self.old }
        ensures free { is_ready self.new ≡ false }
        ensures spent { is_spent self.new ≡ is_spent self.old }
        ensures faulty { fault_of self.new ≡ fault_of self.old }
        ensures open { has_ended self.new ≡ has_ended self.old }
        ensures count { count_of self.new ≡ count_of self.old }
        ensures limits { line_limit_of self.new ≡ line_limit_of self.old }
        ensures rule { rule_of self.new ≡ rule_of self.old }
        ensures held { held_of self.new ≤ line_limit_of self.new + 16 }
        ensures shrinks { held_of self.new ≤ held_of self.old }
        ensures spare { spare_of self.new ≤ 2 * line_limit_of self.new }
        ensures spare_shrinks { spare_of self.new ≤ spare_of self.old }
    {
        self.ready.take()
    }

    /// Takes back the vector of an event that was used up, so that octets of a later line are put
    /// in its memory; what it holds doesn't matter, and nothing that the reader says changes.
    ///
    /// One vector is kept, with what it holds, and none whose capacity is more than twice the octets
    /// that a line may have. Nothing else puts octets into spare memory. Allocates nothing.
    pub fn reuse(&mut self, octets: Vec<u8>)
        ensures same { SaysTheSame self.old self.new }
        ensures spare { spare_of self.new ≤ 2 * line_limit_of self.new }
    {
        if octets.capacity() <= 2 * self.limit {
            self.spare.octets = octets;
        }
    }

    /// Ends this line, of which nothing is in the buffer.
    fn end_line(&mut self, line: &[u8]) -> Result<(), OutOfMemory>
        requires free { self.old.ready ≡ None }
        requires faultless { self.old.fault ≡ None }
        requires empty { self.old.buffer.items ≡ [] }
        requires room { self.old.finished < self.old.given }
        ensures same { SameReader self.old self.new }
        ensures line { OnOk result (AfterLine self.old self.new
            (step (rule_of self.old) (state_of self.old.section self.old.pending) line.now)) }
        ensures free { OnErr result (self.new.ready ≡ None) }
        ensures spare { spare_of self.new ≤ spare_of self.old }
    {
        match answer_line(
            self.alloc,
            &mut self.spare,
            self.limit,
            self.outside,
            self.section,
            self.pending,
            line,
        ) {
            Ok(
                Reaction {
                    section,
                    pending,
                    event,
                },
            ) => {
                self.finished += ended_blocks(&event);
                self.section = section;
                self.pending = pending;
                self.ready = event;
                self.start = self.given;
                Ok(())
            }
            Err(Refusal::Reason(reason)) => {
                self.fault = Some(Fault {
                    layer: Layer::Armor,
                    reason,
                    block: self.finished,
                    pos: self.start,
                    inner: 0,
                });
                Ok(())
            }
            Err(Refusal::Memory) => Err(AllocError),
        }
    }

    /// Ends the line in the buffer.
    fn end_buffered(&mut self) -> Result<(), OutOfMemory>
        requires free { self.old.ready ≡ None }
        requires faultless { self.old.fault ≡ None }
        requires room { self.old.finished < self.old.given }
        ensures same { SameReader self.old self.new }
        ensures line { OnOk result (AfterLine self.old self.new
            (step (rule_of self.old) (state_of self.old.section self.old.pending)
            self.old.buffer.items)) }
        ensures free { OnErr result (self.new.ready ≡ None) }
        ensures spare { spare_of self.new ≤ spare_of self.old }
    {
        let mut line = mem::replace(&mut self.buffer, Vec::new(self.alloc));
        self.end_line(line.as_slice())?;
        line.clear();
        self.buffer = line;
        Ok(())
    }

    /// Takes the octets up to the first line end, or all of them, and ends that line; after a fault
    /// takes all.
    fn part(&mut self, rest: &[u8]) -> Result<usize, OutOfMemory>
        requires some { 0 < length rest.now }
        requires free { self.old.ready ≡ None }
        requires open { self.old.ended ≡ false }
        requires room { self.old.given + length rest.now < 2 ^ 63 }
        ensures moves { IfOk result (λ n. (0 < n) × (n ≤ length rest.now)) }
        ensures fed { IfOk result (λ n. KeepsFed self.old self.new (take n rest.now) []) }
        ensures count { IfOk result (λ n. self.new.given ≡ self.old.given + n) }
        ensures spent { self.new.spent ≡ self.old.spent }
        ensures open { self.new.ended ≡ false }
        ensures rule { rule_of self.new ≡ rule_of self.old }
        ensures free { OnErr result (self.new.ready ≡ None) }
        ensures faulty { (f : Fault) → self.old.fault ≡ Some f
            → (result ≡ Ok (length rest.now)) × (self.new.fault ≡ Some f)
            × (self.new.ready ≡ None) }
        ensures quiet { IfOk result (IsQuiet self.old rest.now) }
        ensures spare { spare_of self.new ≤ spare_of self.old }
    {
        if self.fault.is_some() {
            self.given += rest.len() as u64;
            return Ok(rest.len());
        }
        let (line, n, ends) = split_line(rest);
        self.given += n as u64;
        if ends && self.buffer.is_empty() {
            self.end_line(line)?;
            return Ok(n);
        }
        keep(
            &mut self.buffer,
            self.limit,
            self.outside,
            self.section,
            line,
        )?;
        if ends {
            self.end_buffered()?;
        }
        Ok(n)
    }

    /// Frees the memory that it keeps and marks the reader as spent, when out of memory.
    fn give_up(&mut self, given: u64)
        requires { self.old.ready ≡ None }
        ensures spent { self.new.spent ≡ true }
        ensures free { self.new.ready ≡ None }
        ensures count { self.new.given ≡ given }
        ensures open { self.new.ended ≡ self.old.ended }
        ensures rule { rule_of self.new ≡ rule_of self.old }
        ensures spare { spare_of self.new ≡ 0 }
    {
        self.buffer = Vec::new(self.alloc);
        self.spare = Spare::new(self.alloc);
        self.finished = 0;
        self.given = given;
        self.spent = true;
    }

    /// Takes octets of the piece up to the one that makes an event ready, or all of them, and
    /// returns how many. The conditions are that nothing is ready, that the text hasn't ended, and
    /// that fewer than 2^63 octets are given in all.
    ///
    /// After a fault all octets are taken and nothing becomes ready. Fails only when out of memory;
    /// the reader is spent from then on, and the piece doesn't count as given.
    pub fn push(&mut self, piece: &[u8]) -> Result<usize, PushFault>
        requires free { is_ready self.old ≡ false }
        requires open { has_ended self.old ≡ false }
        requires room { count_of self.old + length piece.now < 2 ^ 63 }
        ensures fed { IfOk result (λ n. KeepsFed self.old self.new (take n piece.now) []) }
        ensures within { IfOk result (λ n. n ≤ length piece.now) }
        ensures moves { IfOk result (λ n. 0 < length piece.now → 0 < n) }
        ensures stops { IfOk result (λ n. n < length piece.now → is_ready self.new ≡ true) }
        ensures count { IfOk result (λ n. count_of self.new ≡ count_of self.old + n) }
        ensures faulty { (f : Fault) → is_spent self.old ≡ false → fault_of self.old ≡ Some f
            → (result ≡ Ok (length piece.now)) × (fault_of self.new ≡ Some f)
            × (is_ready self.new ≡ false) }
        ensures sound { OnOk result (is_spent self.new ≡ false) }
        ensures spent { OnErr result ((is_spent self.new ≡ true) × (is_ready self.new ≡ false)
            × (count_of self.new ≡ count_of self.old)) }
        ensures was_spent { (result ≡ Err PushFault.Spent) ↔ (is_spent self.old ≡ true) }
        ensures limits { line_limit_of self.new ≡ line_limit_of self.old }
        ensures rule { rule_of self.new ≡ rule_of self.old }
        ensures held { held_of self.new ≤ line_limit_of self.new + 16 }
        ensures spare { spare_of self.new ≤ 2 * line_limit_of self.new }
        // Nothing is put into spare memory.
        ensures spare_shrinks { spare_of self.new ≤ spare_of self.old }
        ensures open { has_ended self.new ≡ false }

        // It takes no octet after the one that makes an event ready.
        ensures quiet { IfOk result (IsQuiet self.old piece.now) }
    {
        if self.spent {
            return Err(PushFault::Spent);
        }
        let before = self.given;
        let mut taken = 0;
        'parts: while taken < piece.len() && self.ready.is_none() {
            match self.part(&piece[taken..]) {
                Ok(n) => {
                    taken += n;
                }
                Err(_) => {
                    self.give_up(before);
                    return Err(PushFault::Memory);
                }
            }
        }
        Ok(taken)
    }

    /// Ends the last line, if it isn't empty and no line is at fault.
    fn end_last(&mut self) -> Result<(), OutOfMemory>
        requires free { self.old.ready ≡ None }
        requires open { self.old.ended ≡ false }
        ensures fed { OnOk result ((given : List ℕ) (taken : List Event)
            → Fed self.old given taken → Fed self.new given taken) }
        ensures count { self.new.given ≡ self.old.given }
        ensures spent { self.new.spent ≡ self.old.spent }
        ensures ended { self.new.ended ≡ true }
        ensures rule { rule_of self.new ≡ rule_of self.old }
        ensures free { OnErr result (self.new.ready ≡ None) }
        ensures faulty { (f : Fault) → self.old.fault ≡ Some f
            → (result ≡ Ok tt) × (self.new.fault ≡ Some f) × (self.new.ready ≡ None) }
        ensures spare { spare_of self.new ≤ spare_of self.old }
    {
        self.ended = true;
        if self.fault.is_some() || self.buffer.is_empty() {
            return Ok(());
        }
        self.end_buffered()?;
        Ok(())
    }

    /// Ends the text, and with it a last line without a line end, and returns the event that this
    /// line makes. The conditions are that nothing is ready and that the text hasn't ended.
    ///
    /// Fails only when out of memory; the reader is spent from then on.
    pub fn last(&mut self) -> Result<Option<ArmorEvent>, PushFault>
        requires free { is_ready self.old ≡ false }
        requires open { has_ended self.old ≡ false }
        ensures fed { IfOk result (λ event. KeepsFed self.old self.new [] (events_of event)) }
        ensures free { is_ready self.new ≡ false }
        ensures ended { has_ended self.new ≡ true }
        ensures count { count_of self.new ≡ count_of self.old }
        ensures faulty { (f : Fault) → is_spent self.old ≡ false → fault_of self.old ≡ Some f
            → (result ≡ Ok None) × (fault_of self.new ≡ Some f) }
        ensures sound { OnOk result (is_spent self.new ≡ false) }
        ensures spent { OnErr result (is_spent self.new ≡ true) }
        ensures was_spent { (result ≡ Err PushFault.Spent) ↔ (is_spent self.old ≡ true) }
        ensures limits { line_limit_of self.new ≡ line_limit_of self.old }
        ensures rule { rule_of self.new ≡ rule_of self.old }
        ensures held { held_of self.new ≤ line_limit_of self.new + 16 }
        ensures spare { spare_of self.new ≤ 2 * line_limit_of self.new }
        // Nothing is put into spare memory.
        ensures spare_shrinks { spare_of self.new ≤ spare_of self.old }
    {
        if self.spent {
            self.ended = true;
            return Err(PushFault::Spent);
        }
        let given = self.given;
        match self.end_last() {
            Ok(()) => Ok(self.ready.take()),
            Err(_) => {
                self.give_up(given);
                Err(PushFault::Memory)
            }
        }
    }

    /// Ends the reading: the events that were taken are those of an armored text. The conditions
    /// are that nothing is ready and that the text has ended.
    ///
    /// An error is the fault of the text; after running out of memory its reason is `Spent` and its
    /// places are 0.
    ///
    /// Allocates nothing.
    pub fn finish(self) -> Result<(), Fault>
        requires free { is_ready self ≡ false }
        requires ended { has_ended self ≡ true }
        ensures ok { (given : List ℕ) (taken : List Event) → Fed self given taken
            → MatchResult result (λ _. Armored (rule_of self) given (built taken).blocks)
            (IsArmorFault (rule_of self) given) }
        // No block is open at the end of an armored text.
        ensures closed { OnOk result ((given : List ℕ) (taken : List Event) → Fed self given taken
            → is_open_behind false taken ≡ false) }
        ensures faulty { (f : Fault) → is_spent self ≡ false → fault_of self ≡ Some f
            → result ≡ Err f }
        ensures spent { is_spent self ≡ true → result ≡ Err spent_fault }
    {
        if self.spent {
            return Err(Fault {
                layer: Layer::Armor,
                reason: Reason::Spent,
                block: 0,
                pos: 0,
                inner: 0,
            });
        }
        match self.fault {
            Some(fault) => Err(fault),
            None => match end_of_text(self.section, self.finished) {
                None => Ok(()),
                Some(reason) => Err(Fault {
                    layer: Layer::Armor,
                    reason,
                    block: self.finished,
                    pos: self.given,
                    inner: 0,
                }),
            },
        }
    }
}
