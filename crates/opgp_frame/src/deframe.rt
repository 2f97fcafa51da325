//! A reader of packets that octets are pushed into, in pieces of any size.

ghost use Rattle.std.specs.Prelude.{◌≡◌, ◌<◌, ◌≤◌, ◌+◌, ◌^◌, ◌++◌, ◌∷◌, ◌↔◌, ℕ, List, [], true};
ghost use Rattle.std.specs.Prelude.{false, length, take, is_some, option_to_list, Some, None, IfOk};
ghost use Rattle.std.specs.Prelude.{IfSome, IsSome, OnOk, OnErr, MatchResult, Ok, Err};
ghost use Rattle.std.specs.Prelude.{vec_capacity, vec_len, max, min};
ghost use Rattle.std.specs.Option.{IsSomeAnd};
ghost use Rattle.opgp_octets.specs.declared.limits.Limits.{Limits};
ghost use Rattle.opgp_octets.specs.declared.fault.Fault.{Fault};
ghost use Rattle.opgp_octets.specs.declared.fault.Layer.TheVariants as layer;
ghost use Rattle.opgp_octets.specs.declared.fault.Reason.TheVariants as reason;
ghost use Rattle.opgp_octets.specs.Limits.{body_limit, pieces_limit};
ghost use Rattle.opgp_frame.specs.ReaderState.{state_fits, state_fault, held_in, held_in_ready};

use crate::header::{header_fault, kind_in};
use crate::length::{Length, length_fault, read_length};
use crate::packet::Placed;
use crate::parts::placed;
use crate::spot::Spot;
use crate::whole::whole_in;
use opgp_octets::{Fault, Layer, Limits, OutOfMemory, PushFault, Reason};
use std::alloc::Global;
use std::mem;

/// The state of a reader.
#[derive(Clone, Copy)]
enum State {
    /// Between packets.
    Between,
    /// In a length header of a packet, of which `count` octets have come.
    InLength {
        header: u8,
        seen: [u8; 5],
        count: usize,
    },
    /// In what a length header announced: octets `from` to `until` of the body.
    InPiece {
        header: u8,
        length: Length,
        from: u64,
        until: u64,
    },
    /// After a fault, at this offset in its packet.
    Faulty {
        reason: Reason,
        inner: u64,
    },
    /// After running out of memory.
    Spent,
}

/// A reader of the packets of a block (RFC 9580, 4.2), which octets are pushed into, in pieces of
/// any size.
///
/// It keeps only the packet that is unfinished or ready, and nothing after a fault or after running
/// out of memory.
#[derive(Drop)]
pub struct Deframe {
    alloc: Global,
    limits: Limits,
    block: u64,
    state: State,
    exponents: Vec<u8>,
    body: Vec<u8>,
    ready: Option<Placed>,
    start: u64,
    given: u64,
    ghost fits: { state_fits limits state (length exponents.items) (length body.items) ≡ true },
    ghost held: { held_in state (length exponents.items) (length body.items) ready
        ≤ body_limit limits + pieces_limit limits + 16 },
}

impl Deframe {
    ghost use Rattle.opgp_frame.specs.Fed.{Fed, KeepsFed, is_spent, fault_of, is_ready, count_of};
    ghost use Rattle.opgp_frame.specs.Fed.{limits_of, held_of, is_between, Takes};
    ghost use Rattle.opgp_frame.specs.Form.{exponents_of};
    ghost use Rattle.opgp_frame.specs.Frames.{Frames, IsFramingFault};
    ghost use Rattle.opgp_frame.specs.Length.{LengthFits, is_partial};
    ghost use Rattle.opgp_frame.specs.ReaderState.{IsInLength};
    ghost use Rattle.opgp_frame.specs.Unfinished.{EndsLength, IsInPiece, IsWhole};
    ghost use Rattle.opgp_frame.specs.Spot.{LiesIn};
    ghost use Rattle.opgp_frame.specs.Whole.{BeginInOnePiece};
    ghost use Rattle.opgp_frame.specs.declared.packet.Placed.{Placed};

    /// A reader of a block's packets that was given nothing yet.
    ///
    /// Allocates nothing; pushes do, from `alloc`.
    pub fn new(alloc: Global, block: u64, limits: Limits) -> Deframe
        ensures fed { Fed limits block result [] [] }
        ensures free { is_ready result ≡ false }
        ensures sound { is_spent result ≡ false }
        ensures between { is_between result ≡ true }
        ensures count { count_of result ≡ 0 }
        ensures limits { limits_of result ≡ limits }
        ensures held { held_of result ≡ 0 }
    {
        Deframe {
            alloc,
            limits,
            block,
            state: State::Between,
            exponents: Vec::new(alloc),
            body: Vec::new(alloc),
            ready: None,
            start: 0,
            given: 0,
        }
    }

    /// Whether a packet is ready to be taken.
    pub fn ready(&self) -> bool
        ensures { result ≡ is_ready self.now }
    {
        self.ready.is_some()
    }

    /// How many octets the pushes have taken.
    pub fn given(&self) -> u64
        ensures { result ≡ count_of self.now }
    {
        let Deframe { given, .. } = self;
        *given
    }

    /// Takes the packet that is ready.
    pub fn take(&mut self) -> Option<Placed>
        ensures fed { KeepsFed self.old self.new [] (option_to_list result) }
        ensures some { is_some result ≡ is_ready self.old }
        ensures free { is_ready self.new ≡ false }
        ensures spent { is_spent self.new ≡ is_spent self.old }
        ensures between { is_between self.new ≡ is_between self.old }
        ensures faulty { fault_of self.new ≡ fault_of self.old }
        ensures count { count_of self.new ≡ count_of self.old }
        ensures limits { limits_of self.new ≡ limits_of self.old }
        // What is handed out isn't held any more.
        ensures held { held_in_ready result + held_of self.new ≡ held_of self.old }
    {
        self.ready.take()
    }

    /// Ends the octets. The condition is that nothing is ready.
    ///
    /// An error is the framing fault; after running out of memory its reason is `Spent` and its
    /// places are 0.
    ///
    /// Allocates nothing.
    pub fn finish(self) -> Result<(), Fault>
        requires { is_ready self ≡ false }
        ensures ok { (limits : Limits) (block : ℕ) (given : List ℕ) (taken : List Placed)
            → Fed limits block self given taken
            → MatchResult result (λ _. Frames limits block given taken)
            (IsFramingFault limits block given) }
        // A fault that the reader has is returned.
        ensures faulty { (fault : Fault) → fault_of self ≡ Some fault → result ≡ Err fault }
        ensures spent { is_spent self ≡ true → result ≡ Err (record {
          layer = layer.Framing;
          reason = reason.Spent;
          block = 0;
          pos = 0;
          inner = 0;
        }) }
    {
        if let State::Spent = self.state {
            return Err(Fault {
                layer: Layer::Framing,
                reason: Reason::Spent,
                block: 0,
                pos: 0,
                inner: 0,
            });
        }
        match self.fault() {
            None => Ok(()),
            Some((reason, inner)) => Err(Fault {
                layer: Layer::Framing,
                reason,
                block: self.block,
                pos: self.start,
                inner,
            }),
        }
    }

    /// The fault of the unfinished packet if the octets end here, and its offset in the packet.
    fn fault(&self) -> Option<(Reason, u64)>
        ensures { result ≡ state_fault self.now.state (length self.now.exponents.items)
            (length self.now.body.items) }
    {
        let pieces = self.exponents.len() as u64;
        match self.state {
            State::Between | State::Spent => None,
            State::InLength { .. } => {
                let before = self.body.len() as u64;
                Some((Reason::Truncated, 1 + (pieces + before)))
            }
            State::InPiece { from, .. } => Some((Reason::Truncated, 1 + (pieces + from))),
            State::Faulty { reason, inner } => Some((reason, inner)),
        }
    }

    /// Takes octets of the piece up to the one that makes a packet ready, or all of them, and
    /// returns how many. The conditions are that nothing is ready, and that fewer than 2^63 octets
    /// are given in all.
    ///
    /// After a fault all octets are taken and nothing becomes ready. Fails only when out of memory;
    /// the reader is spent from then on, and the piece doesn't count as given.
    pub fn push(&mut self, piece: &[u8]) -> Result<usize, PushFault>
        requires free { is_ready self.old ≡ false }
        requires room { count_of self.old + length piece.now < 2 ^ 63 }
        ensures fed { IfOk result (λ n. KeepsFed self.old self.new (take n piece.now) []) }
        ensures within { IfOk result (λ n. n ≤ length piece.now) }
        ensures moves { IfOk result (λ n. 0 < length piece.now → 0 < n) }
        ensures stops { IfOk result (λ n. n < length piece.now → is_ready self.new ≡ true) }
        ensures count { IfOk result (λ n. count_of self.new ≡ count_of self.old + n) }
        // A fault stays, all octets are taken, and nothing becomes ready.
        ensures faulty { (fault : Fault) → fault_of self.old ≡ Some fault
            → (result ≡ Ok (length piece.now)) × (fault_of self.new ≡ Some fault)
            × (is_ready self.new ≡ false) }
        ensures sound { OnOk result (is_spent self.new ≡ false) }
        ensures spent { OnErr result ((is_spent self.new ≡ true) × (is_ready self.new ≡ false)
            × (count_of self.new ≡ count_of self.old)) }
        ensures was_spent { (result ≡ Err PushFault.Spent) ↔ (is_spent self.old ≡ true) }
        ensures limits { limits_of self.new ≡ limits_of self.old }
        ensures held { held_of self.new
            ≤ body_limit (limits_of self.new) + pieces_limit (limits_of self.new) + 16 }
    {
        if let State::Spent = self.state {
            return Err(PushFault::Spent);
        }
        let before = self.given;
        match self.advance(piece) {
            Ok(n) => Ok(n),
            Err(_) => {
                self.stop(State::Spent);
                self.given = before;
                Err(PushFault::Memory)
            }
        }
    }

    /// Takes a packet of one piece, all of whose octets begin the piece, where the reader is
    /// between packets: says where it lies there, with the number of its octets, and copies
    /// nothing. Where there is none, takes nothing and returns None; `push` reads on then. The
    /// conditions are those of `push`.
    ///
    /// Allocates nothing.
    #[inline(always)]
    pub fn find(&mut self, piece: &[u8]) -> Option<(usize, Spot)>
        requires free { is_ready self.old ≡ false }
        requires room { count_of self.old + length piece.now < 2 ^ 63 }
        ensures fed { IfSome result (λ r. (p : Placed) × LiesIn r.1 piece.now p
            × KeepsFed self.old self.new (take r.0 piece.now) (p ∷ [])) }
        ensures moves { IfSome result (λ r. (0 < r.0) × (r.0 ≤ length piece.now)) }
        ensures count { IfSome result (λ r. count_of self.new ≡ count_of self.old + r.0) }
        // The packet is in one piece, whose body is within the limit.
        ensures whole { IfSome result (λ r. (p : Placed) → LiesIn r.1 piece.now p
            → exponents_of p.packet.form ≡ []) }
        ensures short { IfSome result (λ r. (p : Placed) → LiesIn r.1 piece.now p
            → length p.packet.body ≤ body_limit (limits_of self.new)) }
        // Where there is such a packet, it is found.
        ensures some { is_between self.old ≡ true → BeginInOnePiece (limits_of self.old) piece.now
            → IsSome result }
        ensures between { IsSome result → is_between self.new ≡ true }
        ensures none { result ≡ None → self.new ≡ self.old }
        ensures free { is_ready self.new ≡ false }
        ensures sound { is_spent self.new ≡ is_spent self.old }
        ensures faulty { fault_of self.new ≡ fault_of self.old }
        // After a fault, and when out of memory, nothing is found.
        ensures quiet { IsSome (fault_of self.old) → result ≡ None }
        ensures spent { is_spent self.old ≡ true → result ≡ None }
        ensures limits { limits_of self.new ≡ limits_of self.old }
        ensures held { held_of self.new ≡ held_of self.old }
    {
        let State::Between = self.state else {
            return None;
        };
        let spot = whole_in(self.alloc, self.limits, piece, self.block, self.start)?;
        self.given += spot.until as u64;
        self.start = self.given;
        Some((spot.until, spot))
    }

    /// Takes octets of the piece up to the one that makes a packet ready, or all of them.
    fn advance(&mut self, piece: &[u8]) -> Result<usize, OutOfMemory>
        requires free { is_ready self.old ≡ false }
        requires sound { is_spent self.old ≡ false }
        requires room { count_of self.old + length piece.now < 2 ^ 63 }
        ensures { Takes self.old self.new piece.now result }
    {
        // The usual case: the piece has the whole packet.
        if let Some((n, spot)) = self.find(piece) {
            let placed = spot.lend(piece).copy(self.alloc)?;
            self.ready = Some(placed);
            return Ok(n);
        }
        self.steps(piece)
    }

    /// Takes octets of the piece up to the one that makes a packet ready, or all of them, step by
    /// step.
    #[inline(never)]
    fn steps(&mut self, piece: &[u8]) -> Result<usize, OutOfMemory>
        requires free { is_ready self.old ≡ false }
        requires sound { is_spent self.old ≡ false }
        requires room { count_of self.old + length piece.now < 2 ^ 63 }
        ensures { Takes self.old self.new piece.now result }
    {
        let mut at = 0;
        'steps: while at < piece.len() && self.ready.is_none() {
            let n = self.step(&piece[at..])?;
            at += n;
        }
        Ok(at)
    }

    /// One step of a push: a packet's first octet, a length header or an octet of it, what has come
    /// of a partial body, or everything after a fault.
    fn step(&mut self, piece: &[u8]) -> Result<usize, OutOfMemory>
        requires some { 0 < length piece.now }
        requires free { is_ready self.old ≡ false }
        requires sound { is_spent self.old ≡ false }
        requires room { count_of self.old + length piece.now < 2 ^ 63 }
        ensures fed { IfOk result (λ n. KeepsFed self.old self.new (take n piece.now) []) }
        ensures moves { IfOk result (λ n. (0 < n) × (n ≤ length piece.now)) }
        ensures count { IfOk result (λ n. count_of self.new ≡ count_of self.old + n) }
        ensures faulty { (fault : Fault) → fault_of self.old ≡ Some fault
            → (result ≡ Ok (length piece.now)) × (fault_of self.new ≡ Some fault)
            × (is_ready self.new ≡ false) }
        ensures sound { OnOk result (is_spent self.new ≡ false) }
        ensures free { OnErr result (is_ready self.new ≡ false) }
        ensures limits { limits_of self.new ≡ limits_of self.old }
    {
        match self.state {
            State::Between => {
                self.begin(piece[0]);
                Ok(1)
            }
            State::InLength {
                header,
                seen,
                count,
            } => Ok(self.step_length(header, seen, count, piece)),
            State::InPiece {
                header,
                length,
                from,
                until,
            } => self.step_piece(header, length, from, until, piece),
            State::Faulty { .. } | State::Spent => {
                self.given += piece.len() as u64;
                Ok(piece.len())
            }
        }
    }

    /// Drops the unfinished packet, and enters a state that keeps nothing.
    fn stop(&mut self, state: State)
        requires empty { state_fits self.old.limits state 0 0 ≡ true }
        requires free { is_ready self.old ≡ false }
        ensures state { self.new.state ≡ state }
        ensures empty { (self.new.exponents.items ≡ []) × (self.new.body.items ≡ []) }
        ensures ready { self.new.ready ≡ self.old.ready }
        ensures start { self.new.start ≡ self.old.start }
        ensures count { self.new.given ≡ self.old.given }
        ensures block { self.new.block ≡ self.old.block }
        ensures limits { self.new.limits ≡ self.old.limits }
    {
        self.exponents = Vec::new(self.alloc);
        self.body = Vec::new(self.alloc);
        self.state = state;
    }

    /// Takes the octet that begins a packet.
    fn begin(&mut self, octet: u8)
        requires between { self.old.state ≡ State.Between }
        requires free { is_ready self.old ≡ false }
        requires room { count_of self.old + 1 < 2 ^ 63 }
        ensures fed { KeepsFed self.old self.new (octet ∷ []) [] }
        ensures count { count_of self.new ≡ count_of self.old + 1 }
        ensures sound { is_spent self.new ≡ false }
        ensures limits { limits_of self.new ≡ limits_of self.old }
    {
        self.given += 1;
        match header_fault(octet) {
            Some(reason) => self.state = State::Faulty { reason, inner: 0 },
            None => {
                self.state = State::InLength {
                    header: octet,
                    seen: [0; 5],
                    count: 0,
                };
            }
        }
    }

    /// Takes a length header if all of it is in the piece, else one octet of it.
    fn step_length(&mut self, header: u8, seen: [u8; 5], count: usize, piece: &[u8]) -> usize
        requires in_length { self.old.state ≡ State.InLength header seen count }
        requires some { 0 < length piece.now }
        requires free { is_ready self.old ≡ false }
        requires room { count_of self.old + length piece.now < 2 ^ 63 }
        ensures fed { KeepsFed self.old self.new (take result piece.now) [] }
        ensures moves { (0 < result) × (result ≤ length piece.now) }
        ensures count { count_of self.new ≡ count_of self.old + result }
        ensures sound { is_spent self.new ≡ false }
        ensures limits { limits_of self.new ≡ limits_of self.old }
    {
        if count == 0 {
            if let Some((length, size)) = read_length(header, piece) {
                self.end_length(header, seen, count, length, size as u64);
                return size;
            }
        }
        self.step_octet(header, seen, count, piece[0]);
        1
    }

    /// Takes an octet of a length header.
    fn step_octet(&mut self, header: u8, mut seen: [u8; 5], count: usize, octet: u8)
        requires in_length { self.old.state ≡ State.InLength header seen count }
        requires free { is_ready self.old ≡ false }
        requires room { count_of self.old + 1 < 2 ^ 63 }
        ensures fed { KeepsFed self.old self.new (octet ∷ []) [] }
        ensures count { count_of self.new ≡ count_of self.old + 1 }
        ensures sound { is_spent self.new ≡ false }
        ensures limits { limits_of self.new ≡ limits_of self.old }
    {
        let before = seen;
        seen[count] = octet;
        match read_length(header, &seen[..count + 1]) {
            Some((length, _)) => self.end_length(header, before, count, length, 1),
            None => {
                self.given += 1;
                self.state = State::InLength {
                    header,
                    seen,
                    count: count + 1,
                };
            }
        }
    }

    /// Takes the octets that complete a length header.
    #[inline(always)]
    fn end_length(&mut self, header: u8, seen: [u8; 5], count: usize, announced: Length, size: u64)
        requires in_length { self.old.state ≡ State.InLength header seen count }
        requires fits { LengthFits announced }
        requires free { is_ready self.old ≡ false }
        requires room { count_of self.old + size < 2 ^ 63 }
        ensures fed { (limits : Limits) (block : ℕ) (given : List ℕ) (taken : List Placed)
            (octets : List ℕ) → length octets ≡ size
            → EndsLength header (take count seen) octets announced
            → Fed limits block self.old given taken
            → Fed limits block self.new (given ++ octets) (taken ++ []) }
        ensures count { count_of self.new ≡ count_of self.old + size }
        ensures sound { is_spent self.new ≡ false }
        ensures limits { limits_of self.new ≡ limits_of self.old }
    {
        self.given += size;
        let pieces = self.exponents.len() as u64;
        let from = self.body.len() as u64;
        let amount = announced.amount();
        match length_fault(self.limits, kind_in(header), pieces, from, announced) {
            Some(reason) => self.stop(State::Faulty {
                reason,
                inner: 1 + (pieces + from),
            }),
            None if amount == 0 => self.end_packet(header, announced),
            None => {
                self.state = State::InPiece {
                    header,
                    length: announced,
                    from,
                    until: from + amount,
                };
            }
        }
    }

    /// Takes what has come of a partial body, or of the last one.
    fn step_piece(
        &mut self,
        header: u8,
        announced: Length,
        from: u64,
        until: u64,
        piece: &[u8],
    ) -> Result<usize, OutOfMemory>
        requires in_piece { self.old.state ≡ State.InPiece header announced from until }
        requires some { 0 < length piece.now }
        requires free { is_ready self.old ≡ false }
        requires room { count_of self.old + length piece.now < 2 ^ 63 }
        ensures fed { IfOk result (λ n. KeepsFed self.old self.new (take n piece.now) []) }
        ensures moves { IfOk result (λ n. (0 < n) × (n ≤ length piece.now)) }
        ensures count { IfOk result (λ n. count_of self.new ≡ count_of self.old + n) }
        ensures sound { OnOk result (is_spent self.new ≡ false) }
        ensures free { OnErr result (is_ready self.new ≡ false) }
        ensures limits { limits_of self.new ≡ limits_of self.old }
    {
        let want = (until - self.body.len() as u64) as usize;
        let count = want.min(piece.len());
        make_room(&mut self.body, announced.is_partial(), want, count)?;
        self.body.extend_from_slice(&piece[..count])?;
        self.given += count as u64;
        if count < want {
            return Ok(count);
        }
        self.state = State::InLength {
            header,
            seen: [0; 5],
            count: 0,
        };
        match announced.exponent() {
            Some(exponent) => self.exponents.push(exponent)?,
            None => self.end_packet(header, announced),
        }
        Ok(count)
    }

    /// Ends a packet whose last piece has come.
    #[inline(always)]
    fn end_packet(&mut self, header: u8, last: Length)
        requires in_length { IsInLength self.old.state }
        requires free { is_ready self.old ≡ false }
        ensures whole { (limits : Limits) (from until : ℕ) (rest : List ℕ)
            → IsInPiece limits header last from until self.old.exponents.items
            self.old.body.items rest
            → length self.old.body.items ≡ until → is_partial last ≡ false
            → IsSomeAnd self.new.ready (λ p. (p.block ≡ self.old.block)
            × (p.pos ≡ self.old.start) × IsWhole limits rest p.packet) }
        ensures state { self.new.state ≡ State.Between }
        ensures empty { (self.new.exponents.items ≡ []) × (self.new.body.items ≡ []) }
        ensures start { self.new.start ≡ self.old.given }
        ensures count { self.new.given ≡ self.old.given }
        ensures block { self.new.block ≡ self.old.block }
        ensures limits { self.new.limits ≡ self.old.limits }
    {
        let body = mem::replace(&mut self.body, Vec::new(self.alloc));
        let exponents = mem::replace(&mut self.exponents, Vec::new(self.alloc));
        self.ready = placed(header, exponents, last, body, self.block, self.start);
        self.start = self.given;
        self.state = State::Between;
    }
}

/// Makes room in a body for octets of a piece: `there` of them have come, of `want` in all.
///
/// Where they don't fit, a last piece gets no more room than it needs, and at most 4,096 octets, or
/// as much again as the body has, before they have come: so a body that comes in small parts is
/// copied a few times, and not with each of them. A partial piece gets none here: the vector grows
/// as it is appended to.
fn make_room(
    body: &mut Vec<u8>,
    partial: bool,
    want: usize,
    there: usize,
) -> Result<(), OutOfMemory>
    ensures items { body.new.items ≡ body.old.items }
    ensures partial { partial ≡ true → vec_capacity body.new ≡ vec_capacity body.old }
    ensures reserved { vec_capacity body.new ≤ max (vec_capacity body.old)
        (vec_len body.old + min want (max there (max 4096 (vec_len body.old)))) }
{
    if partial || there <= body.capacity().saturating_sub(body.len()) {
        return Ok(());
    }
    let more = there.max(body.len()).max(4_096);
    body.reserve_exact(more.min(want))
}
