//! The fields of a body and their places, from left to right.

ghost use Rattle.std.specs.Prelude.{◌≡◌, ◌≤◌, ◌+◌, ◌^◌, ◌<◌, ℕ, List, length, drop, IfOk, OnErr};
ghost use Rattle.std.specs.Prelude.{None};
ghost use Rattle.opgp_octets.specs.Octets.{IsOctets, IsBodySized};
ghost use Rattle.opgp_octets.specs.Reading.{Reads};
ghost use Rattle.opgp_packet.specs.Fields.{version, octet, exact, four, count, mpi, sized, fixed};
ghost use Rattle.opgp_packet.specs.Fields.{whole};
ghost use Rattle.opgp_packet.specs.Fields.{small, wide, named, bare, subpackets, fault_at, Field};
ghost use Rattle.opgp_packet.specs.FieldReading.{step_at, area_step_at, extent_at, area_as, ended};
ghost use Rattle.opgp_packet.specs.AreaReading.{placed, fault_in, subs_in};

use crate::spans::{MpiSpan, Span};
use crate::walk::fault_in_area;
use opgp_octets::{BodyFault, MpiView, Reason, u16_at, u32_at};

/// The width of an area's length field (RFC 9580, 5.2.3).
#[derive(Clone, Copy)]
pub enum AreaLength {
    /// Two octets, as in version 4.
    Two,
    /// Four octets, as in version 6.
    Four,
}

/// A body, and how far it was read. Each call reads the next field; its errors are the reasons that
/// it lists, and an error moves nothing. Allocates nothing.
#[derive(Drop)]
pub struct Cursor<'a> {
    body: &'a [u8],
    at: usize,
    ghost within: { at ≤ length body.now },
    ghost small: { IsBodySized body.now },
    ghost octets: { IsOctets body.now },
}

impl<'a> Cursor<'a> {
    ghost use Rattle.opgp_packet.specs.AreaLength.{extent_of, width_of};
    ghost use Rattle.opgp_packet.specs.Cursor.{body_under, place_of, ReadsField};
    ghost use Rattle.opgp_packet.specs.Spans.{octets_in, integer_in, IsIn, IsMpiIn};

    /// The beginning of a body.
    pub fn new(body: &'a [u8]) -> Cursor<'a>
        requires { IsBodySized body.now }
        ensures body { body_under result ≡ body.now }
        ensures at { place_of result ≡ 0 }
    {
        Cursor { body, at: 0 }
    }

    /// The octets that are left.
    fn rest(&self) -> &'a [u8]
        ensures { result.now ≡ drop (place_of self.now) (body_under self.now) }
    {
        let (_, rest) = self.body.split_at(self.at);
        rest
    }

    /// A fault at the next field.
    pub fn fault(&self, reason: Reason) -> BodyFault
        ensures { result ≡ fault_at (length (body_under self.now))
            (length (drop (place_of self.now) (body_under self.now))) reason }
    {
        BodyFault {
            reason,
            inner: self.at as u64,
        }
    }

    /// A multiprecision integer, strict or not: [`Reason::Short`], [`Reason::MpiBits`].
    #[tactic(auto, unfolding(crate::specs::FieldReading::step_at, crate::specs::FieldReading::kind_at))]
    pub fn mpi(&mut self, strict: bool) -> Result<MpiSpan, BodyFault>
        ensures reads { ReadsField (mpi strict)
            (λ p. integer_in p (body_under self.old)) self.old self.new result }
        ensures body { body_under self.new ≡ body_under self.old }
        ensures stays { OnErr result (place_of self.new ≡ place_of self.old) }
        ensures within { IfOk result (λ p. IsMpiIn p (length (body_under self.old))) }
    {
        match MpiView::read(self.rest(), strict) {
            Ok((view, count)) => {
                let start = (self.at + 2) as u32;
                self.at += count;
                Ok(MpiSpan {
                    bits: view.bits(),
                    start,
                })
            }
            Err(reason) => Err(self.fault(reason)),
        }
    }

    /// A size octet and as many octets as it says: the reason if the size is below `least` or above
    /// `most`, else [`Reason::Short`].
    #[tactic(auto, unfolding(crate::specs::FieldReading::step_at, crate::specs::FieldReading::kind_at))]
    pub fn sized(&mut self, reason: Reason, least: u8, most: u8) -> Result<Span, BodyFault>
        ensures reads { ReadsField (sized reason least most)
            (λ p. named (octets_in p (body_under self.old))) self.old self.new result }
        ensures body { body_under self.new ≡ body_under self.old }
        ensures stays { OnErr result (place_of self.new ≡ place_of self.old) }
        ensures within { IfOk result (λ p. IsIn p (length (body_under self.old))) }
    {
        let [size, rest @ ..] = self.rest() else {
            return Err(self.fault(Reason::Short));
        };
        if *size < least || *size > most {
            return Err(self.fault(reason));
        }
        let size = usize::from(*size);
        if rest.len() < size {
            return Err(self.fault(Reason::Short));
        }
        let start = self.at + 1;
        let end = start + size;
        self.at = end;
        Ok(Span {
            start: start as u32,
            end: end as u32,
        })
    }

    /// The given number of octets: [`Reason::Short`].
    #[tactic(auto, unfolding(crate::specs::FieldReading::step_at, crate::specs::FieldReading::kind_at))]
    pub fn fixed(&mut self, size: usize) -> Result<Span, BodyFault>
        ensures reads { ReadsField (fixed size)
            (λ p. bare (octets_in p (body_under self.old))) self.old self.new result }
        ensures body { body_under self.new ≡ body_under self.old }
        ensures stays { OnErr result (place_of self.new ≡ place_of self.old) }
        ensures within { IfOk result (λ p. IsIn p (length (body_under self.old))) }
        ensures size { IfOk result (λ p. p.end ≡ p.start + size) }
    {
        if size > self.rest().len() {
            return Err(self.fault(Reason::Short));
        }
        let start = self.at;
        let end = start + size;
        self.at = end;
        Ok(Span {
            start: start as u32,
            end: end as u32,
        })
    }

    /// The given number of octets, as an array: [`Reason::Short`].
    #[tactic(auto, unfolding(crate::specs::FieldReading::step_at, crate::specs::FieldReading::kind_at))]
    pub fn array<const N: usize>(&mut self) -> Result<[u8; N], BodyFault>
        ensures reads { ReadsField (fixed N) (λ a. bare a) self.old self.new result }
        ensures body { body_under self.new ≡ body_under self.old }
        ensures stays { OnErr result (place_of self.new ≡ place_of self.old) }
    {
        let rest = self.rest();
        if N > rest.len() {
            return Err(self.fault(Reason::Short));
        }
        let mut octets = [0; N];
        octets.copy_from_slice(&rest[..N]);
        self.at += N;
        Ok(octets)
    }

    /// All octets that are left.
    #[tactic(auto, unfolding(crate::specs::FieldReading::step_at, crate::specs::FieldReading::kind_at))]
    pub fn whole(&mut self) -> Span
        ensures reads { step_at (length (body_under self.old)) whole
            (drop (place_of self.old) (body_under self.old))
            ≡ Ok (
              bare (octets_in result (body_under self.old)),
              drop (place_of self.new)
                  (body_under self.old),
            ) }
        ensures body { body_under self.new ≡ body_under self.old }
        ensures within { IsIn result (length (body_under self.old)) }
    {
        let start = self.at;
        let end = self.body.len();
        self.at = end;
        Span {
            start: start as u32,
            end: end as u32,
        }
    }

    /// The version of a key, 4 or 6: [`Reason::Short`], [`Reason::KeyVersion`], and
    /// [`Reason::KeyTooLong`] for a version 4 body of more than 65,535 octets (RFC 9580, 5.5.2,
    /// 5.5.4.2).
    #[tactic(auto, unfolding(crate::specs::FieldReading::step_at, crate::specs::FieldReading::kind_at))]
    pub fn version(&mut self) -> Result<u8, BodyFault>
        ensures reads { ReadsField version (λ n. small n) self.old self.new result }
        ensures body { body_under self.new ≡ body_under self.old }
        ensures stays { OnErr result (place_of self.new ≡ place_of self.old) }
        ensures moved { IfOk result (λ _. place_of self.new ≡ place_of self.old + 1) }
    {
        let [first, rest @ ..] = self.rest() else {
            return Err(self.fault(Reason::Short));
        };
        if *first != 4 && *first != 6 {
            return Err(self.fault(Reason::KeyVersion));
        }
        if *first == 4 && rest.len() > 65534 {
            return Err(self.fault(Reason::KeyTooLong));
        }
        self.at += 1;
        Ok(*first)
    }

    /// One octet: [`Reason::Short`].
    #[tactic(auto, unfolding(crate::specs::FieldReading::step_at, crate::specs::FieldReading::kind_at))]
    pub fn octet(&mut self) -> Result<u8, BodyFault>
        ensures reads { ReadsField octet (λ n. small n) self.old self.new result }
        ensures body { body_under self.new ≡ body_under self.old }
        ensures stays { OnErr result (place_of self.new ≡ place_of self.old) }
        ensures moved { IfOk result (λ _. place_of self.new ≡ place_of self.old + 1) }
    {
        let [value, ..] = self.rest() else {
            return Err(self.fault(Reason::Short));
        };
        self.at += 1;
        Ok(*value)
    }

    /// The given octet: [`Reason::Short`], and the reason if there is another one.
    #[tactic(auto, unfolding(crate::specs::FieldReading::step_at, crate::specs::FieldReading::kind_at))]
    pub fn exact(&mut self, reason: Reason, wanted: u8) -> Result<(), BodyFault>
        ensures reads { ReadsField (exact reason wanted)
            (λ _. small wanted) self.old self.new result }
        ensures body { body_under self.new ≡ body_under self.old }
        ensures stays { OnErr result (place_of self.new ≡ place_of self.old) }
        ensures moved { IfOk result (λ _. place_of self.new ≡ place_of self.old + 1) }
    {
        let [first, ..] = self.rest() else {
            return Err(self.fault(Reason::Short));
        };
        if *first != wanted {
            return Err(self.fault(reason));
        }
        self.at += 1;
        Ok(())
    }

    /// A number of four octets: [`Reason::Short`].
    #[tactic(auto, unfolding(crate::specs::FieldReading::step_at, crate::specs::FieldReading::kind_at))]
    pub fn four(&mut self) -> Result<u32, BodyFault>
        ensures reads { ReadsField four (λ n. wide n) self.old self.new result }
        ensures body { body_under self.new ≡ body_under self.old }
        ensures stays { OnErr result (place_of self.new ≡ place_of self.old) }
        ensures moved { IfOk result (λ _. place_of self.new ≡ place_of self.old + 4) }
    {
        let Some((value, _)) = u32_at(self.rest()) else {
            return Err(self.fault(Reason::Short));
        };
        self.at += 4;
        Ok(value)
    }

    /// A number of four octets, which is that of the octets after it: [`Reason::Short`],
    /// [`Reason::Count`].
    #[tactic(auto, unfolding(crate::specs::FieldReading::step_at, crate::specs::FieldReading::kind_at))]
    pub fn count(&mut self) -> Result<u32, BodyFault>
        ensures reads { ReadsField count (λ n. wide n) self.old self.new result }
        ensures body { body_under self.new ≡ body_under self.old }
        ensures stays { OnErr result (place_of self.new ≡ place_of self.old) }
        ensures moved { IfOk result (λ _. place_of self.new ≡ place_of self.old + 4) }
        ensures counts { IfOk result (λ n. n + place_of self.new ≡ length (body_under self.old)) }
    {
        let Some((number, left)) = u32_at(self.rest()) else {
            return Err(self.fault(Reason::Short));
        };
        if number as usize != left.len() {
            return Err(self.fault(Reason::Count));
        }
        self.at += 4;
        Ok(number)
    }

    /// The given number of octets, after a length field of this size: [`Reason::AreaShort`].
    fn behind(&self, size: usize, count: usize) -> Result<Span, BodyFault>
        requires { place_of self.now + size ≤ length (body_under self.now) }
        ensures reads { Reads
            (λ p. (octets_in p (body_under self.now), drop p.end (body_under self.now))) result
            (placed (length (body_under self.now))
            (length (drop (place_of self.now) (body_under self.now)))
            (area_as count (drop (place_of self.now + size) (body_under self.now)))) }
        ensures within { IfOk result (λ p. IsIn p (length (body_under self.now))) }
        ensures begins { IfOk result (λ p. p.start ≡ place_of self.now + size) }
    {
        let start = self.at + size;
        if self.body.len() - start < count {
            return Err(self.fault(Reason::AreaShort));
        }
        let end = start + count;
        Ok(Span {
            start: start as u32,
            end: end as u32,
        })
    }

    /// The octets of an area after its length field: [`Reason::Short`], [`Reason::AreaShort`].
    #[tactic(auto, unfolding(crate::specs::FieldReading::extent_at))]
    fn extent(&self, width: AreaLength) -> Result<Span, BodyFault>
        ensures reads { Reads
            (λ p. (octets_in p (body_under self.now), drop p.end (body_under self.now))) result
            (placed (length (body_under self.now))
            (length (drop (place_of self.now) (body_under self.now)))
            (extent_at (extent_of width) (drop (place_of self.now) (body_under self.now)))) }
        ensures within { IfOk result (λ p. IsIn p (length (body_under self.now))) }
        ensures begins { IfOk result (λ p. p.start ≡ place_of self.now + width_of width) }
    {
        let rest = self.rest();
        match width {
            AreaLength::Two => match u16_at(rest) {
                Some((count, _)) => self.behind(2, count as usize),
                None => Err(self.fault(Reason::Short)),
            },
            AreaLength::Four => match u32_at(rest) {
                Some((count, _)) => self.behind(4, count as usize),
                None => Err(self.fault(Reason::Short)),
            },
        }
    }

    /// An area of subpackets after its length field: [`Reason::Short`], [`Reason::AreaShort`], and
    /// [`Reason::SubEmpty`] and [`Reason::SubShort`] at one of its subpackets (RFC 9580, 5.2.3.7).
    #[inline(always)]
    pub fn area(&mut self, width: AreaLength) -> Result<Span, BodyFault>
        ensures reads { Reads
            (λ p. (
              subpackets (extent_of width) (subs_in (octets_in p (body_under self.old))),
              drop (place_of self.new) (body_under self.old),
            )) result
            (area_step_at (length (body_under self.old)) (extent_of width)
            (drop (place_of self.old) (body_under self.old))) }
        ensures body { body_under self.new ≡ body_under self.old }
        ensures stays { OnErr result (place_of self.new ≡ place_of self.old) }
        ensures within { IfOk result (λ p. IsIn p (length (body_under self.old))) }
        // The octets are between the length field and what is left.
        ensures ends { IfOk result (λ p. p.end ≡ place_of self.new) }
        ensures begins { IfOk result (λ p. p.start ≡ place_of self.old + width_of width) }
        // A walk over it meets no fault.
        ensures sound { IfOk result (λ p. let area = octets_in p (body_under self.old) in
            fault_in (length area) area ≡ None) }
    {
        match self.extent(width) {
            Ok(place) => match fault_in_area(place.lend(self.body), place.end as usize) {
                Some(fault) => Err(fault),
                None => {
                    self.at = place.end as usize;
                    Ok(place)
                }
            },
            Err(fault) => Err(fault),
        }
    }

    /// The end of the body: [`Reason::Trailing`] if octets are left.
    pub fn end(self) -> Result<(), BodyFault>
        ensures { (fields : List Field) → Reads (λ _. fields) result
            (ended (length (body_under self.entry))
            (fields, drop (place_of self.entry) (body_under self.entry))) }
    {
        if self.at == self.body.len() {
            Ok(())
        } else {
            Err(self.fault(Reason::Trailing))
        }
    }
}
