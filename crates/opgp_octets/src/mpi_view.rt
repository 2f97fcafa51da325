//! Multiprecision integers over the octets that they were read from (RFC 9580, 3.2).

ghost use Rattle.std.specs.Prelude.{◌≡◌, ◌&&◌, not, ◌⊎◌, ◌++◌, ◌<◌, ◌≤◌, ◌^◌, ◌↔◌, List, ℕ, length};
ghost use Rattle.std.specs.Prelude.{take, drop, IsTrue, IfOk, IfErr, IsOk, MatchResult, option_map};
ghost use Rattle.opgp_octets.specs.Mpi.{MpiValue, MpiBegins, MpiRefused, mpi_octets, IsMpi};
ghost use Rattle.opgp_octets.specs.Mpi.{is_strict, MayStand, mpi_at, octets_of};
ghost use Rattle.opgp_octets.specs.Octets.{IsOctets};
ghost use Rattle.opgp_octets.specs.Reading.{Reads};

use crate::fault::Reason;
use crate::number::u16_at;

/// A multiprecision integer that borrows the octets of its value.
#[derive(Clone, Copy, Debug)]
pub struct MpiView<'a> {
    bits: u16,
    octets: &'a [u8],
    ghost whole: { length octets.now ≡ octets_of bits },
    ghost each: { IsOctets octets.now },
}

impl<'a> MpiView<'a> {
    ghost use Rattle.opgp_octets.specs.MpiView.{mpi_seen};

    /// The integer of these octets, which must be as many as its bits take.
    pub fn from_parts(bits: u16, octets: &'a [u8]) -> MpiView<'a>
        requires { length octets.now ≡ octets_of bits }
        ensures { mpi_seen result ≡ record { bits = bits; octets = octets.now } }
    {
        MpiView { bits, octets }
    }

    /// The count of bits that it states.
    pub fn bits(&self) -> u16
        ensures { result ≡ (mpi_seen self.now).bits }
    {
        self.bits
    }

    /// The octets of its value, the most significant first.
    pub fn octets(&self) -> &'a [u8]
        ensures value { result.now ≡ (mpi_seen self.now).octets }
        ensures mpi { IsMpi (mpi_seen self.now) }
    {
        // Read, so that the type's invariant is known.
        let _bits = self.bits;
        self.octets
    }

    /// Whether its count of bits is that of the most significant bit that is set.
    pub fn is_strict(&self) -> bool
        ensures { result ≡ is_strict (mpi_seen self.now) }
    {
        self.bits == 0 || self.octets[0] >> ((self.bits - 1) % 8) == 1
    }

    /// Whether strictness is required but the count is off.
    fn breaks(&self, strict: bool) -> bool
        ensures { result ≡ (strict && not (is_strict (mpi_seen self.now))) }
    {
        strict && !self.is_strict()
    }

    /// The integer that begins the octets, and how many octets it takes.
    ///
    /// With `strict` its count of bits must be that of its most significant bit. The errors are
    /// [`Reason::Short`] and, with `strict`, [`Reason::MpiBits`]. Allocates nothing.
    pub fn read(o: &'a [u8], strict: bool) -> Result<(MpiView<'a>, usize), Reason>
        // What is read is an allowed integer, whose encoding begins the octets.
        ensures found { IfOk result (λ x. MpiBegins strict o.now (mpi_seen x.0) x.1) }
        // An allowed integer whose encoding begins the octets is read.
        ensures only { (m : MpiValue) (rest : List ℕ) → IsMpi m → MayStand strict m
            → o.now ≡ mpi_octets m ++ rest → IsOk result }
        ensures refused { IfErr result (λ e. MpiRefused strict o.now e) }
        ensures kinds { IfErr result (λ e. (e ≡ Reason.Short) ⊎ (e ≡ Reason.MpiBits)) }
        ensures exact { Reads (λ x. (mpi_seen x.0, drop x.1 o.now)) result (mpi_at strict o.now) }
    {
        MpiView::read_view(o, strict)
    }

    #[tactic(auto, unfolding(crate::specs::Mpi::mpi_at))]
    fn read_view(o: &'a [u8], strict: bool) -> Result<(MpiView<'a>, usize), Reason>
        ensures exact { Reads (λ x. (mpi_seen x.0, drop x.1 o.now)) result (mpi_at strict o.now) }
        ensures within { IfOk result (λ x. x.1 ≤ length o.now) }
        ensures kinds { IfErr result (λ e. (e ≡ Reason.Short) ⊎ (e ≡ Reason.MpiBits)) }
    {
        let Some((bits, rest)) = u16_at(o) else {
            return Err(Reason::Short);
        };
        let count = (usize::from(bits) + 7) / 8;
        if rest.len() < count {
            return Err(Reason::Short);
        }
        let (octets, _) = rest.split_at(count);
        let view = MpiView { bits, octets };
        if view.breaks(strict) {
            Err(Reason::MpiBits)
        } else {
            Ok((view, 2 + count))
        }
    }
}
