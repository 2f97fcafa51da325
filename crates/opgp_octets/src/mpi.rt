//! Multiprecision integers that own their octets (RFC 9580, 3.2).

ghost use Rattle.std.specs.Prelude.{◌≡◌, ◌++◌, List, ℕ, length, IfOk, IfErr, IsOk, Err};
ghost use Rattle.opgp_octets.specs.Mpi.{MpiValue, MpiBegins, mpi_octets, IsMpi, MayStand};
ghost use Rattle.opgp_octets.specs.Mpi.{octets_of};
ghost use Rattle.opgp_octets.specs.Octets.{IsOctets};

use crate::fault::Reason;
use crate::mpi_view::MpiView;
use crate::refusal::{MpiFault, OutOfMemory};
use std::alloc::Global;

/// A multiprecision integer.
#[derive(Debug, Drop)]
pub struct Mpi {
    bits: u16,
    octets: Vec<u8>,
    ghost whole: { length octets.items ≡ octets_of bits },
    ghost each: { IsOctets octets.items },
}

impl Mpi {
    ghost use Rattle.opgp_octets.specs.MpiOwned.{mpi_owned, MpiFaultOf};

    /// The count of bits that it states.
    pub fn bits(&self) -> u16
        ensures { result ≡ (mpi_owned self.now).bits }
    {
        self.bits
    }

    /// The octets of its value, the most significant first.
    pub fn octets(&self) -> &[u8]
        ensures value { result.now ≡ (mpi_owned self.now).octets }
        ensures mpi { IsMpi (mpi_owned self.now) }
    {
        // Read, so that the type's invariant is known.
        let _bits = self.bits;
        self.octets.as_slice()
    }

    /// The integer that begins the octets, and how many octets it takes.
    ///
    /// With `strict` its count of bits must be that of its most significant bit. The errors are
    /// [`MpiFault::Short`], with `strict` [`MpiFault::MpiBits`], and running out of memory.
    pub fn read(alloc: Global, o: &[u8], strict: bool) -> Result<(Mpi, usize), MpiFault>
        // What is read is an allowed integer, whose encoding begins the octets.
        ensures found { IfOk result (λ x. MpiBegins strict o.now (mpi_owned x.0) x.1) }
        // An allowed integer whose encoding begins the octets is read, unless memory runs out.
        ensures only { (m : MpiValue) (rest : List ℕ) → IsMpi m → MayStand strict m
            → o.now ≡ mpi_octets m ++ rest
            → IfErr result (λ e. e ≡ MpiFault.Memory) }
        ensures refused { IfErr result (λ e. MpiFaultOf strict o.now e) }
    {
        match MpiView::read(o, strict) {
            Ok((view, count)) => {
                let bits = view.bits();
                match Vec::from_slice(alloc, view.octets()) {
                    Ok(octets) => Ok((Mpi { bits, octets }, count)),
                    Err(_) => Err(MpiFault::Memory),
                }
            }
            Err(Reason::MpiBits) => Err(MpiFault::MpiBits),
            Err(_) => Err(MpiFault::Short),
        }
    }

    /// A copy of this integer.
    ///
    /// Fails only when out of memory.
    pub fn copy(&self, alloc: Global) -> Result<Mpi, OutOfMemory>
        ensures { IfOk result (λ m. mpi_owned m ≡ mpi_owned self.now) }
    {
        Ok(Mpi {
            bits: self.bits,
            octets: Vec::from_slice(alloc, &self.octets)?,
        })
    }
}
