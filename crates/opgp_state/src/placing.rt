//! The places of the rows of a keyring's report, found as its parts come.

ghost use Rattle.std.specs.Prelude.{◌≡◌, ◌++◌, ◌∷◌, [], List, IfOk};
ghost use Rattle.opgp_keyring.specs.Composed.{PartValue, of_certificate, parts_of};
ghost use Rattle.opgp_keyring.specs.Keyring.{KeyringValue};
ghost use Rattle.opgp_keyring.specs.State.{part_of};
ghost use Rattle.opgp_state.specs.Places.{places_of};
ghost use Rattle.opgp_state.specs.Placing.{HasPlaces};

use crate::place_maker::{PlaceMaker, packets_behind};
use crate::row_place::RowPlace;
use opgp_keyring::{Certificate, Ready};
use opgp_octets::OutOfMemory;
use opgp_report::visit_certificate;
use std::alloc::Global;

/// The places of the rows of the parts of a keyring that came so far. No part is kept: it keeps 24
/// octets for a row, and up to twice that while these grow.
#[derive(Drop)]
pub struct Placing {
    alloc: Global,
    // How many packets came.
    pub(crate) packets: usize,
    pub(crate) places: Vec<RowPlace>,
}

impl Placing {
    /// No part came yet. Allocates nothing; additions do, from `alloc`.
    pub fn new(alloc: Global) -> Placing
        ensures { HasPlaces result [] }
    {
        Placing {
            alloc,
            packets: 0,
            places: Vec::new(alloc),
        }
    }

    /// With the next part of the keyring: the fillers before the first certificate, or a
    /// certificate. Nothing is hashed.
    ///
    /// Fails only when out of memory, or if there are more packets than `usize` counts.
    pub fn with(self, part: &Ready) -> Result<Placing, OutOfMemory>
        ensures { IfOk result (λ p. (parts : List PartValue) → HasPlaces self parts
            → HasPlaces p (parts ++ part_of part.now ∷ [])) }
    {
        match part {
            Ready::Lead(lead) => {
                let Placing {
                    alloc,
                    packets,
                    places,
                } = self;
                let packets = packets_behind(packets, lead.packets())?;
                Ok(Placing {
                    alloc,
                    packets,
                    places,
                })
            }
            Ready::Certificate(certificate) => self.with_certificate(certificate),
        }
    }

    /// With the next certificate of the keyring.
    fn with_certificate(self, certificate: &Certificate) -> Result<Placing, OutOfMemory>
        ensures { IfOk result (λ p. (parts : List PartValue) → HasPlaces self parts
            → HasPlaces p (parts ++ of_certificate certificate.now ∷ [])) }
    {
        let Placing {
            alloc,
            packets,
            places,
        } = self;
        let behind = packets_behind(packets, certificate.packets())?;
        let mut maker = PlaceMaker::new(alloc, packets, certificate, places)?;
        visit_certificate(&mut maker, 0, certificate)?;
        let PlaceMaker { places, .. } = maker;
        Ok(Placing {
            alloc,
            packets: behind,
            places,
        })
    }

    /// The places of the rows of the keyring that has these parts, in the order of its report.
    pub fn places(self) -> Vec<RowPlace>
        ensures { (r : KeyringValue) → HasPlaces self (parts_of r) → result.items ≡ places_of r }
    {
        self.places
    }
}
