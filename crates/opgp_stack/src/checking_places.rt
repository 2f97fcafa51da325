//! The report of a keyring with the places of its rows, made as its parts come.

ghost use Rattle.std.specs.Prelude.{◌≡◌, ◌++◌, ◌∷◌, [], List, OnOk};
ghost use Rattle.opgp_keyring.specs.Composed.{PartValue, parts_of};
ghost use Rattle.opgp_keyring.specs.Keyring.{KeyringValue};
ghost use Rattle.opgp_keyring.specs.State.{part_of};
ghost use Rattle.opgp_report.specs.Reporting.{Reports};
ghost use Rattle.opgp_stack.specs.OnePart.{certificates_in};
ghost use Rattle.opgp_state.specs.Places.{places_of};
ghost use Rattle.opgp_state.specs.Placing.{HasPlaces};
ghost use Rattle.opgp_state.specs.Report.{HasReport};

use crate::checking::Checking;
use opgp_keyring::Ready;
use opgp_octets::OutOfMemory;
use opgp_report::Report;
use opgp_state::{Placing, RowPlace};
use std::alloc::Global;
use std::mem;

/// The rows of the certificates that came so far, and their places. No certificate is kept.
#[derive(Drop)]
pub(crate) struct CheckingPlaces {
    alloc: Global,
    checking: Checking,
    places: Placing,
}

impl CheckingPlaces {
    /// No rows yet. Allocates nothing.
    pub(crate) fn new(alloc: Global) -> CheckingPlaces
        ensures rows { Reports result.checking.rows [] }
        ensures places { HasPlaces result.places [] }
    {
        CheckingPlaces {
            alloc,
            checking: Checking::new(alloc),
            places: Placing::new(alloc),
        }
    }

    /// Adds the rows of the next part, if it is a certificate, and gives it back, so that the next
    /// one may use its memory. Fails only when out of memory; nothing is known of the rows then.
    pub(crate) fn keep(&mut self, part: Ready) -> Result<Option<Ready>, OutOfMemory>
        ensures rows { OnOk result ((parts : List PartValue)
            → Reports self.old.checking.rows (certificates_in parts)
            → Reports self.new.checking.rows (certificates_in (parts ++ part_of part ∷ []))) }
        ensures places { OnOk result ((parts : List PartValue) → HasPlaces self.old.places parts
            → HasPlaces self.new.places (parts ++ part_of part ∷ [])) }
    {
        let places = mem::replace(&mut self.places, Placing::new(self.alloc));
        let places = places.with(&part);
        drop(mem::replace(&mut self.places, places?));
        self.checking.keep(part)
    }

    /// The report of the keyring that has the parts that came, and the places of its rows.
    pub(crate) fn report(self) -> (Report, Vec<RowPlace>)
        ensures rows { (r : KeyringValue) → Reports self.checking.rows r.certificates
            → HasReport r result.0 }
        ensures places { (r : KeyringValue) → HasPlaces self.places (parts_of r)
            → result.1.items ≡ places_of r }
    {
        (self.checking.report(), self.places.places())
    }
}
