//! Memory that lines use in turn.

ghost use Rattle.std.specs.Prelude.{◌≡◌, []};

use std::alloc::Global;

/// Memory that lines use in turn: for octets, and for the letters left over joined with a line's.
///
/// The octets are those of a vector that was given back; they mean nothing, and aren't cleared, so
/// that the next line writes each of its octets once. No letters stay.
#[derive(Drop)]
pub(crate) struct Spare {
    pub(crate) octets: Vec<u8>,
    pub(crate) letters: Vec<u8>,
    ghost empty: { letters.items ≡ [] },
}

impl Spare {
    /// No memory. Allocates nothing.
    pub(crate) fn new(alloc: Global) -> Spare
        ensures octets { result.octets.items ≡ [] }
        ensures letters { result.letters.items ≡ [] }
    {
        Spare {
            octets: Vec::new(alloc),
            letters: Vec::new(alloc),
        }
    }
}
