//! The first octets of an input.

ghost use Rattle.std.specs.Prelude.{◌≡◌, ◌++◌, ℕ, List, []};
ghost use Rattle.opgp_tool.specs.Beginning.{IsBeginning};

use std::alloc::Global;

/// How many octets are kept at most.
const MOST: usize = 65_536;

/// The first octets of an input that comes in pieces. No memory for more of them ends what is kept.
#[derive(Drop)]
pub struct Beginning {
    octets: Vec<u8>,
    goes_on: bool,
}

impl Beginning {
    /// That of an input of which nothing has come. Allocates nothing.
    pub fn new(alloc: Global) -> Beginning
        ensures { IsBeginning result [] }
    {
        Beginning {
            octets: Vec::new(alloc),
            goes_on: true,
        }
    }

    /// The octets that are kept.
    pub fn octets(&self) -> &[u8]
        ensures { (input : List ℕ) → IsBeginning self.now input
            → (rest : List ℕ) × (input ≡ result.now ++ rest) }
    {
        self.octets.as_slice()
    }

    /// Keeps what is among the first octets of another piece of the input.
    pub fn add(&mut self, piece: &[u8])
        ensures { (input : List ℕ) → IsBeginning self.old input
            → IsBeginning self.new (input ++ piece.now) }
    {
        if !self.goes_on {
            return;
        }
        let room = MOST.saturating_sub(self.octets.len());
        let count = room.min(piece.len());
        match self.octets.extend_from_slice(&piece[..count]) {
            Ok(()) => {}
            Err(_) => self.goes_on = false,
        }
    }
}
