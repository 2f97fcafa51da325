//! The octets that don't fill a row of armor yet.

ghost use Rattle.std.specs.Prelude.{◌≡◌, ◌-◌, ◌≤◌, ◌++◌, [], length, min, take};

use std::marker::Model;

/// How many octets a row has, whose letters are a full data line (RFC 9580, 6.2).
pub(crate) const ROW: usize = 48;

/// At most 48 octets.
#[derive(Drop)]
pub(crate) struct Row {
    octets: [u8; 48],
    filled: usize,
}

impl Model for Row {
    ghost use Rattle.std.specs.Prelude.{ℕ, ◌≤◌, List, take};

    ghost Value = { List ℕ };

    ghost view = { λ r. take r.filled r.octets };

    ghost invariant = { λ r. r.filled ≤ 48 };
}

impl Row {
    /// No octets.
    pub(crate) fn new() -> Self
        ensures { result ≡ [] }
    {
        Row {
            octets: [0; 48],
            filled: 0,
        }
    }

    /// The octets.
    pub(crate) fn octets(&self) -> &[u8]
        ensures value { result.now ≡ self.now }
        ensures short { length self.now ≤ 48 }
    {
        &self.octets[..self.filled]
    }

    /// Adds as many octets as fit, and returns how many.
    pub(crate) fn fill(&mut self, octets: &[u8]) -> usize
        ensures count { result ≡ min (48 - length self.old) (length octets.now) }
        ensures value { self.new ≡ self.old ++ take result octets.now }
    {
        let start = self.filled;
        let n = (ROW - start).min(octets.len());
        let place = &mut self.octets[start..start + n];
        place.copy_from_slice(&octets[..n]);
        self.filled = start + n;
        n
    }

    /// Empties the row.
    pub(crate) fn clear(&mut self)
        ensures { self.new ≡ [] }
    {
        self.filled = 0;
    }
}
