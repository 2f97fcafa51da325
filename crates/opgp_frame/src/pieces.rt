//! The pieces of a body under partial lengths (RFC 9580, 4.2.1.4).

ghost use Rattle.std.specs.Prelude.{◌≡◌, ◌↔◌, ◌≤◌, ◌-◌, IsSome, IfSome, IfOk, IsTrue, All};
ghost use Rattle.std.specs.Option.{SomeIff};
ghost use Rattle.opgp_frame.specs.PiecesValue.{ArePieces, pieces_sum};

use opgp_octets::OutOfMemory;
use std::alloc::Global;
use std::marker::Model;

/// The form of the length that ends a chain of pieces (RFC 9580, 4.2.1).
#[derive(Clone, Copy, PartialEq, Eq)]
pub enum LastForm {
    /// One octet: 0 to 191.
    One,
    /// Two octets: 192 to 8383.
    Two,
    /// The octet 255 and four more: any length.
    Five,
}

/// How a body is cut into pieces (RFC 9580, 4.2.1.4): the piece of each partial length has 2 to the
/// power of its exponent octets, and the last length covers the rest.
#[derive(Drop)]
pub struct Pieces {
    exponents: Vec<u8>,
    last: LastForm,
}

impl Model for Pieces {
    ghost use Rattle.opgp_frame.specs.PiecesValue.{PiecesValue, ArePieces};

    ghost Value = { PiecesValue };

    ghost view = { λ p. record { exponents = p.exponents.items; last = p.last } };

    ghost invariant = { λ p. ArePieces p.exponents.items };
}

impl Pieces {
    /// These pieces, or None unless there is an exponent, the first one is at least 9 (a first
    /// piece has at least 512 octets) and each is at most 30.
    ///
    /// Allocates nothing.
    pub fn new(exponents: Vec<u8>, last: LastForm) -> Option<Pieces>
        ensures some { IsSome result ↔ ArePieces exponents.items }
        ensures value { IfSome result
            (λ p. p ≡ record { exponents = exponents.items; last = last }) }
    {
        if are_pieces(&exponents) {
            Some(Pieces { exponents, last })
        } else {
            None
        }
    }

    /// The exponents of the pieces under partial lengths.
    pub fn exponents(&self) -> &[u8]
        ensures value { result.now ≡ self.now.exponents }
        ensures pieces { ArePieces result.now }
    {
        self.exponents.as_slice()
    }

    /// The form of the last length.
    pub fn last(&self) -> LastForm
        ensures { result ≡ self.now.last }
    {
        self.last
    }

    /// Equal pieces.
    ///
    /// Fails only when out of memory.
    pub fn copy(&self, alloc: Global) -> Result<Pieces, OutOfMemory>
        ensures { IfOk result (λ p. p ≡ self.now) }
    {
        let exponents = Vec::from_slice(alloc, &self.exponents)?;
        Ok(Pieces {
            exponents,
            last: self.last,
        })
    }
}

/// Whether a chain of pieces may have these exponents.
fn are_pieces(exponents: &[u8]) -> bool
    ensures { IsTrue result ↔ ArePieces exponents.now }
{
    match exponents {
        [] => false,
        [first, ..] => *first >= 9 && exponents.iter().all(|k| *k <= 30),
    }
}

/// How many octets of `n` are left after the pieces, or None where the pieces have more.
pub(crate) fn left_behind(exponents: &[u8], n: u64) -> Option<u64>
    requires { All (λ k. k ≤ 30) exponents.now }
    ensures { SomeIff result (pieces_sum exponents.now ≤ n) (n - pieces_sum exponents.now) }
{
    let mut left = n;
    for exponent in exponents {
        let piece = 1u64 << *exponent;
        if left < piece {
            return None;
        }
        left -= piece;
    }
    Some(left)
}
