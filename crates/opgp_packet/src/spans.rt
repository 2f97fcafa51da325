//! Where the fields of a body lie in it.
//!
//! A value that owns its body can't borrow from it, so it keeps the places of its fields instead. A
//! body has at most 4,294,967,295 octets, so an offset takes four.

ghost use Rattle.std.specs.Prelude.{◌≡◌, length};

use opgp_octets::MpiView;

/// Where octets lie in a body.
#[derive(Clone, Copy)]
pub struct Span {
    /// The offset of the first.
    pub start: u32,
    /// The offset after the last.
    pub end: u32,
}

/// Where the octets of a multiprecision integer's value begin, and the count of bits that it
/// states, which says how many octets they are (RFC 9580, 3.2).
#[derive(Clone, Copy)]
pub struct MpiSpan {
    /// Its count of bits.
    pub bits: u16,
    /// The offset of the first octet of its value.
    pub start: u32,
}

impl Span {
    ghost use Rattle.opgp_packet.specs.Spans.{octets_in, IsIn};

    /// The octets at this place of the body.
    pub fn lend(self, body: &[u8]) -> &[u8]
        requires { IsIn self (length body.now) }
        ensures { result.now ≡ octets_in self body.now }
    {
        &body[self.start as usize..self.end as usize]
    }
}

impl MpiSpan {
    ghost use Rattle.opgp_packet.specs.Spans.{mpi_in, IsMpiIn};
    ghost use Rattle.opgp_octets.specs.MpiView.{mpi_seen};

    /// The multiprecision integer at this place of the body.
    pub fn lend(self, body: &[u8]) -> MpiView<'_>
        requires { IsMpiIn self (length body.now) }
        ensures { mpi_seen result ≡ mpi_in self body.now }
    {
        let start = self.start as usize;
        let count = (usize::from(self.bits) + 7) / 8;
        MpiView::from_parts(self.bits, &body[start..start + count])
    }
}
