//! Where a packet lies that was found.

ghost use Rattle.std.specs.Prelude.{◌≡◌, ℕ, List};
ghost use Rattle.opgp_frame.specs.declared.packet.Placed.{Placed};

use crate::form::Form;
use crate::view::{PacketView, PlacedView};

/// Where a packet of one piece lies in octets (RFC 9580, 4.2), and its place in the input: what is
/// kept of a packet that was found, so that it can be lent.
#[derive(Drop)]
pub struct Spot {
    pub(crate) form: Form,
    pub(crate) kind: u8,
    pub(crate) from: usize,
    pub(crate) until: usize,
    pub(crate) block: u64,
    pub(crate) pos: u64,
}

impl Spot {
    ghost use Rattle.opgp_frame.specs.View.{viewed};
    ghost use Rattle.opgp_frame.specs.Spot.{LiesIn};

    /// The packet. The condition is that it lies there in these octets. Allocates nothing.
    #[inline(always)]
    pub fn lend<'a>(&'a self, octets: &'a [u8]) -> PlacedView<'a>
        requires { (p : Placed) × LiesIn self.now octets.now p }
        ensures { (p : Placed) → LiesIn self.now octets.now p → viewed result ≡ p }
    {
        let packet = PacketView {
            form: &self.form,
            kind: self.kind,
            body: &octets[self.from..self.until],
        };
        PlacedView {
            packet,
            block: self.block,
            pos: self.pos,
        }
    }
}
