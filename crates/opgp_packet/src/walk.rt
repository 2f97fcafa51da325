//! The walk over an area of subpackets.

ghost use Rattle.std.specs.Prelude.{◌≡◌, ◌<◌, ◌≤◌, length, None};
ghost use Rattle.std.proofs.Props.{props};
ghost use Rattle.opgp_packet.specs.AreaReading.{fault_in};

use crate::subpacket::Subpacket;
use opgp_octets::BodyFault;

/// The first fault of an area that ends at this offset of its body, if it has one. Allocates
/// nothing.
pub fn fault_in_area(area: &[u8], end: usize) -> Option<BodyFault>
    requires { length area.now ≤ end }
    ensures { result ≡ fault_in end area.now }
{
    let mut rest = area;
    while !rest.is_empty() {
        match Subpacket::read(rest) {
            Ok((_, after)) => rest = after,
            Err(reason) => {
                return Some(BodyFault {
                    reason,
                    inner: (end - rest.len()) as u64,
                });
            }
        }
    }
    None
}

/// The subpackets of an area without a fault, one after the other. Allocates nothing.
#[derive(Clone, Copy)]
pub struct Walk<'a> {
    rest: &'a [u8],
    ghost whole: { fault_in (length rest.now) rest.now ≡ None } by { Prim.hlevel props },
}

impl<'a> Walk<'a> {
    ghost use Rattle.opgp_packet.specs.Walk.{subs_left};
    ghost use Rattle.opgp_packet.specs.AreaReading.{subs_in};

    /// The subpackets of this area.
    pub fn new(area: &'a [u8]) -> Walk<'a>
        requires { fault_in (length area.now) area.now ≡ None }
        ensures subs { subs_left result ≡ subs_in area.now }
        ensures few { length (subs_left result) ≤ length area.now }
    {
        Walk { rest: area }
    }
}

impl<'a> Iterator for Walk<'a> {
    ghost use Rattle.opgp_packet.specs.Walk.{subs_left};
    ghost use Rattle.opgp_packet.specs.Subpacket.{sub_seen};
    ghost use Rattle.std.specs.Iterator.{YieldsFirstBy, item_count};

    type Item = Subpacket<'a>;

    ghost next_gives = { YieldsFirstBy sub_seen subs_left };

    ghost remaining = { item_count subs_left };

    fn next(&mut self) -> Option<Subpacket<'a>> {
        if self.rest.is_empty() {
            return None;
        }
        match Subpacket::read(self.rest) {
            Ok((sub, rest)) => {
                self.rest = rest;
                Some(sub)
            }
            Err(_) => unreachable!(),
        }
    }
}
