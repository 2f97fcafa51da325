//! The subpackets of an area of a signature.

ghost use Rattle.std.specs.Prelude.{◌≡◌, ◌≤◌, length, None};
ghost use Rattle.opgp_packet.specs.AreaReading.{fault_in};

use crate::Walk;
use crate::sub_view::SubView;

/// The subpackets of an area, one after the other. Allocates nothing.
#[derive(Clone, Copy)]
pub struct Subs<'a> {
    walk: Walk<'a>,
}

impl<'a> Subs<'a> {
    ghost use Rattle.opgp_packet.specs.Subs.{subs_to_come};
    ghost use Rattle.opgp_packet.specs.AreaReading.{subs_in};

    /// The subpackets of this area.
    pub(crate) fn new(area: &'a [u8]) -> Subs<'a>
        requires { fault_in (length area.now) area.now ≡ None }
        ensures subs { subs_to_come result ≡ subs_in area.now }
        ensures few { length (subs_to_come result) ≤ length area.now }
    {
        Subs {
            walk: Walk::new(area),
        }
    }
}

impl<'a> Iterator for Subs<'a> {
    ghost use Rattle.opgp_packet.specs.Subs.{subs_to_come};
    ghost use Rattle.opgp_packet.specs.SubView.{sub_shown};
    ghost use Rattle.std.specs.Iterator.{YieldsFirstBy, item_count};

    type Item = SubView<'a>;

    ghost next_gives = { YieldsFirstBy sub_shown subs_to_come };

    ghost remaining = { item_count subs_to_come };

    fn next(&mut self) -> Option<SubView<'a>> {
        Some(SubView {
            sub: self.walk.next()?,
        })
    }
}
