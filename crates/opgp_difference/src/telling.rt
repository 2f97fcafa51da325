//! Which packets of a keyring aren't in another.

ghost use Rattle.std.specs.Prelude.{◌≡◌, map, IfOk};
ghost use Rattle.opgp_difference.specs.Difference.{told};
ghost use Rattle.opgp_difference.specs.Entries.{standing_in};
ghost use Rattle.opgp_difference.specs.Telling.{HasTold};
ghost use Rattle.opgp_difference.specs.Tree.{HasEntries, node_of};

use crate::growing::tree_of;
use crate::place::{PacketPlace, PlacedPacket};
use crate::tree::{Tree, find};
use crate::visiting::{Visitor, visit};
use opgp_keyring::{Keyring, Member};
use opgp_octets::OutOfMemory;
use std::alloc::Global;
use std::collections::BTreeSet;

/// Packets that aren't in a tree, though what they hang on is.
#[derive(Drop)]
pub(crate) struct Telling<'a> {
    tree: Tree<'a>,
    // For each of them the number of what it hangs on, its type and its body.
    told: BTreeSet<(usize, u8, &'a [u8])>,
    packets: Vec<PlacedPacket<'a>>,
}

impl<'a> Visitor<'a> for Telling<'a> {
    type Node = Option<usize>;

    ghost has = { λ t met. HasTold t.tree t.told t.packets.items met };

    ghost knows = { λ t e node. node_of t.tree e ≡ node };

    fn meet(
        &mut self,
        above: Option<usize>,
        packet: Member<'a>,
        place: PacketPlace,
    ) -> Result<Option<usize>, OutOfMemory> {
        let Some(above) = above else {
            return Ok(None);
        };
        let kind = packet.kind();
        let body = packet.body();
        if let Some(node) = find(&self.tree, above, kind, body) {
            return Ok(Some(node));
        }
        if self.told.insert((above, kind, body))? {
            self.packets.push(PlacedPacket::new(place, packet))?;
        }
        Ok(None)
    }
}

/// The packets that `new` has and `old` hasn't, in the order of `new`. Fails only
/// when out of memory.
pub(crate) fn tell<'a>(
    alloc: Global,
    old: &'a Keyring,
    new: &'a Keyring,
) -> Result<Vec<PlacedPacket<'a>>, OutOfMemory>
    ensures { IfOk result (λ v. v.items ≡ map (λ s. s.placed) (told old.now new.now)) }
{
    let mut telling = Telling {
        tree: tree_of(alloc, old)?,
        told: BTreeSet::new(alloc),
        packets: Vec::new(alloc),
    };
    visit(&mut telling, Some(0), new)?;
    Ok(telling.packets)
}
