//! The tree of a keyring's packets.

ghost use Rattle.std.specs.Prelude.{◌≡◌, IfOk, Some};
ghost use Rattle.opgp_difference.specs.Entries.{standing_in};
ghost use Rattle.opgp_difference.specs.Tree.{HasEntries, node_of};

use crate::place::PacketPlace;
use crate::tree::{Tree, note};
use crate::visiting::{Visitor, visit};
use opgp_keyring::{Keyring, Member};
use opgp_octets::OutOfMemory;
use std::alloc::Global;
use std::collections::BTreeMap;

/// A tree that each packet is noted in.
#[derive(Drop)]
struct Growing<'a> {
    tree: Tree<'a>,
}

impl<'a> Visitor<'a> for Growing<'a> {
    type Node = usize;

    ghost has = { λ g met. HasEntries g.tree met };

    ghost knows = { λ g e node. node_of g.tree e ≡ Some node };

    fn meet(
        &mut self,
        above: usize,
        packet: Member<'a>,
        place: PacketPlace,
    ) -> Result<usize, OutOfMemory> {
        // Where a packet lies plays no part.
        let _place = place;
        note(&mut self.tree, above, packet.kind(), packet.body())
    }
}

/// The tree of the packets of a keyring's certificates. Fails only when out of memory.
pub(crate) fn tree_of(alloc: Global, keyring: &Keyring) -> Result<Tree<'_>, OutOfMemory>
    ensures { IfOk result (λ t. HasEntries t (standing_in keyring.now)) }
{
    let mut growing = Growing {
        tree: BTreeMap::new(alloc),
    };
    visit(&mut growing, 0, keyring)?;
    Ok(growing.tree)
}
