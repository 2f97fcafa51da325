//! A tree of packets: each hangs on another, or on the keyring itself.

ghost use Rattle.std.specs.Prelude.{◌≡◌, ◌∷◌, ℕ, Some, IfOk, OnOk};
ghost use Rattle.opgp_difference.specs.Entries.{Entry, PlacedValue, Standing, stands_at};
ghost use Rattle.opgp_difference.specs.Tree.{HasEntries, child, node_of};
ghost use Rattle.std.specs.Prelude.{List, [], ◌++◌};

use opgp_octets::OutOfMemory;
use std::collections::BTreeMap;

/// For each packet the number of what it hangs on, its type and its body; and its own number.
///
/// The keyring has the number 0, and packets are numbered from 1 as they come.
pub(crate) type Tree<'a> = BTreeMap<(usize, u8, &'a [u8]), usize>;

/// The number of the packet of this type and body on what has the number `above`.
pub(crate) fn find<'a>(tree: &Tree<'a>, above: usize, kind: u8, body: &'a [u8]) -> Option<usize>
    ensures { result ≡ child tree.now above (kind, body.now) }
{
    tree.get(&(above, kind, body)).copied()
}

/// The same; if there is none, it gets the next number. Fails only when out of memory.
pub(crate) fn note<'a>(
    tree: &mut Tree<'a>,
    above: usize,
    kind: u8,
    body: &'a [u8],
) -> Result<usize, OutOfMemory>
    ensures entries { (met : List Standing) (e : Entry) (placed : PlacedValue)
        → HasEntries tree.old met → node_of tree.old e ≡ Some above
        → OnOk result (HasEntries tree.new
        (met ++ stands_at ((kind, body.now) ∷ e) placed ∷ [])) }
    ensures node { (met : List Standing) (e : Entry) → HasEntries tree.old met
        → node_of tree.old e ≡ Some above
        → IfOk result (λ node. node_of tree.new ((kind, body.now) ∷ e) ≡ Some node) }
    ensures keeps { (met : List Standing) (e : Entry) → HasEntries tree.old met
        → node_of tree.old e ≡ Some above → OnOk result ((f : Entry) (n : ℕ)
        → node_of tree.old f ≡ Some n → node_of tree.new f ≡ Some n) }
{
    if let Some(node) = find(tree, above, kind, body) {
        return Ok(node);
    }
    let node = tree.len() + 1;
    tree.insert((above, kind, body), node)?;
    Ok(node)
}
