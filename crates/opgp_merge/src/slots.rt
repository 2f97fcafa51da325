//! Which items of a list have the same type and body, as places in the list without repetitions.

ghost use Rattle.std.specs.Prelude.{◌≡◌, List, map, IfOk};
ghost use Rattle.opgp_merge.specs.Slots.{IsIndex, Name, grown, place, places_of};

use crate::joining::Joining;
use opgp_octets::OutOfMemory;
use std::alloc::Global;
use std::collections::BTreeMap;

/// The place of this type and body among those in the index; if it isn't there, it gets the next
/// place and is noted.
fn slot_of<'a>(
    index: &mut BTreeMap<(u8, &'a [u8]), usize>,
    kind: u8,
    body: &'a [u8],
) -> Result<usize, OutOfMemory>
    ensures { (seen : List Name) → IsIndex index.old seen → IfOk result (λ slot.
        (slot ≡ place seen (kind, body.now)) × IsIndex index.new (grown seen (kind, body.now))) }
{
    if let Some(slot) = index.get(&(kind, body)) {
        return Ok(*slot);
    }
    let slot = index.len();
    index.insert((kind, body), slot)?;
    Ok(slot)
}

/// For each item, its place in the list without repetitions.
///
/// Fails only when out of memory.
pub(crate) fn slots_of<T: Joining>(alloc: Global, items: &[T]) -> Result<Vec<usize>, OutOfMemory>
    ensures { IfOk result (λ v. v.items ≡ places_of (map T.name items.now)) }
{
    let mut index = BTreeMap::new(alloc);
    let mut slots = Vec::new(alloc);
    for item in items {
        let (kind, body) = item.name();
        let slot = slot_of(&mut index, kind, body)?;
        slots.push(slot)?;
    }
    Ok(slots)
}
