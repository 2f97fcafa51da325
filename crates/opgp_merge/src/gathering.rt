//! Joining items that have the same type and body, in the place of the first.

ghost use Rattle.std.specs.Prelude.{◌≡◌, [], map, IfOk, OnOk};
ghost use Rattle.opgp_merge.specs.Slots.{added, joined_all, place, places_of, same_by};

use crate::joining::Joining;
use crate::slots::slots_of;
use opgp_octets::OutOfMemory;
use std::alloc::Global;

/// One item for each type and body, in the place of the first, with what all of them contain.
///
/// Fails only when out of memory.
pub(crate) fn join<T: Joining>(alloc: Global, items: Vec<T>) -> Result<Vec<T>, OutOfMemory>
    ensures { IfOk result (λ v. v.items ≡ joined_all T.name T.both items.items) }
{
    if items.len() < 2 {
        return Ok(items);
    }
    let slots = slots_of(alloc, &items)?;
    gather(alloc, items, &slots)
}

/// The same, given the slot of each item.
fn gather<T: Joining>(alloc: Global, items: Vec<T>, slots: &[usize]) -> Result<Vec<T>, OutOfMemory>
    requires { slots.now ≡ places_of (map T.name items.items) }
    ensures { IfOk result (λ v. v.items ≡ joined_all T.name T.both items.items) }
{
    let mut kept = Vec::new(alloc);
    let mut rest = slots;
    for item in items {
        match rest.split_first() {
            Some((slot, more)) => {
                keep(&mut kept, item, *slot)?;
                rest = more;
            }
            None => unreachable!(),
        }
    }
    Ok(kept)
}

/// Keeps an item: if there is one at its slot, that takes its contents; else it is appended.
fn keep<T: Joining>(kept: &mut Vec<T>, item: T, slot: usize) -> Result<(), OutOfMemory>
    requires { slot ≡ place (map T.name kept.old.items) (T.name item) }
    ensures { OnOk result (kept.new.items ≡ added (same_by T.name) T.both kept.old.items item) }
{
    match kept.get_mut(slot) {
        Some(first) => {
            first.take_in(item)?;
            Ok(())
        }
        None => {
            kept.push(item)?;
            Ok(())
        }
    }
}
