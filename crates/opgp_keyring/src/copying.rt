//! Copying lists.

ghost use Rattle.std.specs.Prelude.{◌≡◌, IfOk};

use opgp_octets::OutOfMemory;
use std::alloc::Global;

/// Copies of all items, in order, by a closure that copies one. Fails only when out of memory.
pub(crate) fn copy_all<T: Drop, F: Fn(&T) -> Result<T, OutOfMemory>>(
    alloc: Global,
    items: &[T],
    copy: F,
) -> Result<Vec<T>, OutOfMemory>
    requires callable { F.IsAlwaysCallable copy }
    requires equal { (item : _) (copied : _) → F.post copy item copied
        → IfOk copied (λ c. c ≡ item.now) }
    ensures { IfOk result (λ v. v.items ≡ items.now) }
{
    let mut copies = Vec::new(alloc);
    for item in items {
        let copied = copy(item)?;
        copies.push(copied)?;
    }
    Ok(copies)
}
