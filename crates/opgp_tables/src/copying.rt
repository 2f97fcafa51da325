//! Copying items out.

ghost use Rattle.std.specs.Prelude.{◌≡◌, ◌↔◌, ◌≤◌, ◌++◌, length, drop, true, false, IsTrue};

/// Copies items to the front of a table if it has room for all of them; else it is unchanged.
pub fn fill<T: Copy>(items: &[T], table: &mut [T]) -> bool
    ensures room { IsTrue result ↔ (length items.now ≤ length table.old) }
    ensures filled { result ≡ true
        → table.new ≡ items.now ++ drop (length items.now) table.old }
    ensures kept { result ≡ false → table.new ≡ table.old }
{
    if items.len() > table.len() {
        return false;
    }
    table[..items.len()].copy_from_slice(items);
    true
}
