//! Tables of a caller that are filled from a place on.

ghost use Rattle.std.specs.Prelude.{◌≡◌, ◌∷◌, [], ◌+◌, ◌<◌, ◌≤◌, length};
ghost use Rattle.opgp_tables.specs.Filling.{put};

/// Puts an item at a place.
#[tactic(auto, using(crate::proofs::Filling::item_put))]
pub(crate) fn put_item<T: Copy>(table: &mut [T], at: usize, item: T)
    requires { at < length table.old }
    ensures { table.new ≡ put at (item ∷ []) table.old }
{
    table[at] = item;
}

/// Puts octets from a place on.
#[tactic(auto, using(crate::proofs::Filling::octets_put))]
pub(crate) fn put_octets(table: &mut [u8], at: usize, octets: &[u8])
    requires { at + length octets.now ≤ length table.old }
    ensures { table.new ≡ put at octets.now table.old }
{
    table[at..at + octets.len()].copy_from_slice(octets);
}
