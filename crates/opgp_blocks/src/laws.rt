//! What the definition of the blocks in a text implies.

ghost use Rattle.std.specs.Prelude.{◌≤◌, ◌+◌, ℕ, List, length};
ghost use Rattle.opgp_blocks.specs.Blocks.{cleaned_in};

/// All cleaned blocks of a text together have no more octets than it, and one line feed: that of a
/// last line that has none.
#[tactic(auto, using(crate::proofs::Sizes::octets_few))]
pub fn little_room()
    ensures { (text : List ℕ) → length (cleaned_in text) ≤ length text + 1 }
{}
