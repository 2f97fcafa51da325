//! Parts of a keyring that wait to be taken.

ghost use Rattle.std.specs.Prelude.{◌≡◌, ◌+◌, ◌-◌, ◌^◌, ◌++◌, ◌∷◌, [], min, None, OnOk};
ghost use Rattle.opgp_codec.specs.Used.{one_if};
ghost use Rattle.opgp_keyring.specs.State.{part_of, ready_parts};
ghost use Rattle.opgp_codec.specs.Waiting.{parts_in};

use opgp_keyring::Ready;
use opgp_octets::OutOfMemory;
use std::alloc::Global;
use std::collections::VecDeque;

/// Parts of a keyring that are complete and weren't taken yet, in order.
#[derive(Drop)]
pub struct Waiting {
    parts: VecDeque<Ready>,
}

impl Waiting {
    /// None yet. Allocates nothing; additions do, from `alloc`.
    pub(crate) fn new(alloc: Global) -> Waiting
        ensures { parts_in result ≡ [] }
    {
        Waiting {
            parts: VecDeque::new(alloc),
        }
    }

    /// Adds a part behind the others. Fails only when out of memory.
    pub(crate) fn add(&mut self, part: Ready) -> Result<(), OutOfMemory>
        ensures { OnOk result (parts_in self.new ≡ parts_in self.old ++ part_of part ∷ []) }
    {
        self.parts.push_back(part)?;
        Ok(())
    }

    /// Takes the first of them.
    pub fn take(&mut self) -> Option<Ready>
        ensures parts { parts_in self.old ≡ ready_parts result ++ parts_in self.new }
        ensures none { result ≡ None → parts_in self.old ≡ [] }
    {
        self.parts.pop_front()
    }
}

/// How many were taken, with one more if there was one: at most 2^64 - 1.
pub(crate) fn counted(taken: u64, is_some: bool) -> u64
    ensures { result ≡ min (taken + one_if is_some) (2 ^ 64 - 1) }
{
    if is_some {
        taken.saturating_add(1)
    } else {
        taken
    }
}
