//! Why a line has no effect.

ghost use Rattle.std.specs.Prelude.{◌≡◌};

use opgp_octets::{OutOfMemory, Reason};

/// Why a line has no effect: it is at fault, or an allocation failed.
#[derive(Clone, Copy)]
pub(crate) enum Refusal {
    Reason(Reason),
    Memory,
}

impl From<OutOfMemory> for Refusal {
    ghost use Rattle.opgp_armor.specs.declared.refusal.Refusal.TheVariants.{Memory};

    ghost from_gives = { λ _ e. e ≡ Memory };

    fn from(_error: OutOfMemory) -> Refusal {
        Refusal::Memory
    }
}
