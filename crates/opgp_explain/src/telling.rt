//! Fields, one after the other.

ghost use Rattle.std.specs.Prelude.{◌≡◌, ◌+◌, ◌<◌, ◌^◌, [], ◌∷◌, length, IfOk};
ghost use Rattle.opgp_explain.specs.Field.{◌is◌};
ghost use Rattle.opgp_explain.specs.Telling.{Tells};

use crate::field::Field;
use crate::meaning::Meaning;
use opgp_octets::OutOfMemory;
use std::alloc::Global;

/// The fields that were told, and where the next one begins.
#[derive(Drop)]
pub(crate) struct Telling {
    pub(crate) fields: Vec<Field>,
    pub(crate) end: u64,
}

impl Telling {
    /// No fields yet.
    pub(crate) fn new(alloc: Global) -> Telling
        ensures fields { result.fields.items ≡ [] }
        ensures end { result.end ≡ 0 }
    {
        Telling {
            fields: Vec::new(alloc),
            end: 0,
        }
    }

    /// With a field of these octets behind the others. Fails only when out of memory.
    pub(crate) fn with(self, meaning: Meaning, octets: &[u8]) -> Result<Telling, OutOfMemory>
        requires { self.end + length octets.now < 2 ^ 64 }
        ensures { IfOk result (λ t. Tells self t ((meaning is octets.now) ∷ [])) }
    {
        let Telling { mut fields, end } = self;
        let length = octets.len() as u64;
        fields.push(Field {
            offset: end,
            length,
            meaning,
        })?;
        Ok(Telling {
            fields,
            end: end + length,
        })
    }
}
