//! A keyring as octets in memory.

ghost use Rattle.std.specs.Prelude.{◌≡◌, IfOk};
ghost use Rattle.opgp_keyring.specs.Keyring.{flat};
ghost use Rattle.opgp_codec.specs.Writing.{packets_text};

use opgp_codec::{EngineError, Out, Watched, write_keyring};
use opgp_keyring::Keyring;
use std::alloc::Global;

/// A keyring's packets, in binary or as one block of armor. Fails only when out of memory.
pub(crate) fn keyring_text(
    alloc: Global,
    keyring: &Keyring,
    out: Out,
) -> Result<Vec<u8>, EngineError>
    ensures { IfOk result (λ v. v.items ≡ packets_text out (flat keyring.now)) }
{
    let mut sink = Watched::new(Vec::new(alloc));
    write_keyring(alloc, keyring, out, &mut sink)?;
    Ok(sink.into_inner())
}
