//! Reads all octets of a source.

ghost use Rattle.std.specs.Prelude.{◌≡◌, false};
ghost use Rattle.opgp_codec.specs.Pulled.{ReadsAs};
ghost use Rattle.opgp_stack.specs.Octets.{AreOctets};

use opgp_codec::{IncomingOctets, ReadError};
use opgp_io::Source;
use opgp_octets::Limits;
use std::alloc::Global;

/// All octets of a source. The condition is that the source hasn't failed.
///
/// The errors are `Refused`: there are more than the limit `input`, `Read`: the source has failed,
/// and `Memory`.
pub fn read_octets<R: Source>(
    alloc: Global,
    source: &mut R,
    limits: &Limits,
) -> Result<Vec<u8>, ReadError>
    requires { R.has_failed source.old ≡ false }
    ensures { ReadsAs R.left R.has_failed source.old source.new limits.now
        (AreOctets limits.now) result }
{
    let mut octets = Vec::new(alloc);
    let mut incoming = IncomingOctets::new(alloc, limits)?;
    'pieces: while incoming.next(source)? {
        octets.extend_from_slice(incoming.piece())?;
    }
    match incoming.finish() {
        Ok(()) => Ok(octets),
        Err(fault) => Err(ReadError::Refused(fault)),
    }
}
