//! Writing all of the octets.

ghost use Rattle.std.specs.Prelude.{◌≡◌, true, false, OnOk, OnErr};
ghost use Rattle.std.specs.Io.KnownBytes.{Appends};
ghost use Rattle.opgp_io.specs.Stream.{AppendsPrefix};

use crate::sink::Sink;
use std::io;

/// Writes all the octets. After an error the sink has failed, and holds a prefix of them.
pub fn put_all<W: Sink>(writer: &mut W, octets: &[u8]) -> io::Result<()>
    requires { W.has_failed writer.old ≡ false }
    ensures octets { OnOk result (Appends (W.held writer.old) (W.held writer.new) octets.now) }
    ensures sound { OnOk result (W.has_failed writer.new ≡ false) }
    ensures prefix { OnErr result
        (AppendsPrefix (W.held writer.old) (W.held writer.new) octets.now) }
    ensures failed { OnErr result (W.has_failed writer.new ≡ true) }
{
    let mut at = 0;
    'pieces: while at < octets.len() {
        let n = writer.put(&octets[at..])?;
        if n == 0 {
            return Err(io::Error::from(io::ErrorKind::WriteZero));
        }
        at += n;
    }
    Ok(())
}
