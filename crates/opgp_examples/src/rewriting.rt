//! A keyring in the current format.

use anyhow::Result;
use opgp::codec::{Answer, Mode, Out, Watched, read_keyring, write_keyring};
use opgp::octets::Limits;
use opgp::ring::normalise;
use std::io::{Read, Write};

/// Writes a keyring, armored, with each packet in the current format and its shortest length.
pub(crate) fn rewrite<R: Read + Drop, W: Write + Drop>(
    rt: &(impl Print + AllocGlobal),
    source: R,
    sink: W,
) -> Result<()> {
    let mut source = Watched::new(source);
    let keyring = match read_keyring(rt.alloc(), &mut source, Mode::Auto, &Limits::usual())? {
        Answer::Ring(keyring) => keyring,
        Answer::Refused(fault) => return Err(fault.into()),
    };
    let keyring = normalise(keyring);
    let mut sink = Watched::new(sink);
    write_keyring(rt.alloc(), &keyring, Out::Armor, &mut sink)?;
    Ok(())
}
