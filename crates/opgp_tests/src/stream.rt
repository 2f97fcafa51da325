//! How many allocations an output and a sink in memory make. What they put is proved.

ghost use Rattle.std.specs.Prelude.{◌≡◌, false};
ghost use Rattle.opgp_io.specs.Watch.{watched_failed};

use opgp_armor::Label;
use opgp_io::{Armoring, Buffer, Held, Output, Watched, Word, put_all};
use std::io;

const TEXT: &[u8] = b"70A\\x0A-----BEGIN PGP MESSAGE-----\n\nxgED\n-----END PGP MESSAGE-----\n";

/// Puts a number, words and a block of armor: the text.
fn put_each(sink: &mut Watched<&mut [u8]>, buffer: &mut Buffer) -> io::Result<()>
    requires { watched_failed sink.old ≡ false }
{
    let mut output = Output::new(sink, buffer);
    output.add_decimal(7)?;
    output.add_words([Word::Hex(b"\x0A"), Word::Escaped(b"\n")].as_slice())?;
    let mut armoring = Armoring::begin(&mut output, Label::Message)?;
    armoring.add(&mut output, b"\xC6\x01")?;
    armoring.add(&mut output, b"\x03")?;
    armoring.end(&mut output)?;
    output.finish()
}

// The buffer is all that an output allocates: if that fails, nothing is written.
#[test]
fn output_in_1_growths(rt: HostRuntime) {
    let mut held = [b'.'; 256];
    let mut sink = Watched::new(held.as_mut_slice());
    if let Ok(mut buffer) = Buffer::new(rt.alloc()) {
        assert!(rt; put_each(&mut sink, &mut buffer).is_ok());
        assert!(rt; held.starts_with(TEXT));
    } else {
        assert!(rt; held.as_slice() == [b'.'; 256].as_slice());
    }
}

// The first piece, the second, and the vector of pieces: none is copied to grow.
#[test]
fn octets_held_in_3_growths(rt: HostRuntime) {
    if let Ok(mut held) = Held::new(rt.alloc()) {
        for _ in 0..10 {
            if !held.failed() {
                let put = put_all(&mut held, [7; 10_000].as_slice());
                assert!(rt; put.is_err() == held.failed());
            }
        }
        let (full, last) = held.pieces();
        assert!(rt; held.failed() || (full.len() == 1 && last.len() == 34_464));
    }
}
