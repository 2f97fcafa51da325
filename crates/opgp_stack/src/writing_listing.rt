//! Writes the listing of a keyring into a sink.

ghost use Rattle.std.specs.Prelude.{◌≡◌, false};
ghost use Rattle.opgp_codec.specs.Written.{IsWritten};
ghost use Rattle.opgp_keyring.specs.Keyring.{flat};
ghost use Rattle.opgp_keyring.specs.Packets.{packets_left};
ghost use Rattle.opgp_stack.specs.Listing.{listing};

use crate::listing::add_listing;
use opgp_codec::{EngineError, Text, write};
use opgp_io::{Output, Sink};
use opgp_keyring::{Keyring, Packets};
use std::alloc::Global;
use std::io;

/// A line for each packet.
#[derive(Clone, Copy)]
pub(crate) struct ListingText<'a> {
    pub(crate) packets: Packets<'a>,
}

impl Text for ListingText<'_> {
    ghost octets = { λ text. listing (packets_left text.packets) };

    fn add<W: Sink>(self, output: &mut Output<'_, W>) -> io::Result<()> {
        add_listing(output, self.packets)
    }
}

/// Writes a line for each packet of a keyring. The condition is that the sink hasn't failed.
///
/// - A primary key: `pub v<version> alg <n> created <n> <fingerprint> <key ID>`; a subkey the same
///   with `sub`.
/// - A user ID: `uid "<text>"`. Printable ASCII other than `"` and `\` is printed as it is, each
///   other octet as `\x` and two digits.
/// - A user attribute: `uat <number of subpackets>`.
/// - A signature: `sig v<version> type <T> alg <n> hash <n>`, the type in two digits, or
///   `sig opaque <length>`.
/// - Any other packet: `pkt <type> <length>`.
///
/// Numbers are decimal, times seconds since 1970, digits of hexadecimal upper case.
///
/// All memory is allocated before the first octet is written. The errors are `Memory`, with
/// nothing written, and `Write`: the sink has failed, and holds a prefix of the lines.
pub fn write_listing<W: Sink>(
    alloc: Global,
    keyring: &Keyring,
    writer: &mut W,
) -> Result<(), EngineError>
    requires { W.has_failed writer.old ≡ false }
    ensures { IsWritten W.held W.has_failed writer.old writer.new result
        (listing (flat keyring.now)) }
{
    let packets = Packets::of(keyring);
    write(alloc, ListingText { packets }, writer)
}
