//! The size of the table of a keyring's packets.

ghost use Rattle.std.specs.Prelude.{◌≡◌, length};
ghost use Rattle.opgp_keyring.specs.Member.{members_left};
ghost use Rattle.opgp_tables.specs.Packets.{bodies, packet_bytes, packet_rows};
ghost use Rattle.opgp_tables.specs.Sizes.{capped};

use crate::table_sizes::TableSizes;
use opgp_keyring::{Keyring, Members};

/// How many octets the bodies of packets have.
fn body_octets_in(mut members: Members<'_>) -> u64
    ensures { result ≡ capped (length (bodies (members_left members.entry))) }
{
    let mut octets = 0u64;
    'members: while let Some(member) = members.next() {
        octets = octets.saturating_add(member.body().len() as u64);
    }
    octets
}

/// How many rows and octets the table of a keyring's packets has. Allocates nothing.
pub fn packet_sizes(keyring: &Keyring) -> TableSizes
    ensures rows { result.rows ≡ capped (length (packet_rows keyring.now)) }
    ensures bytes { result.bytes ≡ capped (length (packet_bytes keyring.now)) }
{
    let lead = keyring.lead();
    let mut sizes = TableSizes {
        rows: lead.len() as u64,
        bytes: body_octets_in(lead),
    };
    let mut rest = keyring.certificates();
    'certificates: while let [certificate, more @ ..] = rest {
        let packets = certificate.packets();
        sizes.add(packets.len() as u64, body_octets_in(packets));
        rest = more;
    }
    sizes
}
