//! The table of a keyring's packets.

ghost use Rattle.std.specs.Prelude.{◌≡◌, ◌∷◌, ◌++◌, [], ◌+◌, ◌<◌, ◌≤◌, ◌^◌, drop, length};
ghost use Rattle.std.specs.List.{flat_map};
ghost use Rattle.opgp_keyring.specs.Grouped.{component_of, components_left, hangs_left};
ghost use Rattle.opgp_keyring.specs.Keyring.{certificate_packets, component_packets, flat};
ghost use Rattle.opgp_keyring.specs.Member.{member_packet, members_left};
ghost use Rattle.opgp_tables.specs.Filling.{Fills};
ghost use Rattle.opgp_tables.specs.Packets.{bodies, packet_row, hangs_packets, component_rows};
ghost use Rattle.opgp_tables.specs.Packets.{components_rows, certificate_rows, certificates_rows};
ghost use Rattle.opgp_tables.specs.Packets.{packet_rows, packet_bytes};

use crate::key_row::NONE;
use crate::packet_row::PacketRow;
use crate::putting::{put_item, put_octets};
use crate::table_sizes::TableSizes;
use opgp_keyring::{Certificate, Component, Components, Hangs, Keyring, Member, Members};

/// Where a packet stands.
#[derive(Clone, Copy)]
struct Spot {
    certificate: u64,
    component: u64,
    hang: u64,
}

/// Puts a packet behind so many rows and octets, and says how many there are then.
fn put_member(
    rows: &mut [PacketRow],
    bytes: &mut [u8],
    here: TableSizes,
    spot: Spot,
    member: Member<'_>,
) -> TableSizes
    requires rows { here.rows < length rows.old }
    requires bytes { here.bytes + length (member_packet member).body ≤ length bytes.old }
    ensures { Fills (packet_row spot.certificate spot.component spot.hang here.bytes
        (member_packet member.entry) ∷ []) (member_packet member.entry).body here result rows.old
        rows.new bytes.old bytes.new }
{
    let body = member.body();
    put_octets(bytes, here.bytes as usize, body);
    let row = PacketRow {
        certificate: spot.certificate,
        component: spot.component,
        hang: spot.hang,
        at: here.bytes,
        size: body.len() as u64,
        kind: member.kind(),
        reserved: [0; 7],
    };
    put_item(rows, here.rows as usize, row);
    TableSizes {
        rows: here.rows + 1,
        bytes: here.bytes + body.len() as u64,
    }
}

/// Puts all that leads the keyring at the front.
fn put_lead(rows: &mut [PacketRow], bytes: &mut [u8], mut lead: Members<'_>) -> TableSizes
    requires rows { length (members_left lead) ≤ length rows.old }
    requires bytes { length (bodies (members_left lead)) ≤ length bytes.old }
    ensures { Fills (hangs_packets 18446744073709551615 18446744073709551615 0 0
        (members_left lead.entry)) (bodies (members_left lead.entry))
        (record { rows = 0; bytes = 0 }) result rows.old rows.new bytes.old bytes.new }
{
    // Called for its contract: they can be counted.
    let _count = lead.len();
    let mut number = 0usize;
    let mut reached = TableSizes::NOTHING;
    'lead: while let Some(member) = lead.next() {
        let spot = Spot {
            certificate: NONE,
            component: NONE,
            hang: number as u64,
        };
        reached = put_member(rows, bytes, reached, spot, member);
        number += 1;
    }
    reached
}

/// Puts all that hangs in one place.
fn put_hangs(
    rows: &mut [PacketRow],
    bytes: &mut [u8],
    here: TableSizes,
    certificate: u64,
    component: u64,
    mut hangs: Hangs<'_>,
) -> TableSizes
    requires few { length (hangs_left hangs) < 2 ^ 64 }
    requires rows { here.rows + length (hangs_left hangs) ≤ length rows.old }
    requires bytes { here.bytes + length (bodies (hangs_left hangs)) ≤ length bytes.old }
    ensures { Fills (hangs_packets certificate component 0 here.bytes (hangs_left hangs.entry))
        (bodies (hangs_left hangs.entry)) here result rows.old rows.new bytes.old bytes.new }
{
    let mut number = 0usize;
    let mut reached = here;
    'hangs: while let Some(member) = hangs.next() {
        let spot = Spot {
            certificate,
            component,
            hang: number as u64,
        };
        reached = put_member(rows, bytes, reached, spot, member);
        number += 1;
    }
    reached
}

/// Puts a component.
fn put_component(
    rows: &mut [PacketRow],
    bytes: &mut [u8],
    here: TableSizes,
    certificate: u64,
    number: u64,
    component: Component<'_>,
) -> TableSizes
    requires few { length (component_packets (component_of component)) < 2 ^ 64 }
    requires rows { here.rows + length (component_packets (component_of component))
        ≤ length rows.old }
    requires bytes { here.bytes + length (bodies (component_packets (component_of component)))
        ≤ length bytes.old }
    ensures { Fills (component_rows certificate number here.bytes (component_of component.entry))
        (bodies (component_packets (component_of component.entry))) here result rows.old rows.new
        bytes.old bytes.new }
{
    let spot = Spot {
        certificate,
        component: number,
        hang: NONE,
    };
    let behind = put_member(rows, bytes, here, spot, component.head());
    put_hangs(rows, bytes, behind, certificate, number, component.hangs())
}

/// Puts components.
fn put_components(
    rows: &mut [PacketRow],
    bytes: &mut [u8],
    here: TableSizes,
    certificate: u64,
    mut components: Components<'_>,
) -> TableSizes
    requires few { length (flat_map component_packets (components_left components)) < 2 ^ 64 }
    requires rows { here.rows + length (flat_map component_packets (components_left components))
        ≤ length rows.old }
    requires bytes { here.bytes
        + length (bodies (flat_map component_packets (components_left components)))
        ≤ length bytes.old }
    ensures { Fills (components_rows certificate 0 here.bytes (components_left components.entry))
        (bodies (flat_map component_packets (components_left components.entry))) here result
        rows.old rows.new bytes.old bytes.new }
{
    let mut number = 0usize;
    let mut reached = here;
    'components: while let Some(component) = components.next() {
        reached = put_component(rows, bytes, reached, certificate, number as u64, component);
        number += 1;
    }
    reached
}

/// Puts a certificate.
fn put_certificate(
    rows: &mut [PacketRow],
    bytes: &mut [u8],
    here: TableSizes,
    number: u64,
    certificate: &Certificate,
) -> TableSizes
    requires rows { here.rows + length (certificate_packets certificate.now) ≤ length rows.old }
    requires bytes { here.bytes + length (bodies (certificate_packets certificate.now))
        ≤ length bytes.old }
    ensures { Fills (certificate_rows number here.bytes certificate.now)
        (bodies (certificate_packets certificate.now)) here result rows.old rows.new bytes.old
        bytes.new }
{
    let spot = Spot {
        certificate: number,
        component: NONE,
        hang: NONE,
    };
    let hung = put_member(rows, bytes, here, spot, certificate.primary());
    let behind = put_hangs(rows, bytes, hung, number, NONE, certificate.hangs());
    put_components(rows, bytes, behind, number, certificate.components())
}

/// Puts certificates.
fn put_certificates(
    rows: &mut [PacketRow],
    bytes: &mut [u8],
    here: TableSizes,
    certificates: &[Certificate],
) -> TableSizes
    requires rows { here.rows + length (flat_map certificate_packets certificates.now)
        ≤ length rows.old }
    requires bytes { here.bytes + length (bodies (flat_map certificate_packets certificates.now))
        ≤ length bytes.old }
    ensures { Fills (certificates_rows 0 here.bytes certificates.now)
        (bodies (flat_map certificate_packets certificates.now)) here result rows.old rows.new
        bytes.old bytes.new }
{
    let mut number = 0usize;
    let mut reached = here;
    let mut rest = certificates;
    'certificates: while let [certificate, more @ ..] = rest {
        reached = put_certificate(rows, bytes, reached, number as u64, certificate);
        number += 1;
        rest = more;
    }
    reached
}

/// Fills the front of two tables with the rows of a keyring's packets, in order, and the octets of
/// their bodies. The condition is that both have the room that [`crate::packet_sizes`] tells.
pub fn fill_packets(keyring: &Keyring, rows: &mut [PacketRow], bytes: &mut [u8])
    requires rows { length (packet_rows keyring.now) ≤ length rows.old }
    requires bytes { length (packet_bytes keyring.now) ≤ length bytes.old }
    ensures rows { rows.new
        ≡ packet_rows keyring.now ++ drop (length (packet_rows keyring.now)) rows.old }
    ensures bytes { bytes.new
        ≡ packet_bytes keyring.now ++ drop (length (packet_bytes keyring.now)) bytes.old }
{
    let behind = put_lead(rows, bytes, keyring.lead());
    put_certificates(rows, bytes, behind, keyring.certificates());
}
