//! The size of the table of a keyring's keys.

ghost use Rattle.std.specs.Prelude.{◌≡◌, ◌+◌, ◌∷◌, [], length};
ghost use Rattle.std.specs.List.{flat_map};
ghost use Rattle.opgp_packet.specs.Parsed.{body_octets};
ghost use Rattle.opgp_keyring.specs.Grouped.{component_of, components_left};
ghost use Rattle.opgp_report.specs.Report.{certificate_keys, subkey_bodies};
ghost use Rattle.opgp_tables.specs.Keys.{certificate_material, component_material, key_bytes};
ghost use Rattle.opgp_tables.specs.Keys.{key_material, key_rows};
ghost use Rattle.opgp_tables.specs.Sizes.{capped};

use crate::parts::material_parts;
use crate::table_sizes::TableSizes;
use opgp_keyring::{Certificate, Component, Components, Head, Keyring};
use opgp_packet::KeyView;

/// How many octets four pieces have.
#[tactic(auto, using(crate::proofs::Counting::four_parts))]
fn octets_in_four(a: &[u8], b: &[u8], c: &[u8], d: &[u8]) -> u64
    ensures { result ≡ capped (length (flat_map (λ o. o) (a.now ∷ b.now ∷ c.now ∷ d.now ∷ []))) }
{
    (a.len() as u64)
        .saturating_add(b.len() as u64)
        .saturating_add(c.len() as u64)
        .saturating_add(d.len() as u64)
}

/// How many octets the fields of a key's material have.
fn material_octets_in(key: KeyView<'_>) -> u64
    ensures { result ≡ capped (length (key_material (body_octets key.entry))) }
{
    let [a, b, c, d] = material_parts(key);
    octets_in_four(a, b, c, d)
}

/// Counts the key that a component is, if it is one.
fn add_component(sizes: &mut TableSizes, component: Component<'_>)
    ensures rows { sizes.new.rows
        ≡ capped (sizes.old.rows + length (subkey_bodies (component_of component.entry))) }
    ensures bytes { sizes.new.bytes
        ≡ capped (sizes.old.bytes + length (component_material (component_of component.entry))) }
{
    match component.head().head() {
        Head::Subkey(key) => sizes.add(1, material_octets_in(key)),
        Head::UserId(_) | Head::Attribute(_) => sizes.add(0, 0),
    }
}

/// Counts the keys of components.
fn add_components(sizes: &mut TableSizes, mut components: Components<'_>)
    ensures rows { sizes.new.rows ≡ capped (sizes.old.rows
        + length (flat_map subkey_bodies (components_left components.entry))) }
    ensures bytes { sizes.new.bytes ≡ capped (sizes.old.bytes
        + length (flat_map component_material (components_left components.entry))) }
{
    // Kept as numbers of 64 bits where there are no components.
    sizes.add(0, 0);
    'components: while let Some(component) = components.next() {
        add_component(sizes, component);
    }
}

/// Counts the keys of a certificate.
fn add_certificate(sizes: &mut TableSizes, certificate: &Certificate)
    ensures rows { sizes.new.rows
        ≡ capped (sizes.old.rows + length (certificate_keys certificate.now)) }
    ensures bytes { sizes.new.bytes
        ≡ capped (sizes.old.bytes + length (certificate_material certificate.now)) }
{
    sizes.add(1, material_octets_in(certificate.key()));
    add_components(sizes, certificate.components());
}

/// How many rows and octets the table of a keyring's keys has. Allocates nothing.
pub fn key_sizes(keyring: &Keyring) -> TableSizes
    ensures rows { result.rows ≡ capped (length (key_rows keyring.now)) }
    ensures bytes { result.bytes ≡ capped (length (key_bytes keyring.now)) }
{
    let mut sizes = TableSizes::NOTHING;
    let mut rest = keyring.certificates();
    'certificates: while let [certificate, more @ ..] = rest {
        add_certificate(&mut sizes, certificate);
        rest = more;
    }
    sizes
}
