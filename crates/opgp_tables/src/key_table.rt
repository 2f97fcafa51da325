//! The table of a keyring's keys.

ghost use Rattle.std.specs.Prelude.{◌≡◌, ◌++◌, ◌∷◌, [], ◌+◌, ◌<◌, ◌^◌, length, map, OnOk, IfOk};
ghost use Rattle.std.specs.List.{flat_map};
ghost use Rattle.opgp_packet.specs.Parsed.{body_octets};
ghost use Rattle.opgp_keyring.specs.Grouped.{component_of, components_left};
ghost use Rattle.opgp_keyring.specs.Keyring.{component_packets};
ghost use Rattle.opgp_report.specs.First.{print_of};
ghost use Rattle.opgp_tables.specs.Keys.{key_material, key_row, component_keys, component_material};
ghost use Rattle.opgp_tables.specs.Keys.{components_keys, certificate_rows, certificate_material};
ghost use Rattle.opgp_tables.specs.Keys.{certificates_rows, key_rows, key_bytes};

use crate::key_row::{KeyRow, NONE, print_padded};
use crate::parts::material_parts;
use crate::table_sizes::TableSizes;
use opgp_hash::{Fingerprint, KeyId, fingerprint_of_view};
use opgp_keyring::{Certificate, Component, Components, Head, Keyring};
use opgp_octets::OutOfMemory;
use opgp_packet::KeyView;
use std::alloc::Global;

/// Adds four pieces. Fails only when out of memory.
#[tactic(auto, using(crate::proofs::Joining::joined))]
fn add_four(bytes: &mut Vec<u8>, a: &[u8], b: &[u8], c: &[u8], d: &[u8]) -> Result<(), OutOfMemory>
    ensures { OnOk result (bytes.new.items ≡ bytes.old.items
        ++ flat_map (λ o. o) (a.now ∷ b.now ∷ c.now ∷ d.now ∷ [])) }
{
    bytes.extend_from_slice(a)?;
    bytes.extend_from_slice(b)?;
    bytes.extend_from_slice(c)?;
    bytes.extend_from_slice(d)
}

/// The fingerprint of a key.
fn print_of(key: KeyView<'_>) -> Fingerprint
    ensures { result ≡ print_of (body_octets key.entry) }
{
    // Called for their contracts, which tie the version that is hashed to the body's first octet.
    let _body = key.body();
    let _version = key.version();
    fingerprint_of_view(key)
}

/// The row of a key whose material stands here.
fn row_of(certificate: u64, component: u64, at: u64, key: KeyView<'_>) -> KeyRow
    ensures { result ≡ key_row certificate component at (body_octets key.entry) }
{
    opgp_packet::key_laws::written(&key);
    let [a, b, c, d] = material_parts(key);
    let named = print_of(key);
    let KeyId(key_id) = named.key_id();
    KeyRow {
        certificate,
        component,
        at,
        sizes: [
            a.len() as u64,
            b.len() as u64,
            c.len() as u64,
            d.len() as u64,
        ],
        created: key.created(),
        version: key.version(),
        algorithm: key.algorithm(),
        print_size: named.octets().len() as u8,
        print: print_padded(named),
        key_id,
        reserved: [0; 9],
    }
}

/// Adds a key's material. Fails only when out of memory.
fn add_material(bytes: &mut Vec<u8>, key: KeyView<'_>) -> Result<(), OutOfMemory>
    ensures { OnOk result
        (bytes.new.items ≡ bytes.old.items ++ key_material (body_octets key.entry)) }
{
    let [a, b, c, d] = material_parts(key);
    add_four(bytes, a, b, c, d)
}

/// Adds a key's row and its material. Fails only when out of memory.
fn add_key(
    rows: &mut Vec<KeyRow>,
    bytes: &mut Vec<u8>,
    certificate: u64,
    component: u64,
    key: KeyView<'_>,
) -> Result<(), OutOfMemory>
    ensures rows { OnOk result (rows.new.items ≡ rows.old.items
        ++ key_row certificate component (length bytes.old.items) (body_octets key.entry) ∷ []) }
    ensures bytes { OnOk result
        (bytes.new.items ≡ bytes.old.items ++ key_material (body_octets key.entry)) }
{
    let at = bytes.len() as u64;
    add_material(bytes, key)?;
    rows.push(row_of(certificate, component, at, key))?;
    Ok(())
}

/// Adds the key that a component is, if it is one. Fails only when out of memory.
fn add_component(
    rows: &mut Vec<KeyRow>,
    bytes: &mut Vec<u8>,
    certificate: u64,
    number: u64,
    component: Component<'_>,
) -> Result<(), OutOfMemory>
    ensures rows { OnOk result (rows.new.items ≡ rows.old.items
        ++ component_keys certificate number (length bytes.old.items)
        (component_of component.entry)) }
    ensures bytes { OnOk result
        (bytes.new.items ≡ bytes.old.items ++ component_material (component_of component.entry)) }
{
    match component.head().head() {
        Head::Subkey(key) => add_key(rows, bytes, certificate, number, key),
        Head::UserId(_) | Head::Attribute(_) => Ok(()),
    }
}

/// Adds the keys of components. Fails only when out of memory.
fn add_components(
    rows: &mut Vec<KeyRow>,
    bytes: &mut Vec<u8>,
    certificate: u64,
    mut components: Components<'_>,
) -> Result<(), OutOfMemory>
    requires { length (flat_map component_packets (components_left components)) < 2 ^ 64 }
    ensures rows { OnOk result (rows.new.items ≡ rows.old.items
        ++ components_keys certificate 0 (length bytes.old.items)
        (components_left components.entry)) }
    ensures bytes { OnOk result (bytes.new.items ≡ bytes.old.items
        ++ flat_map component_material (components_left components.entry)) }
{
    let mut number = 0usize;
    'components: while let Some(component) = components.next() {
        add_component(rows, bytes, certificate, number as u64, component)?;
        number += 1;
    }
    Ok(())
}

/// Adds the keys of a certificate. Fails only when out of memory.
fn add_certificate(
    rows: &mut Vec<KeyRow>,
    bytes: &mut Vec<u8>,
    number: u64,
    certificate: &Certificate,
) -> Result<(), OutOfMemory>
    ensures rows { OnOk result (rows.new.items ≡ rows.old.items
        ++ certificate_rows number (length bytes.old.items) certificate.now) }
    ensures bytes { OnOk result
        (bytes.new.items ≡ bytes.old.items ++ certificate_material certificate.now) }
{
    add_key(rows, bytes, number, NONE, certificate.key())?;
    add_components(rows, bytes, number, certificate.components())
}

/// Adds the keys of certificates. Fails only when out of memory.
fn add_certificates(
    rows: &mut Vec<KeyRow>,
    bytes: &mut Vec<u8>,
    certificates: &[Certificate],
) -> Result<(), OutOfMemory>
    ensures rows { OnOk result (rows.new.items ≡ rows.old.items
        ++ certificates_rows 0 (length bytes.old.items) certificates.now) }
    ensures bytes { OnOk result
        (bytes.new.items ≡ bytes.old.items ++ flat_map certificate_material certificates.now) }
{
    let mut number = 0usize;
    let mut rest = certificates;
    'certificates: while let [certificate, more @ ..] = rest {
        add_certificate(rows, bytes, number as u64, certificate)?;
        number += 1;
        rest = more;
    }
    Ok(())
}

/// The rows of a keyring's keys, in order, and the octets that they point into. The sizes say for
/// how much room is asked at first. Fails only when out of memory.
pub fn keys(
    alloc: Global,
    keyring: &Keyring,
    sizes: TableSizes,
) -> Result<(Vec<KeyRow>, Vec<u8>), OutOfMemory>
    ensures { IfOk result (λ x. (x.0.items ≡ key_rows keyring.now)
        × (x.1.items ≡ key_bytes keyring.now)) }
{
    let mut rows = Vec::with_capacity(alloc, sizes.rows as usize)?;
    let mut bytes = Vec::with_capacity(alloc, sizes.bytes as usize)?;
    add_certificates(&mut rows, &mut bytes, keyring.certificates())?;
    Ok((rows, bytes))
}
