//! What a subpacket's data says, as plain values.

ghost use Rattle.std.specs.Prelude.{◌≡◌, ◌≤◌, ◌∷◌, [], option_map, Some};
ghost use Rattle.opgp_packet.specs.SubFields.{fields_shown};
ghost use Rattle.opgp_tables.specs.SubpacketValues.{values_by};

use opgp_packet::SubFields;

/// The form of a subpacket's data, and its fields: those that are numbers, and how large those are
/// that are octets, which stand one after the other.
#[derive(Clone, Copy)]
pub(crate) struct SubpacketValues {
    /// The number of the form; 0 if the data has none.
    pub(crate) form: u8,
    /// The numbers; 0 for those that the form doesn't have.
    pub(crate) numbers: [u32; 2],
    /// How many octets of the data are before the fields of octets: 0 to 8.
    pub(crate) before: u64,
    /// How many octets these have; 0 for those that the form doesn't have.
    pub(crate) sizes: [u64; 2],
}

impl SubpacketValues {
    /// What data with these fields says; None is data without a form.
    pub(crate) fn of(fields: Option<SubFields<'_>>) -> SubpacketValues
        ensures said { result ≡ values_by (option_map fields_shown fields.entry) }
        ensures before { result.before ≤ 8 }
    {
        match fields {
            Some(fields) => formed(fields),
            None => values(0, 0, 0, 0, 0),
        }
    }
}

/// What data with these fields says.
fn formed(fields: SubFields<'_>) -> SubpacketValues
    ensures said { result ≡ values_by (Some (fields_shown fields.entry)) }
    ensures before { result.before ≤ 8 }
{
    match fields {
        SubFields::Number(n) => values(1, n, 0, 4, 0),
        SubFields::Octet(n) => values(2, n as u32, 0, 1, 0),
        SubFields::TwoOctets(a, b) => values(3, a as u32, b as u32, 2, 0),
        SubFields::EndedText(text) => values(4, 0, 0, 0, text.len()),
        SubFields::Octets(octets) => values(5, 0, 0, 0, octets.len()),
        SubFields::Revoker(class, algorithm, fingerprint) => {
            values(6, class as u32, algorithm as u32, 2, fingerprint.len())
        }
        SubFields::KeyId(id) => {
            let octets: &[u8] = &id;
            values(7, 0, 0, 0, octets.len())
        }
        SubFields::Notation(flags, name, value) => SubpacketValues {
            form: 8,
            numbers: [flags, 0],
            before: 8,
            sizes: [name.len() as u64, value.len() as u64],
        },
        SubFields::CodeAndText(code, text) => values(9, code as u32, 0, 1, text.len()),
        SubFields::Target(algorithm, hash, digest) => {
            values(10, algorithm as u32, hash as u32, 2, digest.len())
        }
        SubFields::Signature(body) => values(11, 0, 0, 0, body.len()),
        SubFields::Fingerprint(version, fingerprint) => {
            values(12, version as u32, 0, 1, fingerprint.len())
        }
        SubFields::Pairs(pairs) => values(13, 0, 0, 0, pairs.len()),
    }
}

/// The values of a form that has one field of octets at most.
fn values(form: u8, first: u32, second: u32, before: u64, size: usize) -> SubpacketValues
    ensures { result ≡ record {
      form = form;
      numbers = first ∷ second ∷ [];
      before = before;
      sizes = size ∷ 0 ∷ [];
    } }
{
    SubpacketValues {
        form,
        numbers: [first, second],
        before,
        sizes: [size as u64, 0],
    }
}
