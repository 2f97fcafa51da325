//! Finding a key by its fingerprint or its key ID.

ghost use Rattle.std.specs.Prelude.{◌≡◌, ◌++◌, ◌∷◌, [], ℕ, List, true, OnOk, IfOk};
ghost use Rattle.std.specs.BTreeMap.{get};
ghost use Rattle.std.specs.Cmp.Lexicographic.{slice_cmp};
ghost use Rattle.std.specs.Int.{w64, from_be_bytes};
ghost use Rattle.std.specs.List.{list_all};
ghost use Rattle.std.specs.Ordering.{nat_cmp};
ghost use Rattle.std.specs.Str.{bytes_eq};
ghost use Rattle.std.proofs.Props.{props};
ghost use Rattle.opgp_report.specs.First.{has_print, first_by_id, first_by_print};
ghost use Rattle.opgp_report.specs.First.{is_sized, first_or, HasFirsts, HasFirstIds, IsId};

use crate::issuer_name::IssuerName;
use crate::signers::print_of;
use opgp_hash::{Fingerprint, KeyId};
use opgp_keyring::{Certificate, Components, Head};
use opgp_octets::OutOfMemory;
use std::alloc::Global;
use std::collections::BTreeMap;

/// An index of a list of keys: which is the first with a fingerprint, or with a key ID.
///
/// A look-up takes time in the logarithm of the number of keys, even if many share a key ID.
#[derive(Drop)]
pub struct KeyIndex {
    prints: Vec<Fingerprint>,
    four: BTreeMap<[u8; 20], usize>,
    six: BTreeMap<[u8; 32], usize>,
    // By the number that a key ID is in big-endian order, since numbers compare fastest.
    ids: BTreeMap<u64, usize>,
    ghost sized: { list_all is_sized prints.items ≡ true },
    ghost fours: { HasFirsts four (has_print 4) prints.items } by { Prim.hlevel props },
    ghost sixes: { HasFirsts six (has_print 6) prints.items } by { Prim.hlevel props },
    ghost by_id: { HasFirstIds ids prints.items } by { Prim.hlevel props },
}

impl KeyIndex {
    ghost use Rattle.std.specs.Prelude.{length, map};
    ghost use Rattle.std.specs.List.{flat_map};
    ghost use Rattle.std.specs.Option.{option_map};
    ghost use Rattle.opgp_keyring.specs.Grouped.{components_left};
    ghost use Rattle.opgp_report.specs.First.{print_of};
    ghost use Rattle.opgp_report.specs.IssuerName.{name_value};
    ghost use Rattle.opgp_report.specs.KeyIndex.{prints_shown};
    ghost use Rattle.opgp_report.specs.Report.{certificate_keys, subkey_bodies};
    ghost use Rattle.opgp_report.specs.Signer.{id_named, named_in, print_named};

    /// The index of an empty list of keys.
    pub fn new(alloc: Global) -> KeyIndex
        ensures { prints_shown result ≡ [] }
    {
        KeyIndex {
            prints: Vec::new(alloc),
            four: BTreeMap::new(alloc),
            six: BTreeMap::new(alloc),
            ids: BTreeMap::new(alloc),
        }
    }

    /// The index with this key appended to the list.
    ///
    /// Fails only when out of memory.
    pub fn with(self, print: Fingerprint) -> Result<KeyIndex, OutOfMemory>
        ensures { IfOk result (λ n. prints_shown n ≡ prints_shown self ++ print ∷ []) }
    {
        let KeyIndex {
            mut prints,
            mut four,
            mut six,
            mut ids,
        } = self;
        let at = prints.len();
        prints.push(print)?;
        note_id(&mut ids, print.key_id().0, at)?;
        match print {
            Fingerprint::Four(octets) => {
                note(&mut four, octets, at)?;
                Ok(KeyIndex {
                    prints,
                    four,
                    six,
                    ids,
                })
            }
            Fingerprint::Six(octets) => {
                note(&mut six, octets, at)?;
                Ok(KeyIndex {
                    prints,
                    four,
                    six,
                    ids,
                })
            }
        }
    }

    /// The index with the keys of a certificate appended: its primary key, then its subkeys. Each
    /// key is hashed once.
    ///
    /// Fails only when out of memory.
    pub fn with_certificate(self, certificate: &Certificate) -> Result<KeyIndex, OutOfMemory>
        ensures { IfOk result (λ n. prints_shown n
            ≡ prints_shown self ++ map print_of (certificate_keys certificate.now)) }
    {
        self.with_named(certificate, print_of(&certificate.key()))
    }

    /// The same, where this is the fingerprint of the certificate's primary key. Fails only when
    /// out of memory.
    pub(crate) fn with_named(
        self,
        certificate: &Certificate,
        primary: Fingerprint,
    ) -> Result<KeyIndex, OutOfMemory>
        requires { primary ≡ print_of certificate.now.primary.body }
        ensures { IfOk result (λ n. prints_shown n
            ≡ prints_shown self ++ map print_of (certificate_keys certificate.now)) }
    {
        let names = self.with(primary)?;
        let names = names.with_components(certificate.components())?;
        Ok(names)
    }

    /// The index with the subkeys of components appended. Fails only when out of memory.
    fn with_components(self, mut components: Components<'_>) -> Result<KeyIndex, OutOfMemory>
        ensures { IfOk result (λ n. prints_shown n ≡ prints_shown self
            ++ map print_of (flat_map subkey_bodies (components_left components.entry))) }
    {
        let mut names = self;
        'components: while let Some(component) = components.next() {
            if let Head::Subkey(key) = component.head().head() {
                names = names.with(print_of(&key))?;
            }
        }
        Ok(names)
    }

    /// How many keys there are.
    pub(crate) fn len(&self) -> usize
        ensures { result ≡ length (prints_shown self.now) }
    {
        self.prints.len()
    }

    /// The place of the first key that has this name.
    pub fn find(&self, name: IssuerName) -> Option<usize>
        ensures { result ≡ named_in (prints_shown self.now) (name_value name) }
    {
        match name {
            IssuerName::Print(print) => {
                self.first_by_fingerprint(print.version(), print.octets())
            }
            IssuerName::Id(id) => self.first_by_key_id(id.0),
            IssuerName::Unnamed => None,
        }
    }

    /// The fingerprint of the first key that has this name.
    pub fn print_named(&self, name: IssuerName) -> Option<Fingerprint>
        ensures { result ≡ print_named (prints_shown self.now) (name_value name) }
    {
        match self.find(name) {
            Some(place) => self.prints.get(place).copied(),
            None => None,
        }
    }

    /// The key ID of the first key that has this name.
    pub(crate) fn id_named(&self, name: IssuerName) -> Option<KeyId>
        ensures { option_map (λ id. id.0) result
            ≡ id_named (prints_shown self.now) (name_value name) }
    {
        match self.print_named(name) {
            Some(print) => Some(print.key_id()),
            None => None,
        }
    }

    /// The place of the first key with this key ID.
    pub fn first_by_key_id(&self, id: [u8; 8]) -> Option<usize>
        ensures { result ≡ first_by_id id (prints_shown self.now) }
    {
        self.ids.get(&u64::from_be_bytes(id)).copied()
    }

    /// The place of the first key of this version with this fingerprint.
    pub fn first_by_fingerprint(&self, version: u8, octets: &[u8]) -> Option<usize>
        ensures { result ≡ first_by_print version octets.now (prints_shown self.now) }
    {
        if version == 4 {
            match <[u8; 20]>::try_from(octets) {
                Ok(four) => self.four.get(&four).copied(),
                Err(_) => None,
            }
        } else if version == 6 {
            match <[u8; 32]>::try_from(octets) {
                Ok(six) => self.six.get(&six).copied(),
                Err(_) => None,
            }
        } else {
            None
        }
    }
}

/// Notes the place of a key, unless there is one for its fingerprint already.
fn note<const N: usize>(
    map: &mut BTreeMap<[u8; N], usize>,
    key: [u8; N],
    at: usize,
) -> Result<(), OutOfMemory>
    ensures { OnOk result ((o : List ℕ) → get (slice_cmp nat_cmp) map.new o
        ≡ first_or (get (slice_cmp nat_cmp) map.old o) (bytes_eq key.entry o) at) }
{
    if map.get(&key).is_some() {
        return Ok(());
    }
    map.insert(key, at)?;
    Ok(())
}

/// Notes the place of a key, unless there is one for its key ID already.
fn note_id(ids: &mut BTreeMap<u64, usize>, id: [u8; 8], at: usize) -> Result<(), OutOfMemory>
    ensures { OnOk result ((o : List ℕ) → IsId o → get nat_cmp ids.new (from_be_bytes w64 o)
        ≡ first_or (get nat_cmp ids.old (from_be_bytes w64 o)) (bytes_eq id o) at) }
{
    let number = u64::from_be_bytes(id);
    if ids.get(&number).is_some() {
        return Ok(());
    }
    ids.insert(number, at)?;
    Ok(())
}
