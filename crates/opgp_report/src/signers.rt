//! The keys of a keyring that may have made its signatures.

ghost use Rattle.std.specs.Prelude.{◌≡◌, ◌++◌, ◌∷◌, [], map, IfOk};
ghost use Rattle.std.specs.List.{flat_map};
ghost use Rattle.std.specs.Option.{option_map};
ghost use Rattle.opgp_hash.specs.KeyId.{id_of};
ghost use Rattle.opgp_packet.specs.Parsed.{body_octets};
ghost use Rattle.opgp_packet.specs.SigView.{sig_view_value};
ghost use Rattle.opgp_keyring.specs.Grouped.{components_left};
ghost use Rattle.opgp_report.specs.First.{print_of};
ghost use Rattle.opgp_report.specs.KeyIndex.{prints_shown};
ghost use Rattle.opgp_report.specs.Report.{certificate_keys, keys_in, signer_in, subkey_bodies};

use crate::key_index::KeyIndex;
use crate::signing::signer;
use opgp_hash::{Fingerprint, KeyId, fingerprint_of_view};
use opgp_keyring::{Certificate, Components, Head, Keyring};
use opgp_octets::OutOfMemory;
use opgp_packet::{KeyView, SigView};
use std::alloc::Global;

/// A key, with its key ID.
#[derive(Clone, Copy)]
pub(crate) struct Signer<'a> {
    pub(crate) key: KeyView<'a>,
    pub(crate) id: KeyId,
    ghost named: { id.0 ≡ id_of (print_of (body_octets key)) },
}

/// Keys in order, with an index of their fingerprints and key IDs.
#[derive(Drop)]
pub(crate) struct Signers<'a> {
    keys: Vec<Signer<'a>>,
    names: KeyIndex,
    ghost named: { prints_shown names ≡ map (λ s. print_of (body_octets s.key)) keys.items },
}

impl<'a> Signers<'a> {
    ghost use Rattle.opgp_report.specs.Signers.{signers_keys};

    /// No keys yet.
    fn new(alloc: Global) -> Signers<'a>
        ensures { signers_keys result ≡ [] }
    {
        Signers {
            keys: Vec::new(alloc),
            names: KeyIndex::new(alloc),
        }
    }

    /// With this key appended. Fails only when out of memory.
    fn with(self, key: KeyView<'a>) -> Result<Signers<'a>, OutOfMemory>
        ensures { IfOk result (λ s.
            signers_keys s ≡ signers_keys self.entry ++ body_octets key.entry ∷ []) }
    {
        let Signers { mut keys, names } = self;
        let print = print_of(&key);
        let names = names.with(print)?;
        keys.push(Signer {
            key,
            id: print.key_id(),
        })?;
        Ok(Signers { keys, names })
    }

    /// With the subkeys of components. Fails only when out of memory.
    fn with_components(self, mut components: Components<'a>) -> Result<Signers<'a>, OutOfMemory>
        ensures { IfOk result (λ s. signers_keys s ≡ signers_keys self.entry
            ++ flat_map subkey_bodies (components_left components.entry)) }
    {
        let mut signers = self;
        'components: while let Some(component) = components.next() {
            if let Head::Subkey(key) = component.head().head() {
                signers = signers.with(key)?;
            }
        }
        Ok(signers)
    }

    /// With the keys of a certificate. Fails only when out of memory.
    fn with_certificate(self, certificate: &'a Certificate) -> Result<Signers<'a>, OutOfMemory>
        ensures { IfOk result (λ s. signers_keys s
            ≡ signers_keys self.entry ++ certificate_keys certificate.now) }
    {
        let signers = self.with(certificate.key())?;
        let signers = signers.with_components(certificate.components())?;
        Ok(signers)
    }

    /// The keys of a keyring. Each key is hashed once. Fails only when out of memory.
    pub(crate) fn of(alloc: Global, keyring: &'a Keyring) -> Result<Signers<'a>, OutOfMemory>
        ensures { IfOk result (λ s. signers_keys s ≡ keys_in keyring.now) }
    {
        let mut signers = Signers::new(alloc);
        let mut rest = keyring.certificates();
        'certificates: while let [certificate, more @ ..] = rest {
            signers = signers.with_certificate(certificate)?;
            rest = more;
        }
        Ok(signers)
    }

    /// The first key that the signature names as its issuer.
    pub(crate) fn find(&self, signature: SigView<'_>) -> Option<Signer<'a>>
        ensures { option_map (λ s. body_octets s.key) result
            ≡ signer_in (signers_keys self.now) (sig_view_value signature.entry) }
    {
        match signer(&self.names, signature) {
            Some(place) => match self.keys.get(place) {
                Some(key) => Some(*key),
                None => None,
            },
            None => None,
        }
    }
}

/// The index of a keyring's keys, each certificate's primary key before its subkeys. Each key is
/// hashed once. Fails only when out of memory.
pub fn index_keys(alloc: Global, keyring: &Keyring) -> Result<KeyIndex, OutOfMemory>
    ensures { IfOk result (λ n. prints_shown n ≡ map print_of (keys_in keyring.now)) }
{
    let Signers { keys, names } = Signers::of(alloc, keyring)?;
    drop(keys);
    Ok(names)
}

/// The fingerprint of a key (RFC 9580, 5.5.4). Hashes the key.
pub fn print_of(key: &KeyView<'_>) -> Fingerprint
    ensures { result ≡ print_of (body_octets key.now) }
{
    // Called for their contracts, which tie the version that is hashed to the body's first octet.
    let _body = key.body();
    let _version = key.version();
    fingerprint_of_view(*key)
}
