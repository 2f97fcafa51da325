//! The keys of a keyring that its signatures may name as their issuers'.

ghost use Rattle.std.specs.Prelude.{◌≡◌, ◌++◌, ◌∷◌, [], map, IfOk};
ghost use Rattle.std.specs.List.{flat_map};
ghost use Rattle.opgp_packet.specs.Parsed.{body_octets};
ghost use Rattle.opgp_packet.specs.SigView.{sig_view_value};
ghost use Rattle.opgp_keyring.specs.Grouped.{components_left};
ghost use Rattle.opgp_report.specs.KeyIndex.{prints_shown};
ghost use Rattle.opgp_report.specs.Report.{certificate_keys, subkey_bodies};

use crate::certified::created_of;
use crate::strength::{is_strong, least_digest};
use opgp_hash::Fingerprint;
use opgp_keyring::{Certificate, Components, Head, Keyring};
use opgp_octets::OutOfMemory;
use opgp_packet::{KeyView, SigView};
use opgp_report::{KeyIndex, print_of, signer};
use std::alloc::Global;

/// What is known of a key.
#[derive(Clone, Copy)]
pub struct Known {
    /// Its fingerprint.
    pub print: Fingerprint,
    /// When it was created, in seconds since 1970.
    pub created: u32,
    /// Whether it is strong enough for [`Policy::Usual`].
    ///
    /// [`Policy::Usual`]: crate::Policy::Usual
    pub is_strong: bool,
    /// How many octets the digests have at least that it signs.
    pub least_digest: usize,
}

/// The keys of a keyring, in order, with an index of their fingerprints and key IDs.
#[derive(Drop)]
pub struct KnownKeys {
    keys: Vec<Known>,
    names: KeyIndex,
    ghost named: { prints_shown names ≡ map (λ k. k.print) keys.items },
}

impl KnownKeys {
    ghost use Rattle.opgp_valid.specs.KnownKeys.{issuer_among, known_in, known_of, knowns};

    /// No keys yet.
    fn new(alloc: Global) -> KnownKeys
        ensures { knowns result ≡ [] }
    {
        KnownKeys {
            keys: Vec::new(alloc),
            names: KeyIndex::new(alloc),
        }
    }

    /// With this key appended. Fails only when out of memory.
    fn with(self, key: KeyView<'_>) -> Result<KnownKeys, OutOfMemory>
        ensures { IfOk result (λ k.
            knowns k ≡ knowns self ++ known_of (body_octets key.entry) ∷ []) }
    {
        let KnownKeys { mut keys, names } = self;
        let known = Known {
            print: print_of(&key),
            created: created_of(key),
            is_strong: is_strong(key),
            least_digest: least_digest(key),
        };
        let names = names.with(known.print)?;
        keys.push(known)?;
        Ok(KnownKeys { keys, names })
    }

    /// With the subkeys of components. Fails only when out of memory.
    fn with_components(self, mut components: Components<'_>) -> Result<KnownKeys, OutOfMemory>
        ensures { IfOk result (λ k. knowns k ≡ knowns self
            ++ map known_of (flat_map subkey_bodies (components_left components.entry))) }
    {
        let mut known = self;
        'components: while let Some(component) = components.next() {
            if let Head::Subkey(key) = component.head().head() {
                known = known.with(key)?;
            }
        }
        Ok(known)
    }

    /// With the keys of a certificate. Fails only when out of memory.
    fn with_certificate(self, certificate: &Certificate) -> Result<KnownKeys, OutOfMemory>
        ensures { IfOk result (λ k. knowns k
            ≡ knowns self ++ map known_of (certificate_keys certificate.now)) }
    {
        let known = self.with(certificate.key())?;
        let known = known.with_components(certificate.components())?;
        Ok(known)
    }

    /// The keys of a keyring: each certificate's primary key before its subkeys. Each key is hashed
    /// once. Fails only when out of memory.
    pub fn of(alloc: Global, keyring: &Keyring) -> Result<KnownKeys, OutOfMemory>
        ensures { IfOk result (λ k. knowns k ≡ known_in keyring.now) }
    {
        let mut known = KnownKeys::new(alloc);
        let mut rest = keyring.certificates();
        'certificates: while let [certificate, more @ ..] = rest {
            known = known.with_certificate(certificate)?;
            rest = more;
        }
        Ok(known)
    }

    /// The first key that a signature names as its issuer's (RFC 9580, 5.2.3.12, 5.2.3.35).
    pub fn issuer(&self, signature: SigView<'_>) -> Option<Known>
        ensures { result ≡ issuer_among (knowns self.now) (sig_view_value signature.entry) }
    {
        match signer(&self.names, signature) {
            Some(place) => self.keys.get(place).copied(),
            None => None,
        }
    }
}
