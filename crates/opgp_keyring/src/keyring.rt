//! Keyrings.

ghost use Rattle.std.specs.Prelude.{◌≡◌, ◌++◌, ◌∷◌, [], List, IfOk, OnErr, OnOk};
ghost use Rattle.opgp_keyring.specs.Composed.{PartValue};
ghost use Rattle.opgp_keyring.specs.Keyring.{KeyringValue, IsKeyring};
ghost use Rattle.opgp_keyring.specs.Member.{members_left};
ghost use Rattle.opgp_keyring.specs.Parts.{AreParts, HasParts};
ghost use Rattle.opgp_keyring.specs.State.{part_of};

use crate::certificate::Certificate;
use crate::copying::copy_all;
use crate::lead::Lead;
use crate::members::Members;
use crate::ready::Ready;
use opgp_octets::OutOfMemory;
use std::alloc::Global;
use std::marker::Model;
use std::mem;

/// A keyring: fillers, then certificates (RFC 9580, 10.1).
#[derive(Drop)]
pub struct Keyring {
    alloc: Global,
    lead: Lead,
    certificates: Vec<Certificate>,
}

impl Model for Keyring {
    ghost use Rattle.opgp_keyring.specs.Keyring.{KeyringValue, IsKeyring};

    ghost Value = { KeyringValue };

    ghost view = { λ r. record { lead = r.lead; certificates = r.certificates.items } };

    ghost invariant = { λ r.
        IsKeyring (record { lead = r.lead; certificates = r.certificates.items }) };
}

impl Keyring {
    /// A keyring of its parts.
    pub fn new(alloc: Global, lead: Lead, certificates: Vec<Certificate>) -> Keyring
        requires { IsKeyring (record { lead = lead; certificates = certificates.items }) }
        ensures { result ≡ record { lead = lead; certificates = certificates.items } }
    {
        Keyring {
            alloc,
            lead,
            certificates,
        }
    }

    /// An empty keyring. Allocates nothing.
    pub fn empty(alloc: Global) -> Keyring
        ensures { result ≡ record { lead = []; certificates = [] } }
    {
        Keyring::new(alloc, Lead::new(alloc), Vec::new(alloc))
    }

    /// The keyring of one certificate. Fails only when out of memory.
    pub fn of(alloc: Global, certificate: Certificate) -> Result<Keyring, OutOfMemory>
        ensures { IfOk result (λ r. r ≡ record { lead = []; certificates = certificate ∷ [] }) }
    {
        let mut keyring = Keyring::empty(alloc);
        keyring.add(certificate)?;
        Ok(keyring)
    }

    /// Takes these fillers as those before the first certificate.
    pub(crate) fn begin(&mut self, lead: Lead)
        ensures { self.new ≡ record { lead = lead; certificates = self.old.certificates } }
    {
        drop(mem::replace(&mut self.lead, lead));
    }

    /// Adds a certificate. Fails only when out of memory; the keyring is then unchanged.
    pub(crate) fn add(&mut self, certificate: Certificate) -> Result<(), OutOfMemory>
        ensures ok { OnOk result (self.new ≡ record {
          lead = self.old.lead;
          certificates = self.old.certificates ++ certificate ∷ [];
        }) }
        ensures err { OnErr result (self.new ≡ self.old) }
    {
        // Called for its contract: this is a certificate.
        let _known = certificate.primary();
        self.certificates.push(certificate)?;
        Ok(())
    }

    /// Keeps the next part: the fillers before the first certificate, or a certificate behind those
    /// that are kept (RFC 9580, 10.1).
    ///
    /// Fails only when out of memory; nothing is known then of what is kept.
    pub fn keep(&mut self, part: Ready) -> Result<(), OutOfMemory>
        ensures { OnOk result ((parts : List PartValue) → HasParts self.old parts
            → AreParts (parts ++ part_of part ∷ [])
            → HasParts self.new (parts ++ part_of part ∷ [])) }
    {
        match part {
            Ready::Lead(lead) => {
                self.begin(lead);
                Ok(())
            }
            Ready::Certificate(certificate) => {
                self.add(certificate)?;
                Ok(())
            }
        }
    }

    /// The fillers before the first certificate, the certificates, and the allocator.
    pub fn into_parts(self) -> (Lead, Vec<Certificate>, Global)
        ensures lead { result.0 ≡ self.lead }
        ensures certificates { result.1.items ≡ self.certificates }
        ensures keyring { IsKeyring self }
    {
        let Keyring {
            alloc,
            lead,
            certificates,
        } = self;
        (lead, certificates, alloc)
    }

    /// The fillers before the first certificate.
    pub fn lead(&self) -> Members<'_>
        ensures value { members_left result ≡ self.now.lead }
        ensures keyring { IsKeyring self.now }
    {
        self.lead.packets()
    }

    /// The certificates, in order.
    pub fn certificates(&self) -> &[Certificate]
        ensures value { result.now ≡ self.now.certificates }
        ensures keyring { IsKeyring self.now }
    {
        &self.certificates
    }

    /// A copy of this keyring. Fails only when out of memory.
    pub fn copy(&self, alloc: Global) -> Result<Keyring, OutOfMemory>
        ensures { IfOk result (λ r. r ≡ self.now) }
    {
        let lead = self.lead.copy(alloc)?;
        let certificates = copy_all(
            alloc,
            &self.certificates,
            |certificate| certificate.copy(alloc),
        )?;
        Ok(Keyring {
            alloc,
            lead,
            certificates,
        })
    }
}
