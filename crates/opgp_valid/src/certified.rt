//! What the signatures of a certificate say, by verdicts on them.

ghost use Rattle.std.specs.Prelude.{◌≡◌, IfOk};
ghost use Rattle.opgp_packet.specs.Parsed.{body_octets};
ghost use Rattle.opgp_report.specs.First.{print_of};
ghost use Rattle.opgp_valid.specs.Facts.{FactsValue, facts_value};
ghost use Rattle.opgp_valid.specs.Judgement.{certified_facts, facts_by};
ghost use Rattle.opgp_valid.specs.KnownKeys.{knowns};
ghost use Rattle.opgp_valid.specs.Policy.{created_of, version_of};

use crate::context::Context;
use crate::facts::Facts;
use crate::gathering::statements_of;
use crate::known_keys::KnownKeys;
use crate::policy::Policy;
use crate::statement::Statement;
use opgp_keyring::Certificate;
use opgp_octets::OutOfMemory;
use opgp_packet::KeyView;
use opgp_report::{Verdict, print_of};
use std::alloc::Global;

/// A certificate: its primary key, and what its signatures say.
#[derive(Drop)]
pub struct Certified {
    version: u8,
    created: u32,
    statements: Vec<Statement>,
}

/// When a key was created, in seconds since 1970.
pub(crate) fn created_of(key: KeyView<'_>) -> u32
    ensures { result ≡ created_of (body_octets key.entry) }
{
    opgp_packet::key_laws::written(&key);
    key.created()
}

/// The version of a key.
fn version_of(key: KeyView<'_>) -> u8
    ensures { result ≡ version_of (body_octets key.entry) }
{
    opgp_packet::key_laws::written(&key);
    key.version()
}

impl Certified {
    /// What the signatures of a certificate say, by these verdicts on its rows in a report (those
    /// behind are left out; a row without one is undecided), and by this policy. `known` has the
    /// keys of its keyring. The work is linear in the certificate's octets.
    ///
    /// A verdict on a key revocation that is on a user ID, an attribute or a subkey is one over the
    /// primary key alone, which such a signature hashes (RFC 9580, 5.2.1.11, 5.2.4).
    ///
    /// Fails only when out of memory.
    pub fn of(
        alloc: Global,
        known: &KnownKeys,
        policy: Policy,
        certificate: &Certificate,
        verdicts: &[Verdict],
    ) -> Result<Certified, OutOfMemory>
        ensures { IfOk result (λ c. certified_facts c
            ≡ facts_by (knowns known.now) policy certificate.now verdicts.now) }
    {
        let key = certificate.key();
        let context = Context {
            known,
            policy,
            primary: print_of(&key),
        };
        let statements = statements_of(alloc, context, certificate, verdicts)?;
        Ok(Certified {
            version: version_of(key),
            created: created_of(key),
            statements,
        })
    }

    /// The same, borrowed.
    pub fn facts(&self) -> Facts<'_>
        ensures { facts_value result ≡ certified_facts self.now }
    {
        Facts {
            version: self.version,
            created: self.created,
            statements: &self.statements,
        }
    }
}
