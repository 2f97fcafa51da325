//! What is found of the signatures of a certificate, by the verdicts on them.

ghost use Rattle.std.specs.Prelude.{◌≡◌, ◌||◌, not, IfNone, IfSome, None, is_none, is_some, true};
ghost use Rattle.opgp_packet.specs.Areas.{hashed_subs, unhashed_subs};
ghost use Rattle.opgp_packet.specs.SigView.{sig_view_value};
ghost use Rattle.opgp_packet.specs.Subs.{subs_to_come};
ghost use Rattle.opgp_hash.specs.SignedValue.{signed_of};
ghost use Rattle.opgp_hash.specs.Subject.{subject_value};
ghost use Rattle.opgp_hash.specs.SubjectValue.{first_key};
ghost use Rattle.opgp_report.specs.KeyIndex.{prints_shown};
ghost use Rattle.opgp_valid.specs.KnownKeys.{knowns};
ghost use Rattle.opgp_valid.specs.Subpackets.{has_unknown_critical};
ghost use Rattle.opgp_valid.specs.Told.{author_of, doubt_by, hash_in, is_asked_alone, is_of_age};
ghost use Rattle.opgp_valid.specs.Told.{is_print, is_print_among, life_of, relies_with, type_in};

use crate::doubt::Doubt;
use crate::known_keys::{Known, KnownKeys};
use crate::policy::Policy;
use crate::statement::{Author, Life};
use crate::subpackets::{has_unfit, has_unknown_critical, made_in, signature_lasts};
use opgp_hash::{Fingerprint, Site, Subject, ask_at};
use opgp_octets::SignatureType;
use opgp_packet::{SigView, Subs};
use opgp_report::{IssuerName, KeyIndex};

/// The keys that are known, a policy, and the fingerprint of a certificate's primary key.
#[derive(Clone, Copy)]
pub(crate) struct Context<'k> {
    pub(crate) known: &'k KnownKeys,
    pub(crate) policy: Policy,
    pub(crate) primary: Fingerprint,
}

/// A signature of version 4 or 6: its type, its hash algorithm and its areas.
#[derive(Clone, Copy)]
pub(crate) struct Read<'a> {
    pub(crate) kind: SignatureType,
    pub(crate) hash: u8,
    pub(crate) hashed: Subs<'a>,
    pub(crate) unhashed: Subs<'a>,
}

/// The parts of a signature of version 4 or 6.
pub(crate) fn parts_of<'a>(signature: SigView<'a>) -> Option<Read<'a>>
    ensures kind { IfSome result (λ r. r.kind ≡ type_in (sig_view_value signature.entry)) }
    ensures hash { IfSome result (λ r. r.hash ≡ hash_in (sig_view_value signature.entry)) }
    ensures hashed { IfSome result (λ r.
        subs_to_come r.hashed ≡ hashed_subs (sig_view_value signature.entry)) }
    ensures unhashed { IfSome result (λ r.
        subs_to_come r.unhashed ≡ unhashed_subs (sig_view_value signature.entry)) }
    ensures none { IfNone result (signed_of (sig_view_value signature.entry) ≡ None) }
    ensures some { IfSome result (λ r.
        is_some (signed_of (sig_view_value signature.entry)) ≡ true) }
{
    match signature {
        SigView::Four(view) => Some(Read {
            kind: SignatureType::from(view.kind()),
            hash: view.hash(),
            hashed: view.hashed(),
            unhashed: view.unhashed(),
        }),
        SigView::Six(view) => Some(Read {
            kind: SignatureType::from(view.kind()),
            hash: view.hash(),
            hashed: view.hashed(),
            unhashed: view.unhashed(),
        }),
        SigView::Three(_) | SigView::Other(_) => None,
    }
}

/// Whether a key is the one of this fingerprint.
pub(crate) fn is_print(print: Fingerprint, key: Option<Known>) -> bool
    ensures { result ≡ is_print print key }
{
    match key {
        Some(known) => {
            known.print.version() == print.version() && known.print.octets() == print.octets()
        }
        None => false,
    }
}

/// Whether a key is one of those in an index.
fn is_print_among(prints: &KeyIndex, key: Option<Known>) -> bool
    ensures { result ≡ is_print_among (prints_shown prints.now) key }
{
    let Some(known) = key else {
        return false;
    };
    prints.find(IssuerName::Print(known.print)).is_some()
}

/// Whether a revocation of the primary key is hashed over that key alone, which a subject begins
/// with (RFC 9580, 5.2.1.11).
pub(crate) fn is_asked_alone(subject: Subject<'_>, signature: SigView<'_>) -> bool
    ensures { result ≡ is_asked_alone (first_key (subject_value subject.entry))
        (sig_view_value signature.entry) }
{
    let primary = match subject {
        Subject::Binary(_) => return false,
        Subject::One(primary)
        | Subject::Two(primary, _)
        | Subject::OnUserId(primary, _)
        | Subject::OnAttribute(primary, _) => primary,
    };
    ask_at(Site::Hung, signature, Subject::One(primary)).is_ok()
}

/// From when a signature counts, and how long; None if it doesn't state one time.
pub(crate) fn life_in(hashed: Subs<'_>) -> Option<Life>
    ensures { result ≡ life_of (subs_to_come hashed.entry) }
{
    match made_in(hashed) {
        Some(made) => Some(Life {
            made,
            lasts: signature_lasts(hashed),
        }),
        None => None,
    }
}

/// Whether a signature of this life wasn't made before its issuer's key.
fn is_of_age(life: Option<Life>, issuer: Option<Known>) -> bool
    ensures { result ≡ is_of_age life issuer }
{
    match (life, issuer) {
        (Some(life), Some(known)) => known.created <= life.made,
        _ => false,
    }
}

/// Whether a policy relies on a signature with this hash algorithm by this key.
pub(crate) fn relies_with(policy: Policy, hash: u8, issuer: Option<Known>) -> bool
    ensures { result ≡ relies_with policy hash issuer }
{
    match issuer {
        Some(known) => policy.relies_on(hash, known.is_strong, known.least_digest),
        None => false,
    }
}

/// Whether nothing critical in a signature is unknown (RFC 9580, 5.2.3.7).
pub(crate) fn is_understood(read: &Read<'_>) -> bool
    ensures { result ≡ not (has_unknown_critical (subs_to_come read.now.hashed)
        || has_unknown_critical (subs_to_come read.now.unhashed)) }
{
    !(has_unknown_critical(read.hashed) || has_unknown_critical(read.unhashed))
}

impl Context<'_> {
    /// Why a signature by this key isn't good, if it isn't: the first that holds.
    #[tactic(auto, unfolding(crate::specs::Told::doubt_by))]
    pub(crate) fn doubt_of(&self, read: &Read<'_>, issuer: Option<Known>) -> Option<Doubt>
        ensures { result ≡ doubt_by self.now.policy read.now.hash (subs_to_come read.now.hashed)
            issuer }
    {
        let life = life_in(read.hashed);
        if !relies_with(self.policy, read.hash, issuer) {
            Some(Doubt::Weak)
        } else if has_unfit(read.hashed) {
            Some(Doubt::Malformed)
        } else if life.is_none() {
            Some(Doubt::Undated)
        } else if !is_of_age(life, issuer) {
            Some(Doubt::Young)
        } else {
            None
        }
    }

    /// Whether a signature by this key is good.
    pub(crate) fn is_good(&self, read: &Read<'_>, issuer: Option<Known>) -> bool
        ensures { result ≡ is_none (doubt_by self.now.policy read.now.hash
            (subs_to_come read.now.hashed) issuer) }
    {
        self.doubt_of(read, issuer).is_none()
    }

    /// Whose a signature by this key is, if what it says counts.
    pub(crate) fn author_of(&self, revokers: &KeyIndex, issuer: Option<Known>) -> Option<Author>
        ensures { result ≡ author_of (knowns self.now.known.now) self.now.policy self.now.primary
            (prints_shown revokers.now) issuer }
    {
        if is_print(self.primary, issuer) {
            Some(Author::Primary)
        } else if is_print_among(revokers, issuer) {
            Some(Author::Revoker)
        } else {
            None
        }
    }
}
