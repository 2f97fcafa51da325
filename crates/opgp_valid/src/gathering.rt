//! What the signatures of a certificate say, gathered.

ghost use Rattle.std.specs.Prelude.{◌≡◌, ◌∷◌, [], Some, map, ◌++◌, IfOk, OnOk};
ghost use Rattle.std.specs.Option.{option_map};
ghost use Rattle.opgp_packet.specs.SigView.{sig_view_value};
ghost use Rattle.opgp_hash.specs.Subject.{subject_value};
ghost use Rattle.opgp_hash.specs.SubjectValue.{is_within};
ghost use Rattle.opgp_report.specs.First.{print_of};
ghost use Rattle.opgp_report.specs.KeyIndex.{prints_shown};
ghost use Rattle.opgp_valid.specs.KnownKeys.{knowns};
ghost use Rattle.opgp_packet.specs.Subs.{subs_to_come};
ghost use Rattle.opgp_valid.specs.Gathering.{Gathers, with_life};
ghost use Rattle.opgp_valid.specs.Told.{back_in, change_last, holds, is_by_subkey, is_user_id};
ghost use Rattle.opgp_octets.specs.declared.subpacket_kind.SubpacketKind.TheVariants as kinds;
ghost use Rattle.opgp_valid.specs.Subpackets.{numbers_in};
ghost use Rattle.opgp_valid.specs.Told.{life_by, lives_of, second_key};
ghost use Rattle.opgp_valid.specs.Told.{stated, statements_of, with_back, with_embedded};

use crate::asking::{is_genuine, next_verdict};
use crate::context::{Context, is_print, is_understood, life_in, parts_of};
use crate::known_keys::Known;
use crate::naming::revokers_of;
use crate::revoking::with_revocations;
use crate::statement::{Life, Statement};
use crate::subpackets::{
    has_flags, is_main_in, key_lasts, reason_in, signature_lasts, states_time, time_stated,
    uses_in_area,
};
use opgp_hash::{CertificateHasher, Subject};
use opgp_keyring::Certificate;
use opgp_octets::OutOfMemory;
use opgp_packet::{SigView, Subs};
use opgp_report::{KeyIndex, Met, Place, Verdict, Visitor, print_of, visit_certificate};
use std::alloc::Global;

/// Adds what genuine signatures say, if it counts.
#[derive(Drop)]
pub(crate) struct Gatherer<'v> {
    pub(crate) context: Context<'v>,
    pub(crate) revokers: &'v KeyIndex,
    pub(crate) verdicts: &'v [Verdict],
    pub(crate) statements: Vec<Statement>,
}

/// Whether a statement is that of the signature in which the one at this place is embedded.
fn holds(place: Place, statement: &Statement) -> bool
    ensures { result ≡ holds place statement.now }
{
    let is_same = match (statement.component, place.component) {
        (None, None) => true,
        (Some(a), Some(b)) => a == b,
        _ => false,
    };
    is_same && statement.hang == place.hang
}

/// A statement with the life of the signature at this place, if it is embedded in its signature.
fn with_back(place: Place, life: Option<Life>, statement: Statement) -> Statement
    ensures { result ≡ with_back place life statement }
{
    if holds(place, &statement) {
        Statement {
            back: life,
            ..statement
        }
    } else {
        statement
    }
}

/// Whether a subject is a user ID.
fn is_user_id(subject: Subject<'_>) -> bool
    ensures { result ≡ is_user_id (subject_value subject.entry) }
{
    matches!(subject, Subject::OnUserId(_, _))
}

/// Whether a key is the subkey of a subject.
fn is_by_subkey(subject: Subject<'_>, issuer: Option<Known>) -> bool
    ensures { result ≡ is_by_subkey (second_key (subject_value subject.entry)) issuer }
{
    match subject {
        Subject::Two(_, subkey) => is_print(print_of(&subkey), issuer),
        _ => false,
    }
}

/// The life of a signature over a subject, if it is good and by the subkey.
fn back_in(context: Context<'_>, subject: Subject<'_>, signature: SigView<'_>) -> Option<Life>
    ensures { result ≡ back_in (knowns context.entry.known.now) context.entry.policy
        context.entry.primary (second_key (subject_value subject.entry))
        (sig_view_value signature.entry) }
{
    let parts = parts_of(signature)?;
    let issuer = context.known.issuer(signature);
    if is_by_subkey(subject, issuer) && is_understood(&parts) && context.is_good(&parts, issuer) {
        life_in(parts.hashed)
    } else {
        None
    }
}

impl<'v> Gatherer<'v> {
    /// Adds what a signature at this place says, if it counts. Fails only when out of memory.
    #[tactic(auto, using(crate::proofs::Times::stated_at))]
    fn add(
        &mut self,
        place: Place,
        subject: Subject<'_>,
        signature: SigView<'_>,
    ) -> Result<(), OutOfMemory>
        ensures told { OnOk result (self.new.statements.items ≡ self.old.statements.items
            ++ stated (knowns self.old.context.known.now) self.old.context.policy
            self.old.context.primary (prints_shown self.old.revokers.now) place
            (subject_value subject.entry) (sig_view_value signature.entry)) }
        ensures context { self.new.context ≡ self.old.context }
        ensures revokers { self.new.revokers ≡ self.old.revokers }
        ensures verdicts { self.new.verdicts ≡ self.old.verdicts }
    {
        let context = self.context;
        let issuer = context.known.issuer(signature);
        let Some(author) = context.author_of(self.revokers, issuer) else {
            return Ok(());
        };
        let Some(parts) = parts_of(signature) else {
            return Ok(());
        };
        let told = Statement {
            kind: parts.kind,
            component: place.component,
            is_on_user_id: is_user_id(subject),
            hang: place.hang,
            author,
            is_understood: is_understood(&parts),
            doubt: context.doubt_of(&parts, issuer),
            life: None,
            key_lasts: key_lasts(parts.hashed),
            has_flags: has_flags(parts.hashed),
            uses: uses_in_area(parts.hashed),
            is_main: is_main_in(parts.hashed),
            is_revoked: false,
            back: None,
            reason: reason_in(parts.hashed),
        };
        add_times(&mut self.statements, told, parts.hashed)
    }
}

/// Adds what a signature says at each creation time in its hashed area; one that states none never
/// counts. Fails only when out of memory.
fn add_times(
    statements: &mut Vec<Statement>,
    told: Statement,
    hashed: Subs<'_>,
) -> Result<(), OutOfMemory>
    ensures { OnOk result (statements.new.items ≡ statements.old.items
        ++ map (with_life told) (lives_of (subs_to_come hashed.entry))) }
{
    if states_time(hashed) {
        add_each_time(statements, told, hashed, signature_lasts(hashed))
    } else {
        add_at(statements, told, None)
    }
}

/// Adds what a signature says at each creation time in its hashed area, and for so long from then
/// on. Fails only when out of memory.
fn add_each_time(
    statements: &mut Vec<Statement>,
    told: Statement,
    hashed: Subs<'_>,
    lasts: u32,
) -> Result<(), OutOfMemory>
    ensures { OnOk result (statements.new.items ≡ statements.old.items
        ++ map (λ made. with_life told (Some (life_by lasts made)))
        (numbers_in kinds.Created (subs_to_come hashed.entry))) }
{
    for subpacket in hashed {
        if let Some(made) = time_stated(subpacket) {
            add_at(statements, told, Some(Life { made, lasts }))?;
        }
    }
    Ok(())
}

/// Adds what a signature says with this life. Fails only when out of memory.
fn add_at(
    statements: &mut Vec<Statement>,
    told: Statement,
    life: Option<Life>,
) -> Result<(), OutOfMemory>
    ensures { OnOk result (statements.new.items
        ≡ statements.old.items ++ with_life told life ∷ []) }
{
    statements.push(Statement { life, ..told })?;
    Ok(())
}

impl Gatherer<'_> {
    /// Adds the life of a signature at this place over a subject to what the one says that it is
    /// embedded in, if it is the first there, good, and by the subkey. Fails only when out of
    /// memory.
    fn add_embedded(
        &mut self,
        place: Place,
        subject: Subject<'_>,
        signature: SigView<'_>,
    ) -> Result<(), OutOfMemory>
        ensures told { OnOk result (self.new.statements.items
            ≡ with_embedded (knowns self.old.context.known.now) self.old.context.policy
            self.old.context.primary (prints_shown self.old.revokers.now) place
            (second_key (subject_value subject.entry)) (sig_view_value signature.entry)
            self.old.statements.items) }
        ensures context { self.new.context ≡ self.old.context }
        ensures revokers { self.new.revokers ≡ self.old.revokers }
        ensures verdicts { self.new.verdicts ≡ self.old.verdicts }
    {
        if place.nested == Some(0) {
            let life = back_in(self.context, subject, signature);
            change_last(&mut self.statements, place, life)?;
        }
        Ok(())
    }
}

/// Adds a life to the last statement, if it is that of the signature in which the one at this place
/// is embedded. Fails only when out of memory.
fn change_last(
    statements: &mut Vec<Statement>,
    place: Place,
    life: Option<Life>,
) -> Result<(), OutOfMemory>
    ensures { OnOk result (statements.new.items
        ≡ change_last (with_back place life) statements.old.items) }
{
    if let Some(last) = statements.pop() {
        statements.push(with_back(place, life, last))?;
    }
    Ok(())
}

impl<'a> Visitor<'a> for Gatherer<'_> {
    type Stop = OutOfMemory;

    ghost becomes = { Gathers };

    fn meet(
        &mut self,
        hasher: &mut CertificateHasher<'a>,
        met: &Met<'a>,
    ) -> Result<(), OutOfMemory> {
        let (verdict, rest) = next_verdict(self.verdicts);
        self.verdicts = rest;
        let Some(signature) = met.signature else {
            return Ok(());
        };
        if !is_genuine(hasher, met, verdict) {
            return Ok(());
        }
        if met.place.nested.is_none() {
            self.add(met.place, hasher.subject(), signature)
        } else {
            self.add_embedded(met.place, hasher.subject(), signature)
        }
    }
}

/// What the signatures of a certificate say, by these verdicts on its rows in a report. Fails only
/// when out of memory.
pub(crate) fn statements_of(
    alloc: Global,
    context: Context<'_>,
    certificate: &Certificate,
    verdicts: &[Verdict],
) -> Result<Vec<Statement>, OutOfMemory>
    requires { context.primary ≡ print_of certificate.now.primary.body }
    ensures { IfOk result (λ v. v.items ≡ statements_of (knowns context.entry.known.now)
        context.entry.policy certificate.now verdicts.now) }
{
    let revokers = revokers_of(alloc, context, certificate, verdicts)?;
    let mut gatherer = Gatherer {
        context,
        revokers: &revokers,
        verdicts,
        statements: Vec::new(alloc),
    };
    visit_certificate(&mut gatherer, 0, certificate)?;
    let Gatherer { statements, .. } = gatherer;
    with_revocations(alloc, statements)
}
