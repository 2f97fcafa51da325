//! What the packets of a certificate are there for, by the verdicts on its rows in a report.

ghost use Rattle.std.specs.Prelude.{◌≡◌, ◌≤◌, ◌*◌, ◌+◌, IfOk, drop, true};
ghost use Rattle.opgp_packet.specs.Parsed.{body_octets};
ghost use Rattle.opgp_packet.specs.SigView.{sig_view_octets};
ghost use Rattle.opgp_hash.specs.Subject.{subject_value};
ghost use Rattle.opgp_hash.specs.SubjectValue.{is_within};
ghost use Rattle.opgp_keyring.specs.Grouped.{component_of, components_left, hangs_left};
ghost use Rattle.opgp_keyring.specs.Member.{member_packet};
ghost use Rattle.opgp_report.specs.KeyIndex.{prints_shown};
ghost use Rattle.opgp_report.specs.Standing.{on_head};
ghost use Rattle.opgp_valid.specs.KnownKeys.{knowns};
ghost use Rattle.opgp_valid.specs.Told.{first_verdict};
ghost use Rattle.opgp_bound.specs.Judged.{component_rows, components_rows, judged};
ghost use Rattle.opgp_bound.specs.Judged.{judged_component, judged_components, judged_hangs};
ghost use Rattle.opgp_bound.specs.Judged.{rows_of, rows_on};

use crate::embedded::embedded;
use crate::issuers::is_issuer;
use crate::judged::{Judged, JudgedComponent};
use crate::role::{Context, Role};
use opgp_hash::Subject;
use opgp_keyring::{Component, Components, Content, Hangs, Head, Member};
use opgp_octets::OutOfMemory;
use opgp_packet::KeyView;
use opgp_report::Verdict;
use std::alloc::Global;

/// The verdicts behind this many.
pub(crate) fn behind(verdicts: &[Verdict], rows: usize) -> &[Verdict]
    ensures { result.now ≡ drop rows verdicts.now }
{
    &verdicts[rows.min(verdicts.len())..]
}

/// The first of these verdicts; where there is none it is undecided.
pub(crate) fn first_verdict(verdicts: &[Verdict]) -> Verdict
    ensures { result ≡ first_verdict verdicts.now }
{
    match verdicts {
        [verdict, ..] => *verdict,
        [] => Verdict::Undecided,
    }
}

/// What signatures on a component are made over.
pub(crate) fn subject_on<'a>(primary: KeyView<'a>, component: Component<'a>) -> Subject<'a>
    ensures value { subject_value result
        ≡ on_head (body_octets primary.entry) (component_of component.entry).head }
    ensures within { is_within (subject_value result) ≡ true }
{
    match component.head().head() {
        Head::UserId(id) => Subject::OnUserId(primary, id),
        Head::Attribute(attribute) => Subject::OnAttribute(primary, attribute),
        Head::Subkey(key) => Subject::Two(primary, key),
    }
}

impl Context<'_> {
    /// What a packet on a subject is there for, by the verdict in its row; and how many rows it
    /// has.
    pub(crate) fn judge<'a>(
        &self,
        subject: Subject<'a>,
        found: Verdict,
        member: Member<'a>,
    ) -> (Judged<'a>, usize)
        requires { is_within (subject_value subject) ≡ true }
        ensures judged { result.0 ≡ judged (knowns self.now.known.now) self.now.primary
            (subject_value subject.entry) found (member_packet member.entry) }
        ensures rows { result.1
            ≡ rows_of (subject_value subject.entry) (member_packet member.entry) }
    {
        opgp_packet::signature_laws::signatures_are_read();
        let (role, rows) = match member.content() {
            Content::Signature(signature) => {
                // Called for its contract: the body is that of this signature.
                let _body = signature.body();
                let role = self.role_of(subject, found, signature);
                (role, 1 + embedded(subject, signature))
            }
            Content::Malformed(_) => (Role::Other, 1),
            Content::Primary(_)
            | Content::Subkey(_)
            | Content::UserId(_)
            | Content::Attribute(_)
            | Content::Filler(_, _) => (Role::Other, 0),
        };
        (Judged { member, role }, rows)
    }

    /// What the packets on a subject are there for, by the verdicts from their first row on; and
    /// the verdicts behind. Fails only when out of memory.
    pub(crate) fn judge_hangs<'a, 'v>(
        &self,
        alloc: Global,
        subject: Subject<'a>,
        mut hangs: Hangs<'a>,
        verdicts: &'v [Verdict],
    ) -> Result<(Vec<Judged<'a>>, &'v [Verdict]), OutOfMemory>
        requires { is_within (subject_value subject) ≡ true }
        ensures judged { IfOk result (λ x. x.0.items ≡ judged_hangs (knowns self.now.known.now)
            self.now.primary (subject_value subject.entry) (hangs_left hangs.entry) verdicts.now) }
        ensures rest { IfOk result (λ x. x.1.now ≡ drop (rows_on (subject_value subject.entry)
            (hangs_left hangs.entry)) verdicts.now) }
    {
        let mut all = Vec::new(alloc);
        let mut rest = verdicts;
        'hangs: while let Some(member) = hangs.next() {
            let (judged, rows) = self.judge(subject, first_verdict(rest), member);
            all.push(judged)?;
            rest = behind(rest, rows);
        }
        Ok((all, rest))
    }

    /// The same of a component.
    fn judge_component<'a, 'v>(
        &self,
        alloc: Global,
        primary: KeyView<'a>,
        component: Component<'a>,
        verdicts: &'v [Verdict],
    ) -> Result<(JudgedComponent<'a>, &'v [Verdict]), OutOfMemory>
        ensures judged { IfOk result (λ x. x.0 ≡ judged_component (knowns self.now.known.now)
            self.now.primary (prints_shown self.now.issuers.now) (body_octets primary.entry)
            (component_of component.entry) verdicts.now) }
        ensures rest { IfOk result (λ x. x.1.now ≡ drop (component_rows
            (body_octets primary.entry) (component_of component.entry)) verdicts.now) }
    {
        let subject = subject_on(primary, component);
        let (hangs, rest) = self.judge_hangs(alloc, subject, component.hangs(), verdicts)?;
        let judged = JudgedComponent {
            head: component.head(),
            is_issuer: is_issuer(self.issuers, component),
            hangs,
        };
        Ok((judged, rest))
    }

    /// The same of the components of a certificate.
    pub(crate) fn judge_components<'a, 'v>(
        &self,
        alloc: Global,
        primary: KeyView<'a>,
        mut components: Components<'a>,
        verdicts: &'v [Verdict],
    ) -> Result<(Vec<JudgedComponent<'a>>, &'v [Verdict]), OutOfMemory>
        ensures judged { IfOk result (λ x. x.0.items ≡ judged_components
            (knowns self.now.known.now) self.now.primary (prints_shown self.now.issuers.now)
            (body_octets primary.entry) (components_left components.entry) verdicts.now) }
        ensures rest { IfOk result (λ x. x.1.now ≡ drop (components_rows
            (body_octets primary.entry) (components_left components.entry)) verdicts.now) }
    {
        let mut all = Vec::new(alloc);
        let mut rest = verdicts;
        'components: while let Some(component) = components.next() {
            let (judged, behind) = self.judge_component(alloc, primary, component, rest)?;
            all.push(judged)?;
            rest = behind;
        }
        Ok((all, rest))
    }
}
