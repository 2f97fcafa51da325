//! Self-signatures that newer ones replace at a time.

ghost use Rattle.std.specs.Prelude.{◌≡◌, [], MatchOption, is_some};
ghost use Rattle.std.specs.List.{list_any};
ghost use Rattle.opgp_packet.specs.Areas.{hashed_subs};
ghost use Rattle.opgp_packet.specs.SigView.{sig_view_value};
ghost use Rattle.opgp_packet.specs.SubView.{sub_shown};
ghost use Rattle.opgp_packet.specs.Subs.{subs_to_come};
ghost use Rattle.opgp_keyring.specs.Member.{member_packet};
ghost use Rattle.opgp_valid.specs.Group.{binds, certifies, is_direct};
ghost use Rattle.opgp_valid.specs.Speaking.{later, made_at};
ghost use Rattle.opgp_valid.specs.Subpackets.{revoker_stated};
ghost use Rattle.opgp_valid.specs.Told.{is_same_number, type_in};
ghost use Rattle.opgp_bound.specs.Newest.{counts, is_before, is_replaced, is_rival, is_same_sort};
ghost use Rattle.opgp_bound.specs.Newest.{newest_made, newest_stays, replaced_in};
ghost use Rattle.opgp_bound.specs.Replacing.{time_of, times_on};

use crate::judged::Judged;
use crate::keeping::is_genuine;
use opgp_keyring::{Content, Member};
use opgp_octets::{SignatureType, SubpacketKind};
use opgp_packet::{SigView, SubView, Subs};
use opgp_valid::subpackets::made_in;
use opgp_valid::{Author, Statement};

/// Whether what a signature says counts at a time: it is good, by the primary key, not revoked, and
/// understood.
fn counts(statement: &Statement, at: u64) -> bool
    ensures { result ≡ counts at statement.now }
{
    statement.is_good()
        && !statement.is_revoked
        && statement.is_understood
        && matches!(statement.author, Author::Primary)
        && statement.is_alive(at)
}

/// Whether signatures of this type certify a user ID or a user attribute (RFC 9580, 5.2.1.4 to
/// 5.2.1.7).
fn certifies(kind: SignatureType) -> bool
    ensures { result ≡ certifies kind }
{
    matches!(
        kind,
        SignatureType::GenericCertification
            | SignatureType::PersonaCertification
            | SignatureType::CasualCertification
            | SignatureType::PositiveCertification
    )
}

/// Whether signatures of this type say something of the primary key itself (RFC 9580, 5.2.1.10).
fn is_direct(kind: SignatureType) -> bool
    ensures { result ≡ is_direct kind }
{
    matches!(kind, SignatureType::DirectKey)
}

/// Whether signatures of this type bind subkeys (RFC 9580, 5.2.1.8).
fn binds(kind: SignatureType) -> bool
    ensures { result ≡ binds kind }
{
    matches!(kind, SignatureType::SubkeyBinding)
}

/// Whether signatures of these types are of one sort: direct key signatures, certifications, or
/// subkey bindings.
fn is_same_sort(a: SignatureType, b: SignatureType) -> bool
    ensures { result ≡ is_same_sort a b }
{
    if is_direct(a) {
        is_direct(b)
    } else if certifies(a) {
        certifies(b)
    } else {
        binds(a) && binds(b)
    }
}

/// Whether two components are the same one, where None is the primary key.
fn is_same(a: Option<usize>, b: Option<usize>) -> bool
    ensures { result ≡ is_same_number a b }
{
    match (a, b) {
        (None, None) => true,
        (Some(a), Some(b)) => a == b,
        _ => false,
    }
}

/// Whether a signature counts at a time, is of this sort, and on the component of this number, or
/// on the primary key.
fn is_rival(statement: &Statement, component: Option<usize>, kind: SignatureType, at: u64) -> bool
    ensures { result ≡ is_rival at component kind statement.now }
{
    counts(statement, at)
        && is_same(statement.component, component)
        && is_same_sort(kind, statement.kind)
}

/// When a signature was made.
fn made_at(statement: &Statement) -> Option<u32>
    ensures { result ≡ made_at statement.now }
{
    match statement.life {
        Some(life) => Some(life.made),
        None => None,
    }
}

/// The later of two times.
fn later(a: Option<u32>, b: Option<u32>) -> Option<u32>
    ensures { result ≡ later a b }
{
    match (a, b) {
        (Some(a), Some(b)) => Some(a.max(b)),
        (Some(a), None) => Some(a),
        (None, b) => b,
    }
}

/// When the newest were made that count at a time, of this sort, on the component of this number or
/// on the primary key; None if there are none.
#[tactic(auto, using(opgp_valid::proofs::Sayings::later_assoc))]
fn newest_made(
    statements: &[Statement],
    component: Option<usize>,
    kind: SignatureType,
    at: u64,
) -> Option<u32>
    ensures { result ≡ newest_made at statements.now component kind }
{
    let mut found = None;
    let mut rest = statements;
    'statements: while let [statement, more @ ..] = rest {
        if is_rival(statement, component, kind, at) {
            found = later(found, made_at(statement));
        }
        rest = more;
    }
    found
}

/// When the newest signatures of each sort on a part of a certificate were made that count at a
/// time; None if there are none.
#[derive(Clone, Copy)]
pub(crate) struct Times {
    direct: Option<u32>,
    certification: Option<u32>,
    binding: Option<u32>,
}

impl Times {
    /// Those on the component of this number, or on the primary key, among statements that have all
    /// on it. The work is linear in the number of statements.
    pub(crate) fn on(statements: &[Statement], component: Option<usize>, at: u64) -> Times
        ensures { result ≡ times_on at statements.now component }
    {
        Times {
            direct: newest_made(statements, component, SignatureType::DirectKey, at),
            certification: newest_made(
                statements,
                component,
                SignatureType::GenericCertification,
                at,
            ),
            binding: newest_made(statements, component, SignatureType::SubkeyBinding, at),
        }
    }

    /// The time of the sort of this type.
    fn of(self, kind: SignatureType) -> Option<u32>
        ensures { result ≡ time_of self kind }
    {
        if is_direct(kind) {
            self.direct
        } else if certifies(kind) {
            self.certification
        } else if binds(kind) {
            self.binding
        } else {
            None
        }
    }
}

/// Whether the first time is before the second, if there are both.
fn is_before(a: Option<u32>, b: Option<u32>) -> bool
    ensures { result ≡ is_before a b }
{
    match (a, b) {
        (Some(a), Some(b)) => a < b,
        _ => false,
    }
}

/// The type of a signature of version 4 or 6 (RFC 9580, 5.2.1).
fn type_of(signature: SigView<'_>) -> SignatureType
    ensures { result ≡ type_in (sig_view_value signature.entry) }
{
    match signature {
        SigView::Four(view) => SignatureType::from(view.kind()),
        SigView::Six(view) => SignatureType::from(view.kind()),
        SigView::Three(_) | SigView::Other(_) => SignatureType::Other(0),
    }
}

/// The hashed area of a signature, if its version has one (RFC 9580, 5.2.3).
fn hashed_of<'a>(signature: SigView<'a>) -> Option<Subs<'a>>
    ensures { MatchOption result (hashed_subs (sig_view_value signature.entry) ≡ [])
        (λ s. subs_to_come s ≡ hashed_subs (sig_view_value signature.entry)) }
{
    match signature {
        SigView::Four(view) => Some(view.hashed()),
        SigView::Six(view) => Some(view.hashed()),
        SigView::Three(_) | SigView::Other(_) => None,
    }
}

/// Whether a subpacket names a key that may revoke (RFC 9580, 5.2.3.23).
fn is_revoker(subpacket: SubView<'_>) -> bool
    ensures { result ≡ is_some (revoker_stated (sub_shown subpacket.entry)) }
{
    if subpacket.kind() != SubpacketKind::RevocationKey.number() {
        return false;
    }
    match subpacket.octets() {
        [class, _algorithm, fingerprint @ ..] => *class >= 128 && fingerprint.len() == 20,
        _ => false,
    }
}

/// Whether an area names a key that may revoke (RFC 9580, 5.2.3.23).
fn names_revoker(subpackets: Subs<'_>) -> bool
    ensures { result
        ≡ list_any (λ s. is_some (revoker_stated s)) (subs_to_come subpackets.entry) }
{
    for subpacket in subpackets {
        if is_revoker(subpacket) {
            return true;
        }
    }
    false
}

/// Whether a signature is older than the newest of its sort, and names no key that may revoke.
fn is_replaced(times: Times, signature: SigView<'_>) -> bool
    ensures { result ≡ is_replaced (time_of times) (sig_view_value signature.entry) }
{
    match hashed_of(signature) {
        Some(hashed) => {
            is_before(made_in(hashed), times.of(type_of(signature))) && !names_revoker(hashed)
        }
        None => false,
    }
}

/// Whether a packet is such a signature.
fn is_replaced_in(times: Times, member: Member<'_>) -> bool
    ensures { result ≡ replaced_in (time_of times) (member_packet member.entry) }
{
    opgp_packet::signature_laws::signatures_are_read();
    match member.content() {
        Content::Signature(signature) => {
            // Called for its contract: the body is that of this signature.
            let _body = signature.body();
            is_replaced(times, signature)
        }
        Content::Malformed(_)
        | Content::Primary(_)
        | Content::Subkey(_)
        | Content::UserId(_)
        | Content::Attribute(_)
        | Content::Filler(_, _) => false,
    }
}

/// Whether a packet stays: it isn't a genuine self-signature that a newer one replaces.
pub(crate) fn newest_stays(times: Times, judged: &Judged<'_>) -> bool
    ensures { result ≡ newest_stays (time_of times) judged.now }
{
    !(is_genuine(judged.role) && is_replaced_in(times, judged.member))
}
