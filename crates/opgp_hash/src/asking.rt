//! The hashed data of a signature over a subject.

ghost use Rattle.std.specs.Prelude.{◌≡◌, true, IfSome, IfNone, IfOk, Some, None};
ghost use Rattle.opgp_octets.specs.Reading.{Reads};
ghost use Rattle.opgp_packet.specs.SigView.{sig_view_value, sig_view_octets};
ghost use Rattle.opgp_packet.specs.Signature.{signature_value, signature_octets};
ghost use Rattle.opgp_hash.specs.Asking.{ask_of, ask_at_of, asked, why_not};
ghost use Rattle.opgp_hash.specs.Hashed.{front_hashed};
ghost use Rattle.opgp_hash.specs.Question.{question_value};
ghost use Rattle.opgp_hash.specs.QuestionValue.{IsQuestion};
ghost use Rattle.opgp_hash.specs.Signed.{signed_value};
ghost use Rattle.opgp_hash.specs.SignedValue.{signed_of, signed_front, BeginsWith};
ghost use Rattle.opgp_hash.specs.Site.{is_asked_at};
ghost use Rattle.opgp_hash.specs.Subject.{subject_value};
ghost use Rattle.opgp_hash.specs.SubjectValue.{is_about, is_within};

use crate::kinds::{are_keys_of, is_about, is_asked_at, is_hash, is_kind, is_one};
use crate::question::Question;
use crate::signed::Signed;
use crate::site::Site;
use crate::subject::Subject;
use crate::why::Why;
use opgp_octets::SignatureType;
use opgp_packet::{SigView, Signature};

/// What is hashed for the signature over this subject, or the first reason why nothing is.
/// Allocates nothing.
///
/// The condition is that the subject fits, which [`Subject::fits`] tells.
pub fn ask<'a>(signature: &'a Signature, subject: Subject<'a>) -> Result<Question<'a>, Why>
    requires { is_within (subject_value subject) ≡ true }
    ensures exact { Reads question_value result
        (ask_of (signature_value signature.now) (subject_value subject.entry)) }
    // What is returned is a question.
    ensures question { IfOk result (λ q. IsQuestion (question_value q)) }
    // It is over this subject.
    ensures subject { IfOk result (λ q.
        (question_value q).subject ≡ subject_value subject.entry) }
    // Its signature's fields are those of this body.
    ensures front { IfOk result (λ q.
        BeginsWith (signature_octets signature.now) (front_hashed (question_value q))) }
{
    ask_view(signature.view(), subject)
}

/// What is hashed for the viewed signature over this subject, or the first reason why nothing is.
/// Allocates nothing.
///
/// The condition is that the subject fits, which [`Subject::fits`] tells.
pub fn ask_view<'a>(signature: SigView<'a>, subject: Subject<'a>) -> Result<Question<'a>, Why>
    requires { is_within (subject_value subject) ≡ true }
    ensures exact { Reads question_value result
        (ask_of (sig_view_value signature.entry) (subject_value subject.entry)) }
    // What is returned is a question.
    ensures question { IfOk result (λ q. IsQuestion (question_value q)) }
    // It is over this subject.
    ensures subject { IfOk result (λ q.
        (question_value q).subject ≡ subject_value subject.entry) }
    // Its signature's fields are those of this body.
    ensures front { IfOk result (λ q.
        BeginsWith (sig_view_octets signature.entry) (front_hashed (question_value q))) }
{
    match signed(signature) {
        None => Err(Why::Opaque),
        Some(signed) => asked(signed, subject, is_about(signed.kind, &subject)),
    }
}

/// What is hashed for the signature over this subject at this site in a certificate, or the first
/// reason why nothing is. Allocates nothing.
///
/// It is what [`ask_view`] returns, except that a primary key binding (type 19) counts only where
/// it is embedded, and nothing else does there. The condition is that the subject fits, which
/// [`Subject::fits`] tells.
#[inline(always)]
pub fn ask_at<'a>(
    site: Site,
    signature: SigView<'a>,
    subject: Subject<'a>,
) -> Result<Question<'a>, Why>
    requires { is_within (subject_value subject) ≡ true }
    ensures exact { Reads question_value result
        (ask_at_of site (sig_view_value signature.entry) (subject_value subject.entry)) }
    // What is returned is a question.
    ensures question { IfOk result (λ q. IsQuestion (question_value q)) }
    // It is over this subject.
    ensures subject { IfOk result (λ q.
        (question_value q).subject ≡ subject_value subject.entry) }
    // Its signature's fields are those of this body.
    ensures front { IfOk result (λ q.
        BeginsWith (sig_view_octets signature.entry) (front_hashed (question_value q))) }
{
    match signed(signature) {
        None => Err(Why::Opaque),
        Some(signed) => asked(signed, subject, is_asked_at(site, signed.kind, &subject)),
    }
}

/// The parts of the signature that are hashed, in versions 4 and 6.
fn signed<'a>(signature: SigView<'a>) -> Option<Signed<'a>>
    ensures some { IfSome result (λ s.
        signed_of (sig_view_value signature.entry) ≡ Some (signed_value s)) }
    ensures none { IfNone result (signed_of (sig_view_value signature.entry) ≡ None) }
    ensures front { IfSome result (λ s.
        BeginsWith (sig_view_octets signature.entry) (signed_front (signed_value s))) }
{
    let body = signature.body();
    match signature {
        SigView::Four(view) => {
            let area = view.hashed_area();
            Some(Signed {
                version: 4,
                salt: &body[..0],
                kind: view.kind(),
                algorithm: view.algorithm(),
                hash: view.hash(),
                area,
            })
        }
        SigView::Six(view) => {
            let area = view.hashed_area();
            let salt = view.salt();
            Some(Signed {
                version: 6,
                salt,
                kind: view.kind(),
                algorithm: view.algorithm(),
                hash: view.hash(),
                area,
            })
        }
        SigView::Three(_) | SigView::Other(_) => None,
    }
}

/// The question, or the first reason why there is none; `stands` says whether signatures of this
/// type are made over the subject here. Inlined, so that the question isn't copied from place to
/// place.
#[inline(always)]
fn asked<'a>(signed: Signed<'a>, subject: Subject<'a>, stands: bool) -> Result<Question<'a>, Why>
    requires within { is_within (subject_value subject) ≡ true }
    requires about { stands ≡ true → is_about signed.kind (subject_value subject) ≡ true }
    ensures exact { Reads question_value result (asked (signed_value signed.entry)
        (subject_value subject.entry)
        (why_not stands (signed_value signed.entry) (subject_value subject.entry))) }
    ensures question { IfOk result (λ q. IsQuestion (question_value q)) }
    ensures subject { IfOk result (λ q.
        (question_value q).subject ≡ subject_value subject.entry) }
    ensures front { IfOk result (λ q.
        front_hashed (question_value q) ≡ signed_front (signed_value signed.entry)) }
{
    match why_not(&signed, &subject, stands) {
        Some(why) => Err(why),
        None => {
            let question = Question {
                version: signed.version,
                salt: signed.salt,
                subject,
                kind: signed.kind,
                algorithm: signed.algorithm,
                hash: signed.hash,
                area: signed.area,
            };
            question.stands();
            Ok(question)
        }
    }
}

/// The first reason why there is no question.
fn why_not(signed: &Signed<'_>, subject: &Subject<'_>, stands: bool) -> Option<Why>
    ensures { result ≡ why_not stands (signed_value signed.now) (subject_value subject.now) }
{
    let revokes = signed.kind == SignatureType::CertificationRevocation.number();
    if !is_kind(signed.kind) || (revokes && is_one(subject)) {
        Some(Why::Kind)
    } else if !stands {
        Some(Why::Misplaced)
    } else if !are_keys_of(signed.version, subject) {
        Some(Why::Version)
    } else if !is_hash(signed.version, signed.hash) {
        Some(Why::Hash)
    } else {
        None
    }
}
