//! What a revocation of a primary key hashes, wherever in its certificate it is.

ghost use Rattle.std.specs.Prelude.{◌≡◌};
ghost use Rattle.std.specs.Option.{option_map};
ghost use Rattle.opgp_packet.specs.SigView.{sig_view_value};
ghost use Rattle.opgp_hash.specs.CertificateHasher.{hasher_subject};
ghost use Rattle.opgp_hash.specs.Question.{question_value};
ghost use Rattle.opgp_hash.specs.Subject.{subject_value};
ghost use Rattle.opgp_hash.specs.SubjectValue.{first_key};
ghost use Rattle.opgp_valid.specs.Revocation.{FindsRevocation, alone_in, revocation_at};
ghost use Rattle.opgp_valid.specs.Revocation.{revocation_met};

use crate::asking::{revokes_key, type_of};
use opgp_hash::{CertificateHasher, Question, Site, Subject, ask_at};
use opgp_keyring::Keyring;
use opgp_packet::SigView;
use opgp_report::{Met, Visitor, visit};

/// What a signature hashes over the primary key that a subject begins with, alone.
fn alone_in<'a>(subject: Subject<'a>, signature: SigView<'a>) -> Option<Question<'a>>
    ensures { option_map (λ q. question_value q) result
        ≡ alone_in (first_key (subject_value subject.entry)) (sig_view_value signature.entry) }
{
    let primary = match subject {
        Subject::Binary(_) => return None,
        Subject::One(primary)
        | Subject::Two(primary, _)
        | Subject::OnUserId(primary, _)
        | Subject::OnAttribute(primary, _) => primary,
    };
    match ask_at(Site::Hung, signature, Subject::One(primary)) {
        Ok(question) => Some(question),
        Err(_) => None,
    }
}

/// What is met hashes over the primary key alone, if it is a revocation of that key.
pub(crate) fn revocation_of<'a>(
    hasher: &CertificateHasher<'a>,
    met: &Met<'a>,
) -> Option<Question<'a>>
    ensures { option_map (λ q. question_value q) result
        ≡ revocation_met met.now.place (hasher_subject hasher.now) met.now.signature }
{
    let signature = met.signature?;
    if met.place.nested.is_none() && revokes_key(type_of(signature)) {
        alone_in(hasher.subject(), signature)
    } else {
        None
    }
}

/// Looks for the signature of a given number.
#[derive(Clone, Copy)]
struct Finder {
    left: usize,
}

impl<'a> Visitor<'a> for Finder {
    type Stop = Option<Question<'a>>;

    ghost becomes = { FindsRevocation };

    fn meet(
        &mut self,
        hasher: &mut CertificateHasher<'a>,
        met: &Met<'a>,
    ) -> Result<(), Option<Question<'a>>> {
        if self.left > 0 {
            self.left -= 1;
            return Ok(());
        }
        Err(revocation_of(hasher, met))
    }
}

/// What the revocation of a primary key in this row of the keyring's report hashes, counted from 0:
/// that key alone, wherever in the certificate the revocation is (RFC 9580, 5.2.1.11, 5.2.4). None
/// if the row has no such signature, or it isn't hashed. Allocates nothing.
pub fn revocation_at(keyring: &Keyring, row: usize) -> Option<Question<'_>>
    ensures { option_map (λ q. question_value q) result ≡ revocation_at keyring.now row }
{
    match visit(&mut Finder { left: row }, keyring) {
        Err(question) => question,
        Ok(()) => None,
    }
}
