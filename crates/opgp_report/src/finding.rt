//! The question of a row of the report.

ghost use Rattle.std.specs.Prelude.{◌≡◌, ◌+◌, ◌<◌, length, MatchOption, true};
ghost use Rattle.std.specs.List.{slice_get};
ghost use Rattle.std.specs.Option.{option_map};
ghost use Rattle.opgp_hash.specs.Question.{question_value};
ghost use Rattle.opgp_report.specs.Asked.{Finds, asked_of, question_in};
ghost use Rattle.opgp_report.specs.Standing.{certificate_standing};

use crate::met::{Met, Posed};
use crate::walk::{Visitor, visit, visit_certificate};
use opgp_hash::{CertificateHasher, Question};
use opgp_keyring::{Certificate, Keyring};

/// Looks for the signature of a given number.
#[derive(Clone, Copy)]
struct Finder {
    left: usize,
}

impl<'a> Visitor<'a> for Finder {
    type Stop = Option<Question<'a>>;

    ghost becomes = { Finds };

    fn meet(
        &mut self,
        hasher: &mut CertificateHasher<'a>,
        met: &Met<'a>,
    ) -> Result<(), Option<Question<'a>>> {
        if self.left > 0 {
            self.left -= 1;
            return Ok(());
        }
        match met.asked(hasher) {
            Posed::Question(_, question) => Err(Some(question)),
            Posed::Nothing(_) => Err(None),
        }
    }
}

/// The question of the signature in this row of the keyring's report, counted from 0; None if it
/// isn't hashed, or there is no such row. Allocates nothing.
pub fn question_at(keyring: &Keyring, row: usize) -> Option<Question<'_>>
    ensures { option_map (λ q. question_value q) result
        ≡ question_in (slice_get (asked_of keyring.now) row) }
{
    match visit(&mut Finder { left: row }, keyring) {
        Err(question) => question,
        Ok(()) => None,
    }
}

/// How many rows of a report are left to pass before the row of this number, counted from the
/// certificate's first, once those of the certificate are; None if it is one of them. Allocates
/// nothing.
pub fn rows_left(certificate: &Certificate, row: usize) -> Option<usize>
    ensures { MatchOption result (row < length (certificate_standing 0 certificate.now))
        (λ left. row ≡ length (certificate_standing 0 certificate.now) + left) }
{
    let mut finder = Finder { left: row };
    match visit_certificate(&mut finder, 0, certificate) {
        Ok(()) => Some(finder.left),
        Err(_) => None,
    }
}
