//! What a command makes of detached signatures and their document.

ghost use Rattle.std.specs.Prelude.{◌≡◌, IfSome, IfNone, List, Option, codes};
ghost use Rattle.clap.specs.Words.{first_of, found_of, rows_of};
ghost use Rattle.opgp_tool.specs.Words.{DocumentWork, IsDocumentWork, document_said};
ghost use Rattle.opgp_tool.specs.Words.{cleartext_part_of};
ghost use Rattle.opgp_tool.specs.Words.{is_given, part_of};

use crate::task::{given_number_of, is_given, word_of};
use clap::ArgMatches;
use opgp_octets::Limits;
use opgp_stack::{Around, CleartextPart, Mode};

/// What is made of detached signatures (RFC 9580, 10.4), or of a document.
#[derive(Clone, Copy)]
pub enum DocumentAction<'a> {
    /// A line for each packet of the signatures on standard input.
    Signatures,
    /// A line for each signature of the file of this name, over the document on standard input.
    Digests(&'a str),
    /// What the signature of this number in the file of this name hashes around its document.
    Around(&'a str, u64, Around),
    /// The canonical text of the document on standard input.
    Canonical,
    /// This part of the cleartext message on standard input.
    Cleartext(CleartextPart),
}

/// What is made, how the input is read, and within which limits.
#[derive(Clone, Copy)]
pub struct DocumentTask<'a> {
    /// How signatures are read.
    pub mode: Mode,
    /// The limits of what is read.
    pub limits: Limits,
    /// What is made.
    pub action: DocumentAction<'a>,
}

/// What `digest` makes: a line for each signature, or what one of them hashes.
fn digest_of<'a>(matches: &ArgMatches<'a>) -> Option<DocumentAction<'a>>
    ensures some { IfSome result (λ a.
        IsDocumentWork (codes "digest") (rows_of (found_of matches.now)) (document_said a)) }
    ensures none { IfNone result ((work : DocumentWork)
        → IsDocumentWork (codes "digest") (rows_of (found_of matches.now)) work → ⊥) }
{
    let file = word_of(matches, "signatures")?;
    let given = given_number_of(matches, "octets")?;
    match given {
        Some(row) => Some(DocumentAction::Around(file, row, part_of(matches))),
        None => {
            if is_given(matches, "salt") {
                None
            } else {
                Some(DocumentAction::Digests(file))
            }
        }
    }
}

/// Which octets `--octets` writes.
fn part_of(matches: &ArgMatches) -> Around
    ensures { result
        ≡ part_of (is_given (first_of (codes "salt") (rows_of (found_of matches.now)))) }
{
    if is_given(matches, "salt") {
        Around::Front
    } else {
        Around::Behind
    }
}

/// Which part of a message `--of` names.
fn cleartext_part_of(matches: &ArgMatches) -> CleartextPart
    ensures { result
        ≡ cleartext_part_of (first_of (codes "of") (rows_of (found_of matches.now))) }
{
    match word_of(matches, "of") {
        Some("hashed") => CleartextPart::Hashed,
        Some("signatures") => CleartextPart::Signatures,
        _ => CleartextPart::Document,
    }
}

/// What the command of this name makes, if it is one of these.
pub(crate) fn document_action_of<'a>(
    name: &str,
    matches: &ArgMatches<'a>,
) -> Option<DocumentAction<'a>>
    ensures some { IfSome result (λ a.
        IsDocumentWork name.now (rows_of (found_of matches.now)) (document_said a)) }
    ensures none { IfNone result ((work : DocumentWork)
        → IsDocumentWork name.now (rows_of (found_of matches.now)) work → ⊥) }
{
    match name {
        "signatures" => Some(DocumentAction::Signatures),
        "digest" => digest_of(matches),
        "canonical" => Some(DocumentAction::Canonical),
        "cleartext" => Some(DocumentAction::Cleartext(cleartext_part_of(matches))),
        _ => None,
    }
}
