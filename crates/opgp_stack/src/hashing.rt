//! The octets that a signature hashes.

ghost use Rattle.std.specs.Prelude.{◌≡◌, false, Some};
ghost use Rattle.std.specs.List.{flat_map, slice_get};
ghost use Rattle.std.specs.Option.{option_map};
ghost use Rattle.opgp_codec.specs.Written.{IsWritten};
ghost use Rattle.opgp_explain.specs.Lines.{explained, field_line};
ghost use Rattle.opgp_hash.specs.Hashed.{hashed};
ghost use Rattle.opgp_hash.specs.Question.{question_value};
ghost use Rattle.opgp_report.specs.Asked.{question_in};
ghost use Rattle.opgp_keyring.specs.SignedLiteral.{signed_packets};
ghost use Rattle.opgp_packet.specs.SignatureBody.{signature_at};
ghost use Rattle.opgp_packet.specs.SigView.{sig_view_octets};
ghost use Rattle.opgp_stack.specs.Hashing.{asked_about, content_in, message_asked};
ghost use Rattle.opgp_stack.specs.Running.{IsMade, question_made};

use crate::run_fault::RunFault;
use crate::running::end;
use opgp_codec::{EngineError, Text, write};
use opgp_explain::{Field, add_fields, fields_of};
use opgp_hash::{Question, Subject, ask_view, write_octets};
use opgp_io::{Output, Sink};
use opgp_keyring::SignedLiteral;
use opgp_packet::SigView;
use std::alloc::Global;
use std::io;

/// What a signature hashes over a literal.
fn question_about<'a>(message: &'a SignedLiteral, signature: SigView<'a>) -> Option<Question<'a>>
    ensures { option_map (λ q. question_value q) result ≡ question_in (Some
        (asked_about (content_in (signed_packets message.now))
        (signature_at (sig_view_octets signature.entry)))) }
{
    opgp_packet::field_laws::fields_are_read();
    opgp_packet::signature_laws::signatures_are_read();
    // Called for its contract: the octets are read as this signature.
    let _body = signature.body();
    let view = message.literal();
    // Called for its contract: the content lies in these octets.
    let _literal = view.body();
    ask_view(signature, Subject::Binary(view.content())).ok()
}

/// The question of the signature of this number after a literal, from 0; None if it isn't hashed,
/// or if there is no such signature.
pub(crate) fn question_of(message: &SignedLiteral, row: u64) -> Option<Question<'_>>
    ensures { option_map (λ q. question_value q) result
        ≡ question_in (slice_get (message_asked (signed_packets message.now)) row) }
{
    let mut signatures = message.signatures();
    let mut left = row;
    'signatures: while let Some(read) = signatures.next() {
        if left == 0 {
            return match read {
                Ok(signature) => question_about(message, signature),
                Err(_) => None,
            };
        }
        left -= 1;
    }
    None
}

/// Octets as they are.
#[derive(Clone, Copy)]
pub(crate) struct OctetsText<'a> {
    pub(crate) octets: &'a [u8],
}

impl Text for OctetsText<'_> {
    ghost octets = { λ text. text.octets.now };

    fn add<W: Sink>(self, output: &mut Output<'_, W>) -> io::Result<()> {
        output.add(self.octets)
    }
}

/// Fields of hashed octets, a line for each.
#[derive(Clone, Copy)]
struct FieldsText<'a> {
    octets: &'a [u8],
    fields: &'a [Field],
}

impl Text for FieldsText<'_> {
    ghost octets = { λ text. flat_map (field_line text.octets.now) text.fields.now };

    fn add<W: Sink>(self, output: &mut Output<'_, W>) -> io::Result<()> {
        add_fields(output, self.octets, self.fields)
    }
}

/// Writes the hashed octets of a question, or a line for each field of them.
pub(crate) fn write_question<W: Sink>(
    alloc: Global,
    question: Option<Question<'_>>,
    explains: bool,
    writer: &mut W,
) -> Result<(), RunFault>
    requires { W.has_failed writer.old ≡ false }
    ensures { IsMade W.held W.has_failed writer.old writer.new result
        (question_made explains (option_map (λ q. question_value q) question.entry)) }
{
    match question {
        None => Err(RunFault::NoSuchRow),
        Some(question) => {
            if explains {
                end(write_fields(alloc, &question, writer))
            } else {
                end(write_hashed(alloc, &question, writer))
            }
        }
    }
}

/// Writes the hashed octets of a question.
fn write_hashed<W: Sink>(
    alloc: Global,
    question: &Question<'_>,
    writer: &mut W,
) -> Result<(), EngineError>
    requires { W.has_failed writer.old ≡ false }
    ensures { IsWritten W.held W.has_failed writer.old writer.new result
        (hashed (question_value question.now)) }
{
    let mut octets = Vec::new(alloc);
    match write_octets(question, &mut octets) {
        Ok(()) => write(alloc, OctetsText { octets: &octets }, writer),
        Err(_) => Err(EngineError::Memory),
    }
}

/// Writes a line for each field of the hashed octets of a question.
fn write_fields<W: Sink>(
    alloc: Global,
    question: &Question<'_>,
    writer: &mut W,
) -> Result<(), EngineError>
    requires { W.has_failed writer.old ≡ false }
    ensures { IsWritten W.held W.has_failed writer.old writer.new result
        (explained (question_value question.now)) }
{
    let mut octets = Vec::new(alloc);
    if write_octets(question, &mut octets).is_err() {
        return Err(EngineError::Memory);
    }
    match fields_of(alloc, question) {
        Ok(fields) => {
            let text = FieldsText {
                octets: &octets,
                fields: &fields,
            };
            write(alloc, text, writer)
        }
        Err(_) => Err(EngineError::Memory),
    }
}
