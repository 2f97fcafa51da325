//! Fields as lines.

ghost use Rattle.std.specs.Prelude.{◌≡◌, false};
ghost use Rattle.std.specs.List.{flat_map};
ghost use Rattle.opgp_explain.specs.Lines.{end_text, field_line, form_of, form_of_data, front_text};
ghost use Rattle.opgp_explain.specs.Lines.{number_in, octets_in, octets_text, value_text};
ghost use Rattle.opgp_io.specs.Output.{Extends, sink_of};

use crate::field::Field;
use crate::meaning::{BodyPart, KeyPart, Meaning, SignaturePart, SubpacketPart, TrailerPart};
use opgp_io::{Output, Sink, Word};
use opgp_octets::SubpacketKind;
use std::io;

/// How many octets of a field are shown.
const SHOWN: usize = 32;

/// How the octets of a field are shown.
#[derive(Clone, Copy)]
pub(crate) enum Form {
    /// A number of one, two or four octets, in decimal.
    Number,
    /// A text between quotation marks, with what isn't printable ASCII escaped.
    Text,
    /// Octets in upper-case hexadecimal.
    Octets,
}

/// Adds a line for each of the fields of these octets: where it is, its length, its name, its
/// value, and the section of RFC 9580 that says what it is.
pub fn add_fields<W: Sink>(
    output: &mut Output<'_, W>,
    octets: &[u8],
    fields: &[Field],
) -> io::Result<()>
    requires { W.has_failed (sink_of output.old) ≡ false }
    ensures { Extends W.held W.has_failed output.old output.new result
        (flat_map (field_line octets.now) fields.now) }
{
    for field in fields {
        add_field(output, octets, field)?;
    }
    Ok(())
}

/// Adds the line of a field.
fn add_field<W: Sink>(output: &mut Output<'_, W>, octets: &[u8], field: &Field) -> io::Result<()>
    requires { W.has_failed (sink_of output.old) ≡ false }
    ensures { Extends W.held W.has_failed output.old output.new result
        (field_line octets.now field.now) }
{
    add_front(output, field)?;
    add_value(output, octets, field)?;
    add_end(output, field)
}

/// Adds where a field is, its length and its name.
fn add_front<W: Sink>(output: &mut Output<'_, W>, field: &Field) -> io::Result<()>
    requires { W.has_failed (sink_of output.old) ≡ false }
    ensures { Extends W.held W.has_failed output.old output.new result (front_text field.now) }
{
    output.add_words(&[
        Word::Decimal(field.offset),
        Word::Text(b" "),
        Word::Decimal(field.length),
        Word::Text(b" "),
        Word::Text(field.meaning.name().as_bytes()),
        Word::Text(b" "),
    ])
}

/// Adds the section of a field, and ends the line.
fn add_end<W: Sink>(output: &mut Output<'_, W>, field: &Field) -> io::Result<()>
    requires { W.has_failed (sink_of output.old) ≡ false }
    ensures { Extends W.held W.has_failed output.old output.new result (end_text field.now) }
{
    output.add_words(&[
        Word::Text(b" "),
        Word::Text(field.meaning.section().as_bytes()),
        Word::Text(b"\n"),
    ])
}

/// Adds the value of a field.
fn add_value<W: Sink>(output: &mut Output<'_, W>, octets: &[u8], field: &Field) -> io::Result<()>
    requires { W.has_failed (sink_of output.old) ≡ false }
    ensures { Extends W.held W.has_failed output.old output.new result
        (value_text (form_of field.now.meaning) (octets_in octets.now field.now)) }
{
    add_shown(output, form_of(field.meaning), octets_of(octets, field))
}

/// The octets at the place of a field.
fn octets_of<'a>(octets: &'a [u8], field: &Field) -> &'a [u8]
    ensures { result.now ≡ octets_in octets.now field.now }
{
    let offset = (field.offset as usize).min(octets.len());
    let (_, rest) = octets.split_at(offset);
    let length = (field.length as usize).min(rest.len());
    let (octets, _) = rest.split_at(length);
    octets
}

/// Adds octets in a form.
fn add_shown<W: Sink>(output: &mut Output<'_, W>, form: Form, octets: &[u8]) -> io::Result<()>
    requires { W.has_failed (sink_of output.old) ≡ false }
    ensures { Extends W.held W.has_failed output.old output.new result
        (value_text form octets.now) }
{
    match form {
        Form::Number => match number_in(octets) {
            Some(n) => output.add_words(&[Word::Decimal(n)]),
            None => add_octets(output, octets),
        },
        Form::Text => output.add_words(&[
            Word::Text(b"\""),
            Word::Escaped(octets),
            Word::Text(b"\""),
        ]),
        Form::Octets => add_octets(output, octets),
    }
}

/// Adds octets in hexadecimal: the first 32, and `..` if there are more, or `-` for none.
fn add_octets<W: Sink>(output: &mut Output<'_, W>, octets: &[u8]) -> io::Result<()>
    requires { W.has_failed (sink_of output.old) ≡ false }
    ensures { Extends W.held W.has_failed output.old output.new result (octets_text octets.now) }
{
    if octets.is_empty() {
        return output.add_words(&[Word::Text(b"-")]);
    }
    if octets.len() <= SHOWN {
        return output.add_words(&[Word::Hex(octets)]);
    }
    let (shown, _) = octets.split_at(SHOWN);
    output.add_words(&[Word::Hex(shown), Word::Text(b"..")])
}

/// The number that one, two or four octets are, the highest first.
fn number_in(octets: &[u8]) -> Option<u64>
    ensures { result ≡ number_in octets.now }
{
    match octets {
        [a] => Some(u64::from(*a)),
        [a, b] => Some(u64::from(u16::from_be_bytes([*a, *b]))),
        [a, b, c, d] => Some(u64::from(u32::from_be_bytes([*a, *b, *c, *d]))),
        _ => None,
    }
}

/// How the octets of a field of this meaning are shown.
fn form_of(meaning: Meaning) -> Form
    ensures { result ≡ form_of meaning }
{
    match meaning {
        Meaning::Key(_, KeyPart::Prefix | KeyPart::Material) => Form::Octets,
        Meaning::Key(_, _) => Form::Number,
        Meaning::UserId(BodyPart::Body) => Form::Text,
        Meaning::UserId(BodyPart::Length) | Meaning::Attribute(BodyPart::Length) => Form::Number,
        Meaning::Signature(SignaturePart::Type) => Form::Octets,
        Meaning::Signature(_) => Form::Number,
        Meaning::Subpacket(SubpacketPart::Data(kind)) => form_of_data(kind),
        Meaning::Trailer(TrailerPart::Version | TrailerPart::Length) => Form::Number,
        _ => Form::Octets,
    }
}

/// How the data of a subpacket of this kind is shown.
fn form_of_data(kind: SubpacketKind) -> Form
    ensures { result ≡ form_of_data kind }
{
    match kind {
        SubpacketKind::Created | SubpacketKind::Expires | SubpacketKind::KeyExpires => Form::Number,
        SubpacketKind::SignersUserId => Form::Text,
        SubpacketKind::PolicyUri | SubpacketKind::PreferredKeyServer => Form::Text,
        _ => Form::Octets,
    }
}
