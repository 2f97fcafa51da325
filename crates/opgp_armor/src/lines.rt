//! What each line of an armored text does.

ghost use Rattle.std.specs.Prelude.{◌≡◌, ◌+◌, ◌^◌, ◌<◌, ◌≤◌, ℕ, List, [], ◌∷◌, ◌++◌, true, nat_eq};
ghost use Rattle.std.specs.Prelude.{length, take, not, Some, None, Ok, Err};
ghost use Rattle.std.specs.Str.{bytes_eq};
ghost use Rattle.std.specs.List.{starts_with};
ghost use Rattle.opgp_armor.specs.Letters.{data_line};
ghost use Rattle.opgp_armor.specs.Text.{content, begin_line, end_line, begin_mark, is_trailing};
ghost use Rattle.opgp_armor.specs.Armored.{label_at, passes_by};
ghost use Rattle.opgp_armor.specs.Machine.{without_space, header_of, closing, inside, on_begin};
ghost use Rattle.opgp_armor.specs.Machine.{on_header, on_letters, on_outside, step};
ghost use Rattle.opgp_octets.specs.declared.outside.Outside.TheVariants as policy;
ghost use Rattle.opgp_armor.specs.declared.section.Section.TheVariants.{Headers, Data};
ghost use Rattle.opgp_armor.specs.declared.section.Section.TheVariants.{AfterChecksum};
ghost use Rattle.opgp_armor.specs.LineAnswer.{pending_of, state_of, header_view, IsAnswer};

use crate::event::ArmorEvent;
use crate::label::Label;
use crate::letters::{Letters, letters_of};
use crate::pending::Pending;
use crate::refusal::Refusal;
use crate::section::Section;
use crate::spare::Spare;
use memchr::memchr;
use opgp_octets::{Outside, Reason};
use std::alloc::Global;

/// What a line does: the section that follows it, the letters left over then, and the event it
/// yields.
#[derive(Drop)]
pub(crate) struct Reaction {
    pub(crate) section: Section,
    pub(crate) pending: Pending,
    pub(crate) event: Option<ArmorEvent>,
}

/// Space, tab or carriage return.
fn is_trailing_octet(c: u8) -> bool
    ensures { result ≡ is_trailing c }
{
    c == b' ' || c == b'\t' || c == b'\r'
}

/// A line without its trailing spaces, tabs and carriage returns.
fn content_of(line: &[u8]) -> &[u8]
    ensures { result.now ≡ content line.now }
{
    let mut end = line.len();
    'strip: while end > 0 && is_trailing_octet(line[end - 1]) {
        end -= 1;
    }
    &line[..end]
}

/// The label of a begin line.
fn begin_label(content: &[u8]) -> Option<Label>
    ensures { result ≡ label_at begin_line content.now }
{
    if content == Label::Message.begin_line() {
        Some(Label::Message)
    } else if content == Label::PublicKeyBlock.begin_line() {
        Some(Label::PublicKeyBlock)
    } else if content == Label::PrivateKeyBlock.begin_line() {
        Some(Label::PrivateKeyBlock)
    } else if content == Label::Signature.begin_line() {
        Some(Label::Signature)
    } else {
        None
    }
}

/// A header's value, without the space that may come before it.
fn value_of(value: &[u8]) -> &[u8]
    ensures { result.now ≡ without_space value.now }
{
    if value.len() > 0 && value[0] == b' ' {
        &value[1..]
    } else {
        value
    }
}

/// The header of a line.
fn header_parts(content: &[u8]) -> Option<(&[u8], &[u8])>
    ensures { header_view result ≡ header_of content.now }
{
    match memchr(b':', content) {
        Some(i) => {
            if i == 0 {
                None
            } else {
                Some((&content[..i], value_of(&content[i + 1..])))
            }
        }
        None => None,
    }
}

/// Whether a line is outside of all blocks and doesn't begin one.
fn lies_outside(section: Section, line: &[u8]) -> bool
    ensures { result ≡ passes_by section line.now }
{
    match section {
        Section::Outside => !line.starts_with(b"-----BEGIN PGP ".as_slice()),
        _ => false,
    }
}

/// What the end line does.
#[tactic(auto, unfolding(crate::specs::Machine::closing))]
fn close(label: Label, pending: Pending, content: &[u8]) -> Result<Reaction, Refusal>
    ensures { IsAnswer result (closing label (pending_of pending) content.now) }
{
    if content != label.end_line() {
        return Err(Refusal::Reason(Reason::EndLabel));
    }
    if pending.waits() {
        return Err(Refusal::Reason(Reason::Padding));
    }
    Ok(Reaction {
        section: Section::Outside,
        pending: Pending::none(),
        event: Some(ArmorEvent::End),
    })
}

/// A line that yields no event.
fn moved(section: Section, pending: Pending) -> Result<Reaction, Refusal>
    ensures { IsAnswer result (Ok (state_of section pending, [])) }
{
    Ok(Reaction {
        section,
        pending,
        event: None,
    })
}

/// What a header line does.
fn header(
    alloc: Global,
    label: Label,
    pending: Pending,
    content: &[u8],
) -> Result<Reaction, Refusal>
    ensures { IsAnswer result (on_header label (pending_of pending) (header_of content.now)) }
{
    let Some((key, value)) = header_parts(content) else {
        return Err(Refusal::Reason(Reason::Header));
    };
    let key = key.to_vec(alloc)?;
    let value = value.to_vec(alloc)?;
    let event = Some(ArmorEvent::Header(key, value));
    Ok(Reaction {
        section: Section::Headers(label),
        pending,
        event,
    })
}

/// What a data line does.
fn data(
    alloc: Global,
    spare: &mut Spare,
    label: Label,
    pending: Pending,
    content: &[u8],
) -> Result<Reaction, Refusal>
    ensures line { IsAnswer result (on_letters label (data_line (pending_of pending) content.now)) }
    ensures spare { length spare.new.octets.items ≤ length spare.old.octets.items }
{
    let Letters { pending, octets } = letters_of(alloc, spare, &pending, content)?;
    let event = if octets.is_empty() {
        None
    } else {
        Some(ArmorEvent::Octets(octets))
    };
    Ok(Reaction {
        section: Section::Data(label),
        pending,
        event,
    })
}

/// What a line outside of blocks does that begins as a begin line does.
fn begin(content: &[u8]) -> Result<Reaction, Refusal>
    ensures { IsAnswer result (on_begin (label_at begin_line content.now)) }
{
    match begin_label(content) {
        Some(label) => Ok(Reaction {
            section: Section::Headers(label),
            pending: Pending::none(),
            event: Some(ArmorEvent::Begin(label)),
        }),
        None => Err(Refusal::Reason(Reason::Label)),
    }
}

/// What a line among the headers does.
#[tactic(auto, using(crate::proofs::Insides::header_lines))]
fn in_headers(
    alloc: Global,
    label: Label,
    pending: Pending,
    content: &[u8],
) -> Result<Reaction, Refusal>
    ensures { IsAnswer result (inside (Headers label) (pending_of pending) content.now) }
{
    if content.len() == 0 {
        moved(Section::Data(label), pending)
    } else {
        header(alloc, label, pending, content)
    }
}

/// What a line among the data lines does.
#[tactic(auto, using(crate::proofs::Insides::data_lines))]
fn in_data(
    alloc: Global,
    spare: &mut Spare,
    label: Label,
    pending: Pending,
    content: &[u8],
) -> Result<Reaction, Refusal>
    ensures line { IsAnswer result (inside (Data label) (pending_of pending) content.now) }
    ensures spare { length spare.new.octets.items ≤ length spare.old.octets.items }
{
    if content.len() == 0 {
        return moved(Section::Data(label), pending);
    }
    if content[0] == b'=' {
        if pending.waits() {
            return Err(Refusal::Reason(Reason::Padding));
        }
        return moved(Section::AfterChecksum(label), pending);
    }
    if content[0] == b'-' {
        return close(label, pending, content);
    }
    data(alloc, spare, label, pending, content)
}

/// What a line after a checksum line does.
#[tactic(auto, using(crate::proofs::Insides::after_lines))]
fn after_checksum(label: Label, pending: Pending, content: &[u8]) -> Result<Reaction, Refusal>
    ensures { IsAnswer result (inside (AfterChecksum label) (pending_of pending) content.now) }
{
    if content.len() == 0 {
        return moved(Section::AfterChecksum(label), pending);
    }
    if content[0] == b'-' {
        return close(label, pending, content);
    }
    Err(Refusal::Reason(Reason::AfterChecksum))
}

/// What a line outside of blocks does that begins none, where only blank ones are allowed.
///
/// The first `limit + 1` octets decide whether it is blank.
fn blank(limit: usize, section: Section, pending: Pending, line: &[u8]) -> Result<Reaction, Refusal>
    ensures { IsAnswer result (on_outside policy.Refuse limit (state_of section pending) line.now) }
{
    let long = line.len() > limit;
    let seen = if long { &line[..limit + 1] } else { line };
    if content_of(seen).len() > 0 {
        return Err(Refusal::Reason(Reason::Outside));
    }
    if long {
        return Err(Refusal::Reason(Reason::LineTooLong));
    }
    moved(section, pending)
}

/// What a line outside of blocks does that begins none.
fn pass(
    limit: usize,
    outside: Outside,
    section: Section,
    pending: Pending,
    line: &[u8],
) -> Result<Reaction, Refusal>
    ensures { IsAnswer result (on_outside outside limit (state_of section pending) line.now) }
{
    match outside {
        Outside::Skip => moved(section, pending),
        Outside::Refuse => blank(limit, section, pending, line),
    }
}

/// What a line does in this section.
#[tactic(auto, unfolding(crate::specs::Machine::step))]
pub(crate) fn answer_line(
    alloc: Global,
    spare: &mut Spare,
    limit: usize,
    outside: Outside,
    section: Section,
    pending: Pending,
    line: &[u8],
) -> Result<Reaction, Refusal>
    ensures line { IsAnswer result
        (step (record { most = limit; outside = outside }) (state_of section pending) line.now) }
    ensures spare { length spare.new.octets.items ≤ length spare.old.octets.items }
{
    if lies_outside(section, line) {
        return pass(limit, outside, section, pending, line);
    }
    if line.len() > limit {
        return Err(Refusal::Reason(Reason::LineTooLong));
    }
    let content = content_of(line);
    match section {
        Section::Outside => begin(content),
        Section::Headers(label) => in_headers(alloc, label, pending, content),
        Section::Data(label) => in_data(alloc, spare, label, pending, content),
        Section::AfterChecksum(label) => after_checksum(label, pending, content),
    }
}
