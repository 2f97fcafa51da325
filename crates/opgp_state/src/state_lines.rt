//! The lines of how the parts of a keyring stand, without an allocation.

ghost use Rattle.std.specs.Prelude.{◌≡◌, ◌++◌, ◌<◌, [], codes, false, map, Some};
ghost use Rattle.opgp_hash.specs.Fingerprint.{print_octets};
ghost use Rattle.opgp_packet.specs.Parsed.{body_octets};
ghost use Rattle.opgp_report.specs.First.{print_of};
ghost use Rattle.opgp_io.specs.Line.{word_text};
ghost use Rattle.opgp_io.specs.Output.{Extends, sink_of};
ghost use Rattle.opgp_keyring.specs.Grouped.{component_of, components_left};
ghost use Rattle.opgp_state.specs.Report.{joined, number_or_none};
ghost use Rattle.opgp_state.specs.KeyringStates.{causes_in, states_in};
ghost use Rattle.opgp_state.specs.StateLines.{attribute_words, cause_words, certificate_lines};
ghost use Rattle.opgp_state.specs.StateLines.{component_lines, date_of_time, first_cause};
ghost use Rattle.opgp_state.specs.StateLines.{first_causes, hang_of, identity_name, key_dates};
ghost use Rattle.opgp_state.specs.StateLines.{key_fields, key_name, key_values, key_words};
ghost use Rattle.opgp_state.specs.StateLines.{lack_name, lines_from, part_of, role_name};
ghost use Rattle.opgp_state.specs.StateLines.{state_line, text_or_none, user_id_words, uses_text};
ghost use Rattle.opgp_state.specs.StateLines.{without_first, words_at, words_line};

use crate::basis::Basis;
use crate::date::{YEAR_10000, date_text};
use crate::keyring_states::KeyringStates;
use opgp_hash::Fingerprint;
use opgp_io::{Output, Sink, Word};
use opgp_keyring::{Certificate, Component, Components, Head, Keyring};
use opgp_packet::KeyView;
use opgp_report::print_of;
use opgp_valid::{Cause, IdentityState, Key, KeyState, Lack, PartState, Spot, Uses, Why};
use std::io;

/// What the line of a part begins with.
#[derive(Clone, Copy)]
struct Place {
    basis: Basis,
    values: bool,
    certificate: u64,
    component: Option<u64>,
}

/// A number, or `-` for none.
fn number_or_none(number: Option<u64>) -> Word<'static>
    ensures { word_text result ≡ number_or_none number }
{
    match number {
        Some(n) => Word::Decimal(n),
        None => Word::Text(b"-"),
    }
}

/// The code of a reason, or `-` for none.
fn code_or_none(code: Option<u8>) -> Word<'static>
    ensures { word_text result ≡ number_or_none code }
{
    match code {
        Some(code) => Word::Decimal(code as u64),
        None => Word::Text(b"-"),
    }
}

/// The date of a time, if there is one before the year 10000.
fn date_if_any(time: Option<u64>) -> Option<[u8; 20]>
    ensures { result ≡ date_of_time time }
{
    match time {
        Some(time) if time < YEAR_10000 => Some(date_text(time)),
        _ => None,
    }
}

/// A text, or `-` for none.
fn text_or_none(text: &Option<[u8; 20]>) -> Word<'_>
    ensures { word_text result ≡ text_or_none text.now }
{
    match text {
        Some(text) => Word::Text(text.as_slice()),
        None => Word::Text(b"-"),
    }
}

/// The name of how a key stands.
fn key_name(why: Option<Why>, uses: Uses) -> &'static [u8]
    ensures { result.now ≡ key_name why uses }
{
    match why {
        Some(why) => why.name().as_bytes(),
        None if uses.has_use() => b"usable",
        None => b"no-use",
    }
}

/// What the first signature lacks that could speak for a key, or `-` for nothing.
fn lack_name(lack: Option<Lack>) -> &'static [u8]
    ensures { result.now ≡ lack_name lack }
{
    match lack {
        Some(Lack::Newer) => b"newer",
        Some(Lack::Lapsed) => b"lapsed",
        Some(Lack::Weak) => b"weak",
        Some(Lack::Malformed) => b"malformed",
        Some(Lack::Undated) => b"undated",
        Some(Lack::Young) => b"young",
        Some(Lack::Critical) => b"critical",
        None => b"-",
    }
}

/// The word for the primary key, or for a subkey.
fn role_name(key: Key) -> &'static [u8]
    ensures { result.now ≡ role_name key }
{
    match key {
        Key::Primary => b"pub",
        Key::Subkey { .. } => b"sub",
    }
}

/// The number of the component that a signature is on.
fn part_of(spot: Option<Spot>) -> Option<u64>
    ensures { result ≡ part_of spot }
{
    match spot {
        Some(
            Spot {
                component: Some(component),
                ..
            },
        ) => Some(component as u64),
        _ => None,
    }
}

/// The number of a signature among the packets there.
fn hang_of(spot: Option<Spot>) -> Option<u64>
    ensures { result ≡ hang_of spot }
{
    match spot {
        Some(spot) => Some(spot.hang as u64),
        None => None,
    }
}

/// The name of how a user ID or attribute stands.
fn identity_name(state: IdentityState) -> &'static [u8]
    ensures { result.now ≡ identity_name state }
{
    match state {
        IdentityState::Certified => b"certified",
        IdentityState::Revoked => b"revoked",
        IdentityState::Unbound => b"unbound",
    }
}

/// The names of uses, with commas between them, or `-` for none (RFC 9580, 5.2.3.29).
fn uses_text(uses: Uses) -> &'static [u8]
    ensures { result.now ≡ uses_text uses }
{
    match (uses.certify, uses.sign, uses.encrypt, uses.authenticate) {
        (true, true, true, true) => b"certify,sign,encrypt,authenticate",
        (true, true, true, false) => b"certify,sign,encrypt",
        (true, true, false, true) => b"certify,sign,authenticate",
        (true, true, false, false) => b"certify,sign",
        (true, false, true, true) => b"certify,encrypt,authenticate",
        (true, false, true, false) => b"certify,encrypt",
        (true, false, false, true) => b"certify,authenticate",
        (true, false, false, false) => b"certify",
        (false, true, true, true) => b"sign,encrypt,authenticate",
        (false, true, true, false) => b"sign,encrypt",
        (false, true, false, true) => b"sign,authenticate",
        (false, true, false, false) => b"sign",
        (false, false, true, true) => b"encrypt,authenticate",
        (false, false, true, false) => b"encrypt",
        (false, false, false, true) => b"authenticate",
        (false, false, false, false) => b"-",
    }
}

/// Adds the fields of the key of this fingerprint, behind its place. The word is `pub ` or `sub `.
fn add_fields<'p, W: Sink>(
    output: &mut Output<'_, W>,
    place: Place,
    word: &'p [u8],
    print: &'p Fingerprint,
    state: KeyState,
) -> io::Result<()>
    requires { W.has_failed (sink_of output.old) ≡ false }
    ensures { Extends W.held W.has_failed output.old output.new result
        (words_at place.basis place.certificate place.component
        (key_fields word.now (print_octets print.now) state)) }
{
    output.add_words(&[
        Word::Text(b"cert "),
        Word::Decimal(place.certificate),
        Word::Text(b" part "),
        number_or_none(place.component),
        Word::Text(place.basis.text()),
        Word::Text(word),
        Word::Hex(print.octets()),
        Word::Text(b" "),
        Word::Text(key_name(state.why, state.uses)),
        Word::Text(b" uses "),
        Word::Text(uses_text(state.uses)),
        Word::Text(b" begin "),
        Word::Decimal(state.begin as u64),
        Word::Text(b" end "),
        number_or_none(state.end),
        Word::Text(b" reason "),
        code_or_none(state.reason),
    ])
}

/// Adds the dates of a key's line.
fn add_dates<W: Sink>(output: &mut Output<'_, W>, state: KeyState) -> io::Result<()>
    requires { W.has_failed (sink_of output.old) ≡ false }
    ensures { Extends W.held W.has_failed output.old output.new result
        (joined (key_dates state)) }
{
    let begin = date_text(state.begin as u64);
    let end = date_if_any(state.end);
    output.add_words(&[
        Word::Text(b" "),
        Word::Text(begin.as_slice()),
        Word::Text(b" "),
        text_or_none(&end),
    ])
}

/// Adds what makes a key of no use, with the date of its time, and the line's end.
fn add_known_cause<'d, W: Sink>(
    output: &mut Output<'_, W>,
    cause: Cause,
    date: &'d Option<[u8; 20]>,
) -> io::Result<()>
    requires sound { W.has_failed (sink_of output.old) ≡ false }
    requires date { date.now ≡ date_of_time cause.date }
    ensures { Extends W.held W.has_failed output.old output.new result
        (joined (cause_words (Some cause)) ++ codes "\n") }
{
    output.add_words(&[
        Word::Text(b" key "),
        Word::Text(role_name(cause.key)),
        Word::Text(b" lack "),
        Word::Text(lack_name(cause.lack)),
        Word::Text(b" date "),
        number_or_none(cause.date),
        Word::Text(b" part "),
        number_or_none(part_of(cause.spot)),
        Word::Text(b" hang "),
        number_or_none(hang_of(cause.spot)),
        Word::Text(b" "),
        text_or_none(date),
        Word::Text(b"\n"),
    ])
}

/// Adds what makes a key of no use, if something does, and the line's end.
fn add_cause<W: Sink>(output: &mut Output<'_, W>, cause: Option<Cause>) -> io::Result<()>
    requires { W.has_failed (sink_of output.old) ≡ false }
    ensures { Extends W.held W.has_failed output.old output.new result
        (joined (cause_words cause) ++ codes "\n") }
{
    match cause {
        Some(cause) => {
            let date = date_if_any(cause.date);
            add_known_cause(output, cause, &date)
        }
        None => output.add(b"\n"),
    }
}

/// Adds what is behind the fields of a key's line, if values are wanted, and the line's end.
fn add_end<W: Sink>(
    output: &mut Output<'_, W>,
    values: bool,
    state: KeyState,
    cause: Option<Cause>,
) -> io::Result<()>
    requires { W.has_failed (sink_of output.old) ≡ false }
    ensures { Extends W.held W.has_failed output.old output.new result
        (joined (key_values values state cause) ++ codes "\n") }
{
    if !values {
        return output.add(b"\n");
    }
    add_dates(output, state)?;
    add_cause(output, cause)
}

/// Adds the line of the key of this fingerprint, behind its place. The word is `pub ` or `sub `.
fn add_print<'p, W: Sink>(
    output: &mut Output<'_, W>,
    place: Place,
    word: &'p [u8],
    print: &'p Fingerprint,
    state: KeyState,
    cause: Option<Cause>,
) -> io::Result<()>
    requires { W.has_failed (sink_of output.old) ≡ false }
    ensures { Extends W.held W.has_failed output.old output.new result
        (words_line place.basis place.certificate place.component
        (key_words place.values word.now (print_octets print.now) state cause)) }
{
    add_fields(output, place, word, print, state)?;
    add_end(output, place.values, state, cause)
}

/// Adds the line of a key, behind its place. The word is `pub ` or `sub `.
fn add_key<W: Sink>(
    output: &mut Output<'_, W>,
    place: Place,
    word: &[u8],
    key: KeyView<'_>,
    state: KeyState,
    cause: Option<Cause>,
) -> io::Result<()>
    requires { W.has_failed (sink_of output.old) ≡ false }
    ensures { Extends W.held W.has_failed output.old output.new result
        (words_line place.basis place.certificate place.component
        (key_words place.values word.now (print_octets (print_of (body_octets key.entry)))
        state cause)) }
{
    let print = print_of(&key);
    add_print(output, place, word, &print, state, cause)
}

/// Adds the line of a user ID, behind its place.
fn add_user_id<W: Sink>(
    output: &mut Output<'_, W>,
    place: Place,
    octets: &[u8],
    state: IdentityState,
) -> io::Result<()>
    requires { W.has_failed (sink_of output.old) ≡ false }
    ensures { Extends W.held W.has_failed output.old output.new result
        (words_line place.basis place.certificate place.component
        (user_id_words octets.now state)) }
{
    output.add_words(&[
        Word::Text(b"cert "),
        Word::Decimal(place.certificate),
        Word::Text(b" part "),
        number_or_none(place.component),
        Word::Text(place.basis.text()),
        Word::Text(b"uid "),
        Word::Text(identity_name(state)),
        Word::Text(b" \""),
        Word::Escaped(octets),
        Word::Text(b"\""),
        Word::Text(b"\n"),
    ])
}

/// Adds the line of a user attribute, behind its place.
fn add_attribute<W: Sink>(
    output: &mut Output<'_, W>,
    place: Place,
    state: IdentityState,
) -> io::Result<()>
    requires { W.has_failed (sink_of output.old) ≡ false }
    ensures { Extends W.held W.has_failed output.old output.new result
        (words_line place.basis place.certificate place.component (attribute_words state)) }
{
    output.add_words(&[
        Word::Text(b"cert "),
        Word::Decimal(place.certificate),
        Word::Text(b" part "),
        number_or_none(place.component),
        Word::Text(place.basis.text()),
        Word::Text(b"uat "),
        Word::Text(identity_name(state)),
        Word::Text(b"\n"),
    ])
}

/// Adds a line with the place of a part alone.
fn add_place<W: Sink>(output: &mut Output<'_, W>, place: Place) -> io::Result<()>
    requires { W.has_failed (sink_of output.old) ≡ false }
    ensures { Extends W.held W.has_failed output.old output.new result
        (words_line place.basis place.certificate place.component []) }
{
    output.add_words(&[
        Word::Text(b"cert "),
        Word::Decimal(place.certificate),
        Word::Text(b" part "),
        number_or_none(place.component),
        Word::Text(place.basis.text()),
        Word::Text(b"\n"),
    ])
}

/// Adds the line of a primary key.
fn add_primary<W: Sink>(
    output: &mut Output<'_, W>,
    place: Place,
    certificate: &Certificate,
    state: PartState,
    cause: Option<Cause>,
) -> io::Result<()>
    requires { W.has_failed (sink_of output.old) ≡ false }
    ensures { Extends W.held W.has_failed output.old output.new result
        (state_line place.basis place.values place.certificate place.component
        certificate.now.primary state cause) }
{
    // Called for its contract: the first packet is the primary key.
    let _primary = certificate.primary();
    match state {
        PartState::Key(state) => {
            add_key(output, place, b"pub ", certificate.key(), state, cause)
        }
        PartState::Identity(_) => add_place(output, place),
    }
}

/// Adds the line of a component.
fn add_component<W: Sink>(
    output: &mut Output<'_, W>,
    place: Place,
    component: Component<'_>,
    state: PartState,
    cause: Option<Cause>,
) -> io::Result<()>
    requires { W.has_failed (sink_of output.old) ≡ false }
    ensures { Extends W.held W.has_failed output.old output.new result
        (state_line place.basis place.values place.certificate place.component
        (component_of component.entry).head state cause) }
{
    match (component.head().head(), state) {
        (Head::Subkey(key), PartState::Key(state)) => {
            add_key(output, place, b"sub ", key, state, cause)
        }
        (Head::UserId(octets), PartState::Identity(state)) => {
            add_user_id(output, place, octets, state)
        }
        (Head::Attribute(_), PartState::Identity(state)) => add_attribute(output, place, state),
        _ => add_place(output, place),
    }
}

/// The first of these causes, if there is one, and those behind it.
fn next_cause(causes: &[Option<Cause>]) -> (Option<Cause>, &[Option<Cause>])
    ensures first { result.0 ≡ first_cause causes.now }
    ensures behind { result.1.now ≡ without_first causes.now }
{
    match causes {
        [cause, more @ ..] => (*cause, more),
        [] => (None, causes),
    }
}

/// The causes of the first certificate, if there are some, and those of the ones behind it.
fn next_causes(causes: &[Vec<Option<Cause>>]) -> (&[Option<Cause>], &[Vec<Option<Cause>>])
    ensures first { result.0.now ≡ first_causes (map (λ parts. parts.items) causes.now) }
    ensures behind { map (λ parts. parts.items) result.1.now
        ≡ without_first (map (λ parts. parts.items) causes.now) }
{
    match causes {
        [first, more @ ..] => (first, more),
        [] => (&[], causes),
    }
}

/// Adds the lines of components.
fn add_components<W: Sink>(
    output: &mut Output<'_, W>,
    basis: Basis,
    values: bool,
    certificate: u64,
    mut components: Components<'_>,
    states: &[PartState],
    causes: &[Option<Cause>],
) -> io::Result<()>
    requires { W.has_failed (sink_of output.old) ≡ false }
    ensures { Extends W.held W.has_failed output.old output.new result
        (component_lines basis values certificate 0 (components_left components.entry)
        states.now causes.now) }
{
    let mut number = 0u64;
    let mut rest = states;
    let mut left = causes;
    'states: while let Some((state, more)) = rest.split_first() {
        let Some(component) = components.next() else {
            return Ok(());
        };
        let place = Place {
            basis,
            values,
            certificate,
            component: Some(number),
        };
        let (cause, behind) = next_cause(left);
        add_component(output, place, component, *state, cause)?;
        number += 1;
        rest = more;
        left = behind;
    }
    Ok(())
}

/// Adds the lines of a certificate's parts.
fn add_certificate<W: Sink>(
    output: &mut Output<'_, W>,
    basis: Basis,
    values: bool,
    number: u64,
    certificate: &Certificate,
    states: &[PartState],
    causes: &[Option<Cause>],
) -> io::Result<()>
    requires { W.has_failed (sink_of output.old) ≡ false }
    ensures { Extends W.held W.has_failed output.old output.new result
        (certificate_lines basis values number certificate.now states.now causes.now) }
{
    let Some((primary, components)) = states.split_first() else {
        return Ok(());
    };
    let place = Place {
        basis,
        values,
        certificate: number,
        component: None,
    };
    let (cause, behind) = next_cause(causes);
    add_primary(output, place, certificate, *primary, cause)?;
    let parts = certificate.components();
    add_components(output, basis, values, number, parts, components, behind)
}

/// Adds the lines of certificates, numbered from 0.
fn add_certificates<W: Sink>(
    output: &mut Output<'_, W>,
    basis: Basis,
    values: bool,
    certificates: &[Certificate],
    states: &[Vec<PartState>],
    causes: &[Vec<Option<Cause>>],
) -> io::Result<()>
    requires { W.has_failed (sink_of output.old) ≡ false }
    ensures { Extends W.held W.has_failed output.old output.new result
        (lines_from basis values 0 certificates.now (map (λ parts. parts.items) states.now)
        (map (λ parts. parts.items) causes.now)) }
{
    let mut number = 0u64;
    let mut rest = certificates;
    let mut left = states;
    let mut whys = causes;
    'certificates: while let Some((certificate, more)) = rest.split_first() {
        let Some((parts, others)) = left.split_first() else {
            return Ok(());
        };
        let (first, behind) = next_causes(whys);
        add_certificate(output, basis, values, number, certificate, parts, first)?;
        number += 1;
        rest = more;
        left = others;
        whys = behind;
    }
    Ok(())
}

/// Adds one line per part of a keyring with its state: of each certificate the primary key, and
/// then its components, in order. Allocates nothing.
///
/// - Of a key: `cert <n> part <n or -> : <pub or sub> <fingerprint> <how>`, and behind that
///   `uses <uses or -> begin <n> end <n or -> reason <n or ->`. It is `revoked`, `early`,
///   `unbound` or `expired`; else `usable`, or `no-use` if it may be used for nothing. Its uses are
///   `certify`, `sign`, `encrypt` and `authenticate`, with commas between them.
/// - Of a user ID: `cert <n> part <n> : uid <certified, revoked or unbound> "<text>"`, with its
///   text as listings have it.
/// - Of a user attribute: `cert <n> part <n> : uat <certified, revoked or unbound>`.
///
/// Behind the colon stands `unverified`, if nothing is verified. The certificate's number and the
/// part's count from 0; `part -` is the primary key. Times are in seconds since 1970. A reason is
/// the code of the first revocation's (RFC 9580, 5.2.3.31).
///
/// With `values` a key's line goes on with ` <begin date> <end date or ->`: the dates of the two
/// times, as RFC 3339 writes them in UTC. It writes none from the year 10000 on. That of a key of
/// which the states know what makes it of no use goes on, of the [`Cause`], with
/// ` key <pub or sub> lack <word or -> date <n or -> part <n or -> hang <n or -> <date or ->`.
pub fn add_states<W: Sink>(
    output: &mut Output<'_, W>,
    basis: Basis,
    values: bool,
    keyring: &Keyring,
    states: &KeyringStates,
) -> io::Result<()>
    requires { W.has_failed (sink_of output.old) ≡ false }
    ensures { Extends W.held W.has_failed output.old output.new result
        (lines_from basis values 0 keyring.now.certificates (states_in states.now)
        (causes_in states.now)) }
{
    let KeyringStates {
        certificates,
        causes,
    } = states;
    let all = keyring.certificates();
    add_certificates(output, basis, values, all, certificates, causes)
}
