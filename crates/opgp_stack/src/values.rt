//! The lines that show packets with what they say, without an allocation.

ghost use Rattle.std.specs.Prelude.{◌≡◌, ◌++◌, false, codes, map};
ghost use Rattle.opgp_octets.specs.Octets.{IsBodySized};
ghost use Rattle.opgp_packet.specs.Flags.{flag_shown};
ghost use Rattle.opgp_packet.specs.SubMeaning.{meaning_shown};
ghost use Rattle.opgp_stack.specs.Listing.{signature_line};
ghost use Rattle.opgp_stack.specs.Values.{digits_line, digits_or_none, first_flags, flag_word};
ghost use Rattle.opgp_stack.specs.Values.{flag_words, flags_line, notation_line, number_line};
ghost use Rattle.opgp_stack.specs.Values.{number_text, numbers_line, numbers_text};
ghost use Rattle.opgp_stack.specs.Values.{pair_digits_line, pair_line, print_line, reason_line};
ghost use Rattle.opgp_stack.specs.Values.{text_line, time_line, time_words, value_line};
ghost use Rattle.opgp_io.specs.Line.{word_text};
ghost use Rattle.opgp_io.specs.Output.{Extends, sink_of};

use crate::listing::add_body;
use opgp_io::{Output, Sink, Word};
use opgp_packet::{Flag, SubMeaning, features, key_flags, key_server_preferences};
use opgp_state::add_date;
use std::io;

/// Adds a word, and a number behind it.
fn add_number<W: Sink>(output: &mut Output<'_, W>, word: &[u8], n: u64) -> io::Result<()>
    requires { W.has_failed (sink_of output.old) ≡ false }
    ensures { Extends W.held W.has_failed output.old output.new result (number_line word.now n) }
{
    output.add_words(&[Word::Text(word), Word::Decimal(n), Word::Text(b"\n")])
}

/// Adds a word, and a time behind it, with its date.
fn add_time<W: Sink>(output: &mut Output<'_, W>, word: &[u8], time: u32) -> io::Result<()>
    requires { W.has_failed (sink_of output.old) ≡ false }
    ensures { Extends W.held W.has_failed output.old output.new result (time_line word.now time) }
{
    add_seconds(output, word, time)?;
    add_date(output, time)
}

/// Adds a word, and the seconds of a time.
fn add_seconds<W: Sink>(output: &mut Output<'_, W>, word: &[u8], time: u32) -> io::Result<()>
    requires { W.has_failed (sink_of output.old) ≡ false }
    ensures { Extends W.held W.has_failed output.old output.new result (time_words word.now time) }
{
    output.add_words(&[Word::Text(word), Word::Decimal(time as u64)])
}

/// Adds two numbers, each behind its word.
fn add_pair<'a, W: Sink>(
    output: &mut Output<'_, W>,
    word: &'a [u8],
    n: u8,
    next: &'a [u8],
    m: u8,
) -> io::Result<()>
    requires { W.has_failed (sink_of output.old) ≡ false }
    ensures { Extends W.held W.has_failed output.old output.new result
        (pair_line word.now n next.now m) }
{
    output.add_words(&[
        Word::Text(word),
        Word::Decimal(n as u64),
        Word::Text(next),
        Word::Decimal(m as u64),
        Word::Text(b"\n"),
    ])
}

/// Adds a word, and a text behind it.
fn add_text<'a, W: Sink>(
    output: &mut Output<'_, W>,
    word: &'a [u8],
    text: &'a [u8],
) -> io::Result<()>
    requires { W.has_failed (sink_of output.old) ≡ false }
    ensures { Extends W.held W.has_failed output.old output.new result
        (text_line word.now text.now) }
{
    output.add_words(&[
        Word::Text(word),
        Word::Text(b"\""),
        Word::Escaped(text),
        Word::Text(b"\"\n"),
    ])
}

/// The octets, to be added in hexadecimal, or a word for none.
fn digits_word(octets: &[u8]) -> Word<'_>
    ensures { word_text result ≡ digits_or_none octets.now }
{
    if octets.is_empty() {
        Word::Text(b"-")
    } else {
        Word::Hex(octets)
    }
}

/// Adds a word, and octets behind it.
fn add_digits<'a, W: Sink>(
    output: &mut Output<'_, W>,
    word: &'a [u8],
    octets: &'a [u8],
) -> io::Result<()>
    requires { W.has_failed (sink_of output.old) ≡ false }
    ensures { Extends W.held W.has_failed output.old output.new result
        (digits_line word.now octets.now) }
{
    output.add_words(&[Word::Text(word), digits_word(octets), Word::Text(b"\n")])
}

/// Adds two numbers, each behind its word, and octets.
fn add_pair_digits<'a, W: Sink>(
    output: &mut Output<'_, W>,
    word: &'a [u8],
    n: u8,
    next: &'a [u8],
    m: u8,
    octets: &'a [u8],
) -> io::Result<()>
    requires { W.has_failed (sink_of output.old) ≡ false }
    ensures { Extends W.held W.has_failed output.old output.new result
        (pair_digits_line word.now n next.now m octets.now) }
{
    output.add_words(&[
        Word::Text(word),
        Word::Decimal(n as u64),
        Word::Text(next),
        Word::Decimal(m as u64),
        Word::Text(b" "),
        digits_word(octets),
        Word::Text(b"\n"),
    ])
}

/// Adds a word, and numbers behind it.
fn add_numbers<W: Sink>(output: &mut Output<'_, W>, word: &[u8], list: &[u8]) -> io::Result<()>
    requires { W.has_failed (sink_of output.old) ≡ false }
    ensures { Extends W.held W.has_failed output.old output.new result
        (numbers_line word.now list.now) }
{
    output.add(word)?;
    add_each(output, list)?;
    output.add(b"\n")
}

/// Adds numbers, each behind a space.
fn add_each<W: Sink>(output: &mut Output<'_, W>, list: &[u8]) -> io::Result<()>
    requires { W.has_failed (sink_of output.old) ≡ false }
    ensures { Extends W.held W.has_failed output.old output.new result (numbers_text list.now) }
{
    let mut left = list;
    'numbers: while let [number, rest @ ..] = left {
        add_one(output, *number)?;
        left = rest;
    }
    Ok(())
}

/// Adds a number behind a space.
fn add_one<W: Sink>(output: &mut Output<'_, W>, number: u8) -> io::Result<()>
    requires { W.has_failed (sink_of output.old) ≡ false }
    ensures { Extends W.held W.has_failed output.old output.new result (number_text number) }
{
    output.add_words(&[Word::Text(b" "), Word::Decimal(number as u64)])
}

/// The octet of flags in which those are that have a name.
fn first(flags: &[u8]) -> u8
    ensures { result ≡ first_flags flags.now }
{
    match flags {
        [first, ..] => *first,
        [] => 0,
    }
}

/// Adds the name of a flag behind a space, if its bit is set.
fn add_flag<W: Sink>(output: &mut Output<'_, W>, flags: u8, flag: &Flag) -> io::Result<()>
    requires { W.has_failed (sink_of output.old) ≡ false }
    ensures { Extends W.held W.has_failed output.old output.new result
        (flag_word flags (flag_shown flag.now)) }
{
    if flags & flag.bit == 0 {
        return Ok(());
    }
    output.add_words(&[Word::Text(b" "), Word::Text(flag.name.as_bytes())])
}

/// Adds the names of the flags whose bits are set, each behind a space.
fn add_each_flag<W: Sink>(output: &mut Output<'_, W>, flags: u8, names: &[Flag]) -> io::Result<()>
    requires { W.has_failed (sink_of output.old) ≡ false }
    ensures { Extends W.held W.has_failed output.old output.new result
        (flag_words flags (map flag_shown names.now)) }
{
    let mut left = names;
    'each: while let [flag, rest @ ..] = left {
        add_flag(output, flags, flag)?;
        left = rest;
    }
    Ok(())
}

/// Adds a word, and flags behind it, in hexadecimal and by name.
fn add_flags<'a, W: Sink>(
    output: &mut Output<'_, W>,
    word: &'a [u8],
    flags: &'a [u8],
    names: &[Flag],
) -> io::Result<()>
    requires { W.has_failed (sink_of output.old) ≡ false }
    ensures { Extends W.held W.has_failed output.old output.new result
        (flags_line word.now flags.now (map flag_shown names.now)) }
{
    output.add_words(&[Word::Text(word), digits_word(flags)])?;
    add_each_flag(output, first(flags), names)?;
    output.add(b"\n")
}

/// Adds a key's version and fingerprint.
fn add_print<'a, W: Sink>(
    output: &mut Output<'_, W>,
    word: &'a [u8],
    version: u8,
    print: &'a [u8],
) -> io::Result<()>
    requires { W.has_failed (sink_of output.old) ≡ false }
    ensures { Extends W.held W.has_failed output.old output.new result
        (print_line word.now version print.now) }
{
    output.add_words(&[
        Word::Text(word),
        Word::Decimal(version as u64),
        Word::Text(b" "),
        Word::Hex(print),
        Word::Text(b"\n"),
    ])
}

/// Adds the flags, the name and the value of a notation.
fn add_notation<'a, W: Sink>(
    output: &mut Output<'_, W>,
    flags: u32,
    name: &'a [u8],
    value: &'a [u8],
) -> io::Result<()>
    requires { W.has_failed (sink_of output.old) ≡ false }
    ensures { Extends W.held W.has_failed output.old output.new result
        (notation_line flags name.now value.now) }
{
    output.add_words(&[
        Word::Text(b" notation "),
        Word::Decimal(flags as u64),
        Word::Text(b" \""),
        Word::Escaped(name),
        Word::Text(b"\" \""),
        Word::Escaped(value),
        Word::Text(b"\"\n"),
    ])
}

/// Adds the code and the text of a reason for a revocation.
fn add_reason<W: Sink>(output: &mut Output<'_, W>, code: u8, text: &[u8]) -> io::Result<()>
    requires { W.has_failed (sink_of output.old) ≡ false }
    ensures { Extends W.held W.has_failed output.old output.new result
        (reason_line code text.now) }
{
    output.add_words(&[
        Word::Text(b" reason "),
        Word::Decimal(code as u64),
        Word::Text(b" \""),
        Word::Escaped(text),
        Word::Text(b"\"\n"),
    ])
}

/// Adds the fields of a signature that is embedded.
fn add_embedded<W: Sink>(output: &mut Output<'_, W>, body: &[u8]) -> io::Result<()>
    requires small { IsBodySized body.now }
    requires sound { W.has_failed (sink_of output.old) ≡ false }
    ensures { Extends W.held W.has_failed output.old output.new result
        (codes " " ++ signature_line body.now) }
{
    output.add(b" ")?;
    add_body(output, body)
}

/// Adds the end of a subpacket's line: what it means; the octets are its data.
pub(crate) fn add_value<W: Sink>(
    output: &mut Output<'_, W>,
    meaning: SubMeaning<'_>,
    octets: &[u8],
) -> io::Result<()>
    requires small { IsBodySized octets.now }
    requires sound { W.has_failed (sink_of output.old) ≡ false }
    ensures { Extends W.held W.has_failed output.old output.new result
        (value_line (meaning_shown meaning.entry) octets.now) }
{
    match meaning {
        SubMeaning::Created(n) => add_time(output, b" created ", n),
        SubMeaning::Expires(n) => add_number(output, b" expires ", n as u64),
        SubMeaning::Exportable(n) => add_number(output, b" exportable ", n as u64),
        SubMeaning::Trust { level, amount } => {
            add_pair(output, b" trust level ", level, b" amount ", amount)
        }
        SubMeaning::RegularExpression(text) => add_text(output, b" regex ", text),
        SubMeaning::Revocable(n) => add_number(output, b" revocable ", n as u64),
        SubMeaning::KeyExpires(n) => add_number(output, b" key-expires ", n as u64),
        SubMeaning::PreferredSymmetric(list) => add_numbers(output, b" symmetric", list),
        SubMeaning::RevocationKey {
            class,
            algorithm,
            fingerprint,
        } => add_pair_digits(
            output,
            b" revocation-key class ",
            class,
            b" alg ",
            algorithm,
            fingerprint,
        ),
        SubMeaning::Issuer(id) => add_digits(output, b" issuer ", &id),
        SubMeaning::Notation { flags, name, value } => add_notation(output, flags, name, value),
        SubMeaning::PreferredHash(list) => add_numbers(output, b" hash", list),
        SubMeaning::PreferredCompression(list) => add_numbers(output, b" compression", list),
        SubMeaning::KeyServerPreferences(flags) => add_flags(
            output,
            b" server-flags ",
            flags,
            key_server_preferences(),
        ),
        SubMeaning::PreferredKeyServer(text) => add_text(output, b" key-server ", text),
        SubMeaning::PrimaryUserId(n) => add_number(output, b" primary-user-id ", n as u64),
        SubMeaning::PolicyUri(text) => add_text(output, b" policy ", text),
        SubMeaning::KeyFlags(flags) => add_flags(output, b" key-flags ", flags, key_flags()),
        SubMeaning::SignersUserId(text) => add_text(output, b" signers-user-id ", text),
        SubMeaning::RevocationReason { code, text } => add_reason(output, code, text),
        SubMeaning::Features(flags) => add_flags(output, b" features ", flags, features()),
        SubMeaning::SignatureTarget {
            algorithm,
            hash,
            digest,
        } => add_pair_digits(output, b" target alg ", algorithm, b" hash ", hash, digest),
        SubMeaning::EmbeddedSignature(_) => add_embedded(output, octets),
        SubMeaning::IssuerFingerprint {
            version,
            fingerprint,
        } => add_print(output, b" issuer-fingerprint v", version, fingerprint),
        SubMeaning::IntendedRecipient {
            version,
            fingerprint,
        } => add_print(output, b" recipient v", version, fingerprint),
        SubMeaning::PreferredAead(list) => add_numbers(output, b" aead", list),
        _ => add_digits(output, b" ", octets),
    }
}
