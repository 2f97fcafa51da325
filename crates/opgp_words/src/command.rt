//! The program's commands and their options, as `clap` reads them.

ghost use Rattle.std.specs.Prelude.{◌≡◌, true, false, IfOk, IsOkAnd, [], ◌∷◌, codes};
ghost use Rattle.clap.specs.Words.{rule_of, app_of, shape_of, with_rule, with_subcommand};
ghost use Rattle.opgp_words.specs.Program.{Choice, AreModes, ArePolicies, AreSignaturePolicies};
ghost use Rattle.opgp_words.specs.Program.{AreOuts, AreTops, mode_rule, outside_rule};
ghost use Rattle.opgp_words.specs.Program.{malformed_rule, out_rule, of_rule, limit_rule, row_rule};
ghost use Rattle.opgp_words.specs.Program.{AreWhens, bound_rule, hints_rule, newest_rule};
ghost use Rattle.opgp_words.specs.Program.{nth_rule, flag_rule, merge_rule, key_rule, choice_rule};
ghost use Rattle.opgp_words.specs.Program.{number_rule, valued_rule, text_rule, values_rule};
ghost use Rattle.opgp_words.specs.Program.{judged_at_rule, wanted_rule};
ghost use Rattle.opgp_words.specs.Program.{fingerprints_rule, places_rule, all_rule, explain_rule};
ghost use Rattle.opgp_words.specs.Program.{with_limits};
ghost use Rattle.opgp_words.specs.Program.{signatures_rule, signature_rule, salt_rule};
ghost use Rattle.opgp_words.specs.Program.{AreParts, part_rule};
ghost use Rattle.opgp_words.specs.Program.{AreReliances, at_rule, policy_rule, verdicts_rule};
ghost use Rattle.opgp_words.specs.Program.{own_signatures_rule, no_attributes_rule, user_id_rule};
ghost use Rattle.opgp_words.specs.Program.{except_rule, keys_rule, old_rule, repeated_rule};
ghost use Rattle.opgp_words.specs.Program.{IsCommand, IsListing, IsProgram, IsWriting, bare_program};

use crate::help::{
    CANONICAL_HELP, CHECK_HELP, CLEARTEXT_HELP, DIFF_HELP, DIGEST_HELP, JOIN_HELP, LIST_HELP,
    NORMALISE_HELP, OCTETS_HELP, PROGRAM_HELP, SHOW_HELP, SIGNATURES_HELP, SPLIT_HELP, STATE_HELP,
    WRITE_HELP,
};
use clap::builder::ValueParser;
use clap::{Arg, ArgAction, Command};
use opgp_octets::{Limits, OutOfMemory, Range};
use std::alloc::Global;

static MODES: [&str; 3] = ["auto", "armor", "binary"];

static POLICIES: [&str; 2] = ["skip", "refuse"];

static SIGNATURE_POLICIES: [&str; 2] = ["refuse", "keep"];

static WHENS: [&str; 3] = ["auto", "always", "never"];

static OUTS: [&str; 2] = ["armor", "binary"];

static RELIANCES: [&str; 2] = ["usual", "any"];

static TOPS: [&str; 2] = ["ring", "literal"];

static PARTS: [&str; 3] = ["document", "hashed", "signatures"];

/// An option with one value, which this parser checks.
fn valued_option<'a>(
    alloc: Global,
    name: &'a str,
    value: &'a str,
    parser: ValueParser<'a>,
    help: &'a str,
) -> Arg<'a>
    ensures rule { rule_of result ≡ valued_rule name.entry.now parser.entry }
    ensures own { result.global ≡ false }
{
    Arg::new(alloc, name)
        .long(name)
        .value_name(value)
        .action(ArgAction::Set)
        .value_parser(parser)
        .help(help)
}

/// An option whose value is one of some words, or `usual` if the option isn't given.
fn choice_option<'a>(
    alloc: Global,
    name: &'a str,
    value: &'a str,
    words: &'a [&'a str],
    usual: &'a str,
    help: &'a str,
) -> Arg<'a>
    ensures rule { rule_of result ≡ choice_rule name.entry.now words.entry usual.entry.now }
    ensures own { result.global ≡ false }
{
    valued_option(alloc, name, value, ValueParser::Names(words), help).default_value(usual)
}

/// `--mode`: how the input is read.
fn mode_option<'a>(alloc: Global) -> Arg<'a>
    ensures rule { (words : Choice) × AreModes words × (rule_of result ≡ mode_rule words) }
    ensures own { result.global ≡ false }
{
    let help = "How to read the input";
    choice_option(alloc, "mode", "MODE", MODES.as_slice(), "auto", help)
}

/// `--outside`: what becomes of lines outside of armored blocks.
fn outside_option<'a>(alloc: Global) -> Arg<'a>
    ensures rule { (words : Choice) × ArePolicies words × (rule_of result ≡ outside_rule words) }
    ensures own { result.global ≡ false }
{
    let help = "What to do with lines outside of armored blocks";
    choice_option(
        alloc,
        "outside",
        "POLICY",
        POLICIES.as_slice(),
        "skip",
        help,
    )
}

/// `--malformed`: what becomes of malformed signatures.
fn malformed_option<'a>(alloc: Global) -> Arg<'a>
    ensures rule { (words : Choice)
        × AreSignaturePolicies words × (rule_of result ≡ malformed_rule words) }
    ensures own { result.global ≡ false }
{
    let help = "What to do with malformed signatures";
    choice_option(
        alloc,
        "malformed",
        "POLICY",
        SIGNATURE_POLICIES.as_slice(),
        "refuse",
        help,
    )
}

/// `--hints`: when a line for people follows a fault.
fn hints_option<'a>(alloc: Global) -> Arg<'a>
    ensures rule { (words : Choice) × AreWhens words × (rule_of result ≡ hints_rule words) }
    ensures own { result.global ≡ false }
{
    let help = "When to say on standard error what a refused input seems to be, and what to do";
    choice_option(alloc, "hints", "WHEN", WHENS.as_slice(), "auto", help)
}

/// `--out`: how keyrings are written.
fn out_option<'a>(alloc: Global) -> Arg<'a>
    ensures rule { (words : Choice) × AreOuts words × (rule_of result ≡ out_rule words) }
    ensures own { result.global ≡ false }
{
    let help = "How to write keyrings";
    choice_option(alloc, "out", "OUT", OUTS.as_slice(), "armor", help)
}

/// `--policy`: what is relied on.
fn policy_option<'a>(alloc: Global) -> Arg<'a>
    ensures rule { (words : Choice) × AreReliances words × (rule_of result ≡ policy_rule words) }
    ensures own { result.global ≡ false }
{
    let help = "Which hash algorithms and keys to rely on";
    choice_option(
        alloc,
        "policy",
        "POLICY",
        RELIANCES.as_slice(),
        "usual",
        help,
    )
}

/// `--of`: what the input is read as.
fn of_option<'a>(alloc: Global) -> Arg<'a>
    ensures rule { (words : Choice) × AreTops words × (rule_of result ≡ of_rule words) }
    ensures own { result.global ≡ false }
{
    let help = "What to read the input as";
    choice_option(alloc, "of", "TOP", TOPS.as_slice(), "ring", help)
}

/// `--of` of a cleartext message: which part of it is written.
fn part_option<'a>(alloc: Global) -> Arg<'a>
    ensures rule { (words : Choice) × AreParts words × (rule_of result ≡ part_rule words) }
    ensures own { result.global ≡ false }
{
    let help = "What to write of the message";
    choice_option(alloc, "of", "PART", PARTS.as_slice(), "document", help)
}

/// A limit: a number in its range, or `usual` if the option isn't given.
fn limit_option<'a>(
    alloc: Global,
    name: &'a str,
    range: Range,
    usual: &'a str,
    help: &'a str,
) -> Arg<'a>
    ensures rule { rule_of result ≡ limit_rule name.entry.now range usual.entry.now }
    ensures own { result.global ≡ false }
{
    let parser = ValueParser::Unsigned(range.least, range.most);
    valued_option(alloc, name, "N", parser, help).default_value(usual)
}

/// The command with the options of the limits added, as its last, if it could be made.
fn with_limits<'a>(
    alloc: Global,
    command: Result<Command<'a>, OutOfMemory>,
) -> Result<Command<'a>, OutOfMemory>
    ensures { IfOk result (λ r. IsOkAnd command.entry (λ c. app_of r ≡ with_limits (app_of c))) }
{
    let help = "The most octets of an armored line, 128 to 1048576";
    let line = limit_option(alloc, "line", Limits::LINE, "8192", help);
    let command = with_option(command, line);
    let help = "The most octets of a packet's body, 512 to 4294967295";
    let body = limit_option(alloc, "body", Limits::BODY, "16777216", help);
    let command = with_option(command, body);
    let help = "The most octets of a certificate, 512 to 1099511627776";
    let cert = limit_option(alloc, "cert", Limits::CERT, "67108864", help);
    let command = with_option(command, cert);
    let help = "The most octets of the input, 0 to 4611686018427387904";
    let input = limit_option(alloc, "input", Limits::INPUT, "1099511627776", help);
    let command = with_option(command, input);
    let help = "The most partial lengths of a packet, 1 to 16777216";
    let pieces = limit_option(alloc, "pieces", Limits::PIECES, "1048576", help);
    with_option(command, pieces)
}

/// An option whose value is any `u64`.
fn number_option<'a>(alloc: Global, name: &'a str, help: &'a str) -> Arg<'a>
    ensures rule { rule_of result ≡ number_rule name.entry.now }
    ensures own { result.global ≡ false }
{
    valued_option(alloc, name, "N", ValueParser::Unsigned(0, u64::MAX), help)
}

/// A flag, which takes no value.
fn flag_option<'a>(alloc: Global, name: &'a str, help: &'a str) -> Arg<'a>
    ensures rule { rule_of result ≡ flag_rule name.entry.now }
    ensures own { result.global ≡ false }
{
    Arg::new(alloc, name)
        .long(name)
        .action(ArgAction::SetTrue)
        .help(help)
}

/// An option whose value is any text but the empty one.
fn text_option<'a>(alloc: Global, name: &'a str, value: &'a str, help: &'a str) -> Arg<'a>
    ensures rule { rule_of result ≡ text_rule name.entry.now }
    ensures own { result.global ≡ false }
{
    valued_option(alloc, name, value, ValueParser::NonEmptyString, help)
}

/// The same, which must be given.
fn wanted_option<'a>(alloc: Global, name: &'a str, value: &'a str, help: &'a str) -> Arg<'a>
    ensures rule { rule_of result ≡ wanted_rule name.entry.now }
    ensures own { result.global ≡ false }
{
    text_option(alloc, name, value, help).required(true)
}

/// An option with one value, which this parser checks, that may be given again and again.
fn repeated_option<'a>(
    alloc: Global,
    name: &'a str,
    value: &'a str,
    parser: ValueParser<'a>,
    help: &'a str,
) -> Arg<'a>
    ensures rule { rule_of result ≡ repeated_rule name.entry.now parser.entry }
    ensures own { result.global ≡ false }
{
    valued_option(alloc, name, value, parser, help).action(ArgAction::Append)
}

/// The command with this option added, as its last, if it could be made.
fn with_option<'a>(
    command: Result<Command<'a>, OutOfMemory>,
    option: Arg<'a>,
) -> Result<Command<'a>, OutOfMemory>
    requires own { option.global ≡ false }
    ensures { IfOk result (λ r. IsOkAnd command.entry (λ c. app_of r ≡ with_rule (app_of c)
        (rule_of option.entry))) }
{
    command?.arg(option)
}

/// The program with this command added, as its last, if it could be made.
fn with_command<'a>(
    tool: Command<'a>,
    command: Result<Command<'a>, OutOfMemory>,
) -> Result<Command<'a>, OutOfMemory>
    ensures { IfOk result (λ r. IsOkAnd command.entry (λ c. (app_of c).top.is_plain ≡ true
        → app_of r ≡ with_subcommand (app_of tool.entry) (shape_of c))) }
{
    tool.subcommand(command?)
}

/// A command with the options that every command takes. Its help begins with `about`, and ends with
/// `more`.
fn new_command<'a>(
    alloc: Global,
    name: &'a str,
    about: &'a str,
    more: &'a str,
) -> Result<Command<'a>, OutOfMemory>
    ensures { IfOk result (IsCommand name.entry.now []) }
{
    let command = Ok(Command::new(alloc, name).about(about).after_help(more));
    let command = with_option(command, mode_option(alloc));
    let command = with_option(command, outside_option(alloc));
    let command = with_option(command, malformed_option(alloc));
    let command = with_limits(alloc, command);
    let help = "Show on standard error how much was read";
    let command = with_option(command, flag_option(alloc, "progress", help));
    let help = "The same as --hints never";
    let command = with_option(command, flag_option(alloc, "quiet", help));
    let command = with_option(command, hints_option(alloc));
    let help = "Hold the output in a file in this directory";
    with_option(command, text_option(alloc, "spool", "DIR", help))
}

fn show_command<'a>(alloc: Global) -> Result<Command<'a>, OutOfMemory>
    ensures { IfOk result (IsCommand (codes "show") (values_rule ∷ [])) }
{
    let about = "List every packet and every subpacket";
    let command = new_command(alloc, "show", about, SHOW_HELP);
    let help = "Show the fields of each packet, and what each subpacket means";
    with_option(command, flag_option(alloc, "values", help))
}

fn list_command<'a>(alloc: Global) -> Result<Command<'a>, OutOfMemory>
    ensures { IfOk result (IsCommand (codes "list") (values_rule ∷ [])) }
{
    let about = "List the packets of a keyring";
    let command = new_command(alloc, "list", about, LIST_HELP);
    let help = "Show how large each key is, and who made each signature, and when";
    with_option(command, flag_option(alloc, "values", help))
}

fn check_command<'a>(alloc: Global) -> Result<Command<'a>, OutOfMemory>
    ensures { IfOk result (IsCommand (codes "check") (fingerprints_rule ∷ places_rule ∷ [])) }
{
    let about = "List the signatures of a keyring";
    let command = new_command(alloc, "check", about, CHECK_HELP);
    let help = "Show the fingerprints of each signature's certificate and signer";
    let command = with_option(command, flag_option(alloc, "fingerprints", help));
    let help = "Show the number of each signature's packet, and of the user ID that it is on";
    with_option(command, flag_option(alloc, "places", help))
}

fn state_command<'a>(alloc: Global) -> Result<Command<'a>, OutOfMemory>
    ensures { IfOk result (λ c. (reliances : Choice) × AreReliances reliances
        × IsCommand (codes "state")
        (judged_at_rule ∷ policy_rule reliances ∷ verdicts_rule ∷ values_rule ∷ []) c) }
{
    let about = "List how the keys and user IDs of a keyring stand at a time";
    let command = new_command(alloc, "state", about, STATE_HELP);
    let help = "The time, in seconds since 1970 or as a UTC date";
    let command = with_option(command, wanted_option(alloc, "at", "TIME", help));
    let command = with_option(command, policy_option(alloc));
    let help = "The file of a verifier's verdicts on the signatures";
    let command = with_option(command, text_option(alloc, "verdicts", "FILE", help));
    let help = "Show dates, and why a key isn't usable";
    with_option(command, flag_option(alloc, "values", help))
}

fn octets_command<'a>(alloc: Global) -> Result<Command<'a>, OutOfMemory>
    ensures { IfOk result (λ c. (tops : Choice) × AreTops tops
        × IsCommand (codes "octets") (row_rule ∷ of_rule tops ∷ all_rule ∷ explain_rule ∷ []) c) }
{
    let about = "Write the octets that signatures hash";
    let command = new_command(alloc, "octets", about, OCTETS_HELP);
    let help = "The number of the signature's row, from 0";
    let command = with_option(command, number_option(alloc, "row", help));
    let command = with_option(command, of_option(alloc));
    let help = "Write those of every row, each after a line of its own";
    let command = with_option(command, flag_option(alloc, "all", help));
    let help = "Write a line for each field of the octets instead";
    with_option(command, flag_option(alloc, "explain", help))
}

/// A command that writes keyrings.
fn writing_command<'a>(
    alloc: Global,
    name: &'a str,
    about: &'a str,
    more: &'a str,
) -> Result<Command<'a>, OutOfMemory>
    ensures { IfOk result (λ c. (outs : Choice) × AreOuts outs
        × IsCommand name.entry.now (out_rule outs ∷ []) c) }
{
    with_option(new_command(alloc, name, about, more), out_option(alloc))
}

fn write_command<'a>(alloc: Global) -> Result<Command<'a>, OutOfMemory>
    ensures { IfOk result (λ c. (outs : Choice) × AreOuts outs × IsCommand (codes "write")
        (out_rule outs ∷ own_signatures_rule ∷ no_attributes_rule ∷ user_id_rule ∷ bound_rule
        ∷ verdicts_rule ∷ newest_rule ∷ at_rule ∷ []) c) }
{
    let about = "Write a keyring, with its framing";
    let command = writing_command(alloc, "write", about, WRITE_HELP);
    let help = "Leave out signatures that don't name the primary key as their issuer";
    let command = with_option(command, flag_option(alloc, "own-signatures", help));
    let help = "Leave out user attributes";
    let command = with_option(command, flag_option(alloc, "no-attributes", help));
    let help = "The number of a user ID to keep in each certificate, from 0";
    let numbers = ValueParser::Unsigned(0, u64::MAX);
    let user_id = repeated_option(alloc, "user-id", "N", numbers, help);
    let command = with_option(command, user_id);
    let help = "Leave out what no good self-signature binds, by the file of --verdicts";
    let command = with_option(command, flag_option(alloc, "bound", help));
    let help = "The file of a verifier's verdicts on the signatures";
    let command = with_option(command, text_option(alloc, "verdicts", "FILE", help));
    let help = "With --bound, leave out what a newer self-signature replaces at the time of --at";
    let command = with_option(command, flag_option(alloc, "newest", help));
    let help = "The time of --newest, in seconds since 1970 or as a UTC date";
    with_option(command, text_option(alloc, "at", "TIME", help))
}

fn split_command<'a>(alloc: Global) -> Result<Command<'a>, OutOfMemory>
    ensures { IfOk result (λ c. (outs : Choice) × AreOuts outs
        × IsCommand (codes "split")
        (out_rule outs ∷ nth_rule ∷ key_rule ∷ keys_rule ∷ except_rule ∷ []) c) }
{
    let about = "Write each certificate by itself, or some of them";
    let command = writing_command(alloc, "split", about, SPLIT_HELP);
    let help = "The number of the one certificate to write, from 0";
    let command = with_option(command, number_option(alloc, "nth", help));
    let help = "The fingerprint or key ID of a key of the certificates to write";
    let key = repeated_option(alloc, "key", "KEY", ValueParser::NonEmptyString, help);
    let command = with_option(command, key);
    let help = "A file of such fingerprints and key IDs, one in each line";
    let command = with_option(command, text_option(alloc, "keys", "FILE", help));
    let help = "Write all certificates but those";
    with_option(command, flag_option(alloc, "except", help))
}

fn join_command<'a>(alloc: Global) -> Result<Command<'a>, OutOfMemory>
    ensures { IfOk result (λ c. (outs : Choice) × AreOuts outs
        × IsCommand (codes "join") (out_rule outs ∷ merge_rule ∷ []) c) }
{
    let about = "Write all blocks of the input as one keyring";
    let command = writing_command(alloc, "join", about, JOIN_HELP);
    let help = "Merge certificates of the same primary key";
    with_option(command, flag_option(alloc, "merge", help))
}

fn digest_command<'a>(alloc: Global) -> Result<Command<'a>, OutOfMemory>
    ensures { IfOk result (IsCommand (codes "digest")
        (signatures_rule ∷ signature_rule ∷ salt_rule ∷ [])) }
{
    let about = "List the digests that signatures have of a document";
    let command = new_command(alloc, "digest", about, DIGEST_HELP);
    let help = "The file of the detached signatures";
    let command = with_option(command, wanted_option(alloc, "signatures", "FILE", help));
    let help = "Write what the signature of this number hashes behind the document";
    let command = with_option(command, number_option(alloc, "octets", help));
    let help = "With --octets, write what it hashes in front of it";
    with_option(command, flag_option(alloc, "salt", help))
}

fn cleartext_command<'a>(alloc: Global) -> Result<Command<'a>, OutOfMemory>
    ensures { IfOk result (λ c. (parts : Choice) × AreParts parts
        × IsCommand (codes "cleartext") (part_rule parts ∷ []) c) }
{
    let about = "Write the document of a cleartext signed message";
    let command = new_command(alloc, "cleartext", about, CLEARTEXT_HELP);
    with_option(command, part_option(alloc))
}

fn diff_command<'a>(alloc: Global) -> Result<Command<'a>, OutOfMemory>
    ensures { IfOk result (IsCommand (codes "diff") (old_rule ∷ [])) }
{
    let about = "List what changed from an old keyring";
    let command = new_command(alloc, "diff", about, DIFF_HELP);
    let help = "The file of the old keyring";
    with_option(command, wanted_option(alloc, "old", "FILE", help))
}

/// The program without its commands.
fn bare_program<'a>(alloc: Global) -> Result<Command<'a>, OutOfMemory>
    ensures { IfOk result (λ c. app_of c ≡ bare_program) }
{
    Command::new(alloc, "opgp")
        .about("Read OpenPGP keyrings from standard input")
        .after_help(PROGRAM_HELP)
        .subcommand_required(true)
        .bin_name("opgp")
}

/// The program with the commands that list what they read.
fn listing_program<'a>(alloc: Global) -> Result<Command<'a>, OutOfMemory>
    ensures { IfOk result (λ c. IsListing (app_of c)) }
{
    let tool = bare_program(alloc)?;
    let tool = with_command(tool, show_command(alloc))?;
    let tool = with_command(tool, list_command(alloc))?;
    let tool = with_command(tool, check_command(alloc))?;
    let tool = with_command(tool, state_command(alloc))?;
    with_command(tool, octets_command(alloc))
}

/// The same with those that write keyrings.
fn writing_program<'a>(alloc: Global) -> Result<Command<'a>, OutOfMemory>
    ensures { IfOk result (λ c. IsWriting (app_of c)) }
{
    let tool = listing_program(alloc)?;
    let tool = with_command(tool, write_command(alloc))?;
    let about = "Write a keyring in the current format";
    let tool = with_command(
        tool,
        writing_command(alloc, "normalise", about, NORMALISE_HELP),
    )?;
    let tool = with_command(tool, split_command(alloc))?;
    with_command(tool, join_command(alloc))
}

/// The program and its fourteen commands.
pub fn program<'a>(alloc: Global) -> Result<Command<'a>, OutOfMemory>
    ensures { IfOk result (λ c. IsProgram (app_of c)) }
{
    let tool = writing_program(alloc)?;
    let about = "List detached signatures";
    let tool = with_command(
        tool,
        new_command(alloc, "signatures", about, SIGNATURES_HELP),
    )?;
    let tool = with_command(tool, digest_command(alloc))?;
    let about = "Write the canonical text of a document";
    let tool = with_command(tool, new_command(alloc, "canonical", about, CANONICAL_HELP))?;
    let tool = with_command(tool, cleartext_command(alloc))?;
    with_command(tool, diff_command(alloc))
}
