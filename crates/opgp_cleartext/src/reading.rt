//! The parts of a message, line after line: what is in front of it, its headers, and its text.

ghost use Rattle.std.specs.Prelude.{◌≡◌, ◌≤◌, ◌+◌, ◌-◌, [], Ok, Err, length, drop, take, map};
ghost use Rattle.std.specs.Prelude.{IfOk, IfErr};
ghost use Rattle.opgp_armor.specs.Text.{content, lines};
ghost use Rattle.opgp_cleartext.specs.Faults.{InFront, Headers, Text};
ghost use Rattle.opgp_cleartext.specs.Line.{shown_of};
ghost use Rattle.opgp_cleartext.specs.Machine.{FailsSo, front_end, headers_end, reading, text_end};

use crate::hashes::is_hash_header;
use crate::line::{content_of, cut_return, has_return, line_at, unescaped};
use opgp_octets::{Fault, Layer, Reason};

/// The line that begins a message.
const MESSAGE: [u8; 34] = *b"-----BEGIN PGP SIGNED MESSAGE-----";

/// The line that begins a block of signatures.
const SIGNATURE: [u8; 29] = *b"-----BEGIN PGP SIGNATURE-----";

/// What each begin line begins with.
const MARK: [u8; 15] = *b"-----BEGIN PGP ";

/// Where the headers begin.
pub(crate) fn headers_at(text: &[u8], most: u64) -> Result<usize, Fault>
    ensures within { IfOk result (λ at. at ≤ length text.now) }
    ensures ok { IfOk result (λ at. reading most (length text.now) InFront 0 (lines text.now)
        ≡ reading most (length text.now) Headers at (lines (drop at text.now))) }
    ensures err { IfErr result (λ f.
        FailsSo (reading most (length text.now) InFront 0 (lines text.now)) f) }
{
    let mut at = 0;
    'lines: while let Some((line, next)) = line_at(text, at) {
        if line.len() as u64 > most {
            return Err(fault_at(Reason::LineTooLong, at));
        }
        match ends_front(line) {
            Ok(true) => return Ok(next),
            Ok(false) => at = next,
            Err(why) => return Err(fault_at(why, at)),
        }
    }
    Err(fault_at(Reason::NoMessage, text.len()))
}

/// Where the text begins, behind the headers that begin here and a blank line.
pub(crate) fn text_at(text: &[u8], headers: usize, most: u64) -> Result<usize, Fault>
    requires { headers ≤ length text.now }
    ensures within { IfOk result (λ at. at ≤ length text.now) }
    ensures ok { IfOk result (λ at.
        reading most (length text.now) Headers headers (lines (drop headers text.now))
        ≡ reading most (length text.now) (Text []) at (lines (drop at text.now))) }
    ensures err { IfErr result (λ f. FailsSo
        (reading most (length text.now) Headers headers (lines (drop headers text.now))) f) }
{
    let mut at = headers;
    'lines: while let Some((line, next)) = line_at(text, at) {
        if line.len() as u64 > most {
            return Err(fault_at(Reason::LineTooLong, at));
        }
        match ends_headers(line) {
            Ok(true) => return Ok(next),
            Ok(false) => at = next,
            Err(why) => return Err(fault_at(why, at)),
        }
    }
    Err(fault_at(Reason::Unfinished, text.len()))
}

/// Where the signatures begin, behind the text that begins here.
pub(crate) fn signatures_at(text: &[u8], start: usize, most: u64) -> Result<usize, Fault>
    requires { start ≤ length text.now }
    ensures within { IfOk result (λ at. (start ≤ at) × (at ≤ length text.now)) }
    ensures ok { IfOk result (λ at.
        reading most (length text.now) (Text []) start (lines (drop start text.now))
        ≡ Ok (map shown_of (lines (take (at - start) (drop start text.now))), at)) }
    ensures err { IfErr result (λ f. FailsSo
        (reading most (length text.now) (Text []) start (lines (drop start text.now))) f) }
{
    let mut at = start;
    'lines: while let Some((line, next)) = line_at(text, at) {
        if line.len() as u64 > most {
            return Err(fault_at(Reason::LineTooLong, at));
        }
        match ends_text(line) {
            Ok(true) if at == start => return Err(fault_at(Reason::NoText, at)),
            Ok(true) => return Ok(at),
            Ok(false) => at = next,
            Err(why) => return Err(fault_at(why, at)),
        }
    }
    Err(fault_at(Reason::Unfinished, text.len()))
}

/// Whether a line in front of the message begins it; if not, it is blank.
fn ends_front(line: &[u8]) -> Result<bool, Reason>
    ensures { result ≡ front_end line.now (content line.now) }
{
    let content = content_of(line);
    if content.len() == 0 {
        return Ok(false);
    }
    if content == MESSAGE.as_slice() {
        return Ok(true);
    }
    if line.starts_with(MARK.as_slice()) {
        Err(Reason::Label)
    } else {
        Err(Reason::Outside)
    }
}

/// Whether a line among the headers ends them; if not, it is one.
fn ends_headers(line: &[u8]) -> Result<bool, Reason>
    ensures { result ≡ headers_end (content line.now) }
{
    let content = content_of(line);
    if content.len() == 0 {
        return Ok(true);
    }
    if is_hash_header(content) {
        Ok(false)
    } else {
        Err(Reason::Header)
    }
}

/// Whether a line of the text begins the signatures; if not, it says a line of the document.
fn ends_text(line: &[u8]) -> Result<bool, Reason>
    ensures { result ≡ text_end line.now }
{
    let bare = cut_return(line);
    if has_return(bare) {
        return Err(Reason::StrayReturn);
    }
    match unescaped(bare) {
        Some(_) => Ok(false),
        None => {
            if content_of(line) == SIGNATURE.as_slice() {
                Ok(true)
            } else {
                Err(Reason::Unescaped)
            }
        }
    }
}

/// The fault of the line that begins here.
fn fault_at(reason: Reason, at: usize) -> Fault
    ensures reason { result.reason ≡ reason }
    ensures place { result.pos ≡ at }
    ensures layer { result.layer ≡ Layer.Cleartext }
    ensures others { (result.block ≡ 0) × (result.inner ≡ 0) }
{
    Fault {
        layer: Layer::Cleartext,
        reason,
        block: 0,
        pos: at as u64,
        inner: 0,
    }
}
