//! Files of verdicts.

ghost use Rattle.std.specs.Prelude.{◌≡◌, ◌++◌, ℕ, List, IfOk, IfNone, IfSome, MatchOption, map};
ghost use Rattle.opgp_report.specs.Row.{finding_value, row_value};
ghost use Rattle.opgp_report.specs.declared.verifier.Verdict.{Verdict};
ghost use Rattle.opgp_state.specs.VerdictFile.{AreVerdictLines, HasVerdicts, IsLineOf, SaysOf};
ghost use Rattle.opgp_state.specs.VerdictFile.{head_line, keyring_digest};

use crate::keyring_digest::keyring_digest;
use crate::row_front::{Front, front_of};
use crate::verdict_lines::{ReadVerdict, behind, said};
use opgp_io::Buffer;
use opgp_keyring::Keyring;
use opgp_octets::OutOfMemory;
use opgp_report::{Finding, LeftOctets, Row, Verdict, check};
use std::alloc::Global;

/// The verdict in the line of a row, where this is behind its front, and what is behind the line.
fn said_of<'a>(finding: &Finding, octets: &'a [u8]) -> Option<ReadVerdict<'a>>
    ensures some { IfSome result (λ s.
        SaysOf (finding_value finding.now) octets.now s.verdict s.rest.now) }
    ensures none { IfNone result ((verdict : Verdict) (rest : List ℕ)
        → SaysOf (finding_value finding.now) octets.now verdict rest → ⊥) }
{
    match finding {
        Finding::NotAsked(_) => match behind(octets, b"\n") {
            Some(rest) => Some(ReadVerdict {
                verdict: Verdict::Undecided,
                rest,
            }),
            None => said(octets),
        },
        Finding::Asked { verdict: own, .. } => {
            let said = said(octets)?;
            match (own, said.verdict) {
                (Verdict::Bad, Verdict::Good) | (Verdict::Bad, Verdict::Undecided) => None,
                _ => Some(said),
            }
        }
    }
}

/// The verdict in the line of a row at the front of a file, and what is behind the line. Fails only
/// when out of memory.
fn read_line<'a>(
    alloc: Global,
    buffer: &mut Buffer,
    number: u64,
    row: &Row,
    file: &'a [u8],
) -> Result<Option<ReadVerdict<'a>>, OutOfMemory>
    ensures some { IfOk result (λ found. IfSome found (λ s.
        IsLineOf number (row_value row.now) s.verdict file.now s.rest.now)) }
    ensures none { IfOk result (λ found. IfNone found ((verdict : Verdict) (rest : List ℕ)
        → IsLineOf number (row_value row.now) verdict file.now rest → ⊥)) }
{
    let front = front_of(alloc, buffer, Front::Row(number, row))?;
    match behind(file, &front) {
        Some(octets) => Ok(said_of(&row.finding, octets)),
        None => Ok(None),
    }
}

/// The verdicts that a file has on rows, if it has a line for each of them. Fails only when out of
/// memory.
fn read_lines(
    alloc: Global,
    buffer: &mut Buffer,
    rows: &[Row],
    file: &[u8],
) -> Result<Option<Vec<Verdict>>, OutOfMemory>
    ensures { IfOk result (λ found. MatchOption found ((verdicts : List Verdict)
        → AreVerdictLines 0 (map row_value rows.now) verdicts file.now → ⊥)
        (λ v. AreVerdictLines 0 (map row_value rows.now) v.items file.now)) }
{
    let mut verdicts = Vec::new(alloc);
    let mut number = 0u64;
    let mut left = file;
    let mut rest = rows;
    'rows: while let Some((row, more)) = rest.split_first() {
        let line = match read_line(alloc, buffer, number, row, left)? {
            Some(line) => line,
            None => return Ok(None),
        };
        verdicts.push(line.verdict)?;
        number += 1;
        left = line.rest;
        rest = more;
    }
    if left.is_empty() {
        Ok(Some(verdicts))
    } else {
        Ok(None)
    }
}

/// The lines of rows in a file of verdicts on a keyring that has so many; None: the file's first
/// line is another one. Fails only when out of memory.
fn lines_in<'a>(
    alloc: Global,
    buffer: &mut Buffer,
    keyring: &Keyring,
    rows: u64,
    file: &'a [u8],
) -> Result<Option<&'a [u8]>, OutOfMemory>
    ensures { IfOk result (λ found. MatchOption found ((lines : List ℕ)
        → file.now ≡ head_line (keyring_digest keyring.now) rows ++ lines → ⊥)
        (λ lines. file.now ≡ head_line (keyring_digest keyring.now) rows ++ lines.now)) }
{
    let digest = keyring_digest(keyring);
    let head = front_of(alloc, buffer, Front::Head(&digest, rows))?;
    Ok(behind(file, &head))
}

/// The verdicts that a file has on the rows of a keyring's report; None: it isn't one of verdicts
/// on that keyring.
///
/// The first line is `verdicts by arithmetic of keyring sha256`, the SHA2-256 of the octets of the
/// keyring's packets in upper-case hexadecimal, `rows`, and how many rows follow. So verdicts by a
/// policy, and those on another keyring, aren't taken.
///
/// Then the file has the line of each row as the report has it, with a verifier's verdict in place
/// of the report's: `good`, `bad`, or `undecided` and perhaps a word why. Where the report's is
/// `bad`, so is the verifier's. A row that isn't hashed has its own line, behind which ` verdict`
/// and one may stand: of a key revocation that is over the primary key alone (RFC 9580, 5.2.1.11).
/// Without it the verdict is undecided. Each line ends with a line feed, and nothing else is in the
/// file.
///
/// The work is linear in the keyring's octets. Fails only when out of memory.
pub fn read_verdicts(
    alloc: Global,
    keyring: &Keyring,
    file: &[u8],
) -> Result<Option<Vec<Verdict>>, OutOfMemory>
    ensures { IfOk result (λ found. MatchOption found ((verdicts : List Verdict)
        → HasVerdicts file.now keyring.now verdicts → ⊥)
        (λ v. HasVerdicts file.now keyring.now v.items)) }
{
    let report = check(alloc, keyring, &LeftOctets)?;
    let rows = report.rows();
    let mut buffer = Buffer::new(alloc)?;
    match lines_in(alloc, &mut buffer, keyring, rows.len() as u64, file)? {
        Some(lines) => read_lines(alloc, &mut buffer, rows, lines),
        None => Ok(None),
    }
}
