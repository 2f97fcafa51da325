//! A verdict at the end of a line.

ghost use Rattle.std.specs.Prelude.{◌≡◌, ◌++◌, ◌<◌, ℕ, List, IfNone, IfSome};
ghost use Rattle.std.specs.List.{prefix_len};
ghost use Rattle.opgp_report.specs.declared.verifier.Verdict.{Verdict};
ghost use Rattle.opgp_report.specs.declared.verifier.Verdict.TheVariants.{Undecided};
ghost use Rattle.opgp_state.specs.VerdictFile.{is_reason_letter};
ghost use Rattle.opgp_state.specs.VerdictFile.{IsDoubtLine, IsReasonLine, Says};

use opgp_report::Verdict;

/// A verdict that was read, and the octets behind its line.
#[derive(Clone, Copy)]
pub(crate) struct ReadVerdict<'a> {
    pub(crate) verdict: Verdict,
    pub(crate) rest: &'a [u8],
}

/// The octets behind a front; None: they have another one.
pub(crate) fn behind<'a>(octets: &'a [u8], front: &[u8]) -> Option<&'a [u8]>
    ensures some { IfSome result (λ rest. octets.now ≡ front.now ++ rest.now) }
    ensures none { IfNone result ((rest : List ℕ) → octets.now ≡ front.now ++ rest → ⊥) }
{
    octets.strip_prefix(front)
}

/// Whether an octet is a letter of a word that says why nothing is decided.
fn is_reason_letter(octet: u8) -> bool
    ensures { result ≡ is_reason_letter octet }
{
    (97 <= octet && octet <= 122) || octet == 45
}

/// How many octets at the front are such letters.
fn letters(octets: &[u8]) -> usize
    ensures { result ≡ prefix_len is_reason_letter octets.now }
{
    let mut count = 0usize;
    let mut rest = octets;
    'letters: while let [octet, more @ ..] = rest {
        if !is_reason_letter(*octet) {
            return count;
        }
        count += 1;
        rest = more;
    }
    count
}

/// The octets behind a word of such letters and the line's end.
fn behind_reason<'a>(octets: &'a [u8]) -> Option<&'a [u8]>
    ensures some { IfSome result (λ rest. IsReasonLine octets.now rest.now) }
    ensures none { IfNone result ((rest : List ℕ) → IsReasonLine octets.now rest → ⊥) }
{
    let count = letters(octets);
    if count == 0 {
        return None;
    }
    behind(&octets[count..], b"\n")
}

/// The octets behind what may follow `undecided`, and the line's end.
fn behind_doubt<'a>(octets: &'a [u8]) -> Option<&'a [u8]>
    ensures some { IfSome result (λ rest. IsDoubtLine octets.now rest.now) }
    ensures none { IfNone result ((rest : List ℕ) → IsDoubtLine octets.now rest → ⊥) }
{
    match behind(octets, b"\n") {
        Some(rest) => Some(rest),
        None => match behind(octets, b" ") {
            Some(word) => behind_reason(word),
            None => None,
        },
    }
}

/// The octets behind `undecided`, what may follow it, and the line's end.
fn behind_undecided<'a>(octets: &'a [u8]) -> Option<&'a [u8]>
    ensures some { IfSome result (λ rest. Says octets.now Undecided rest.now) }
    ensures none { IfNone result ((rest : List ℕ) → Says octets.now Undecided rest → ⊥) }
{
    match behind(octets, b" verdict undecided") {
        Some(more) => behind_doubt(more),
        None => None,
    }
}

/// A verdict that isn't good or bad, if there is one.
fn undecided<'a>(octets: &'a [u8]) -> Option<ReadVerdict<'a>>
    ensures some { IfSome result (λ s. Says octets.now s.verdict s.rest.now) }
    ensures none { IfNone result ((rest : List ℕ) → Says octets.now Undecided rest → ⊥) }
{
    match behind_undecided(octets) {
        Some(rest) => Some(ReadVerdict {
            verdict: Verdict::Undecided,
            rest,
        }),
        None => None,
    }
}

/// The verdict at the front of octets, with the word in front of it and its line's end.
pub(crate) fn said<'a>(octets: &'a [u8]) -> Option<ReadVerdict<'a>>
    ensures some { IfSome result (λ s. Says octets.now s.verdict s.rest.now) }
    ensures none { IfNone result ((verdict : Verdict) (rest : List ℕ)
        → Says octets.now verdict rest → ⊥) }
{
    match behind(octets, b" verdict good\n") {
        Some(rest) => Some(ReadVerdict {
            verdict: Verdict::Good,
            rest,
        }),
        None => match behind(octets, b" verdict bad\n") {
            Some(rest) => Some(ReadVerdict {
                verdict: Verdict::Bad,
                rest,
            }),
            None => undecided(octets),
        },
    }
}
