//! The letters of a block's data lines.

ghost use Rattle.std.specs.Prelude.{◌≡◌, ◌≤◌, ◌++◌, ℕ, List, [], true, false, if◌then◌else◌};
ghost use Rattle.std.specs.Prelude.{length, Ok};
ghost use Rattle.std.specs.Prelude.{IfOk, IfErr, OnOk};
ghost use Rattle.std.specs.List.{list_all};
ghost use Rattle.base64.specs.Engines.{standard};
ghost use Rattle.base64.specs.GeneralPurpose.{decode_of, IsBytes, IsDecodeFailure};
ghost use Rattle.opgp_armor.specs.Letters.{is_letter, may_stand, spoils, base64_of, data_line};
ghost use Rattle.opgp_armor.specs.LineAnswer.{AnswersLetters, pending_of};

use crate::pending::Pending;
use crate::refusal::Refusal;
use crate::spare::Spare;
use base64::engine::general_purpose::STANDARD;
use base64::{DecodeAllocError, decoded_len_estimate};
use opgp_octets::{OutOfMemory, Reason};
use std::alloc::Global;
use std::mem;

/// What a data line yields: the octets of the groups that it completes, and the letters after them.
#[derive(Drop)]
pub(crate) struct Letters {
    pub(crate) pending: Pending,
    pub(crate) octets: Vec<u8>,
}

/// Whether an octet is a base64 letter.
fn is_a_letter(c: u8) -> bool
    ensures { result ≡ is_letter c }
{
    c.is_ascii_uppercase() || c.is_ascii_lowercase() || c.is_ascii_digit() || c == b'+' || c == b'/'
}

/// Whether each octet is a letter.
fn are_letters(rest: &[u8]) -> bool
    ensures { result ≡ list_all is_letter rest.now }
{
    rest.iter().all(|c| is_a_letter(*c))
}

/// Whether each octet is a letter or `=`.
fn all_stand(content: &[u8]) -> bool
    ensures { result ≡ list_all may_stand content.now }
{
    content.iter().all(|c| is_a_letter(*c) || *c == b'=')
}

/// Why a data line is refused: for an octet that is no base64 letter, else for its padding.
fn refused(content: &[u8]) -> Reason
    ensures { result ≡
        (if list_all may_stand content.now then Reason.Padding else Reason.Letters) }
{
    if all_stand(content) {
        Reason::Padding
    } else {
        Reason::Letters
    }
}

/// Whether what follows the whole groups is wrong: only letters may, and nothing after padding.
fn is_spoilt(rest: &[u8], padded: bool) -> bool
    ensures { result ≡ spoils rest.now padded }
{
    !are_letters(rest) || (padded && !rest.is_empty())
}

/// Puts the octets that groups decode to in the place of what `octets` holds.
fn decode_over(octets: &mut Vec<u8>, groups: &[u8]) -> Result<(), DecodeAllocError>
    ensures ok { OnOk result (decode_of standard groups.now ≡ Ok octets.new.items) }
    ensures octets { OnOk result (IsBytes octets.new.items) }
    ensures exact { OnOk result (groups.now ≡ base64_of octets.new.items) }
    ensures err { IfErr result (λ e. IsDecodeFailure standard groups.now e) }
{
    // What was held isn't cleared, but overwritten, so that each octet is written once.
    octets.resize(decoded_len_estimate(groups.len()), 0)?;
    let count = STANDARD.decode_slice_unchecked(groups, octets.as_mut_slice())?;
    octets.truncate(count);
    Ok(())
}

/// The octets that whole groups decode to, in the memory of `spare`, which is taken.
fn decoded(alloc: Global, spare: &mut Vec<u8>, groups: &[u8]) -> Result<Vec<u8>, DecodeAllocError>
    ensures ok { IfOk result (λ v. decode_of standard groups.now ≡ Ok v.items) }
    ensures octets { IfOk result (λ v. IsBytes v.items) }
    ensures exact { IfOk result (λ v. groups.now ≡ base64_of v.items) }
    ensures err { IfErr result (λ e. IsDecodeFailure standard groups.now e) }
    ensures spare { length spare.new.items ≤ length spare.old.items }
{
    // So that lines of few letters don't take the memory.
    if groups.is_empty() {
        return Ok(Vec::new(alloc));
    }
    let mut octets = mem::replace(spare, Vec::new(alloc));
    decode_over(&mut octets, groups)?;
    Ok(octets)
}

/// What a line yields, if `all` is the letters left over and then its own, and no group was padded.
fn groups_of_letters(
    alloc: Global,
    spare: &mut Vec<u8>,
    all: &[u8],
    content: &[u8],
) -> Result<Letters, Refusal>
    ensures line { (letters : List ℕ) → list_all is_letter letters ≡ true
        → all.now ≡ letters ++ content.now → AnswersLetters result
        (data_line (record { letters = letters; padded = false }) content.now) }
    ensures spare { length spare.new.items ≤ length spare.old.items }
{
    let (groups, rest) = all.split_at(4 * (all.len() / 4));
    match decoded(alloc, spare, groups) {
        Ok(octets) => {
            let padded = octets.len() % 3 != 0;
            if is_spoilt(rest, padded) {
                return Err(Refusal::Reason(refused(content)));
            }
            let pending = Pending::of(rest, padded);
            Ok(Letters { pending, octets })
        }
        Err(DecodeAllocError::OutOfMemory) => Err(Refusal::Memory),
        Err(DecodeAllocError::DecodeError(_)) => Err(Refusal::Reason(refused(content))),
    }
}

/// Adds the two lists, joined.
fn join(all: &mut Vec<u8>, front: &[u8], back: &[u8]) -> Result<(), OutOfMemory>
    requires { all.old.items ≡ [] }
    ensures { OnOk result (all.new.items ≡ front.now ++ back.now) }
{
    all.reserve_exact(front.len().saturating_add(back.len()))?;
    all.extend_from_slice(front)?;
    all.extend_from_slice(back)?;
    Ok(())
}

/// What a data line that isn't blank yields, given the letters left over from the lines before.
///
/// Letters are looked at one by one only if decoding fails, to find out why.
#[tactic(auto, unfolding(crate::specs::Letters::data_line))]
pub(crate) fn letters_of(
    alloc: Global,
    spare: &mut Spare,
    pending: &Pending,
    content: &[u8],
) -> Result<Letters, Refusal>
    ensures line { AnswersLetters result (data_line (pending_of pending.now) content.now) }
    ensures spare { length spare.new.octets.items ≤ length spare.old.octets.items }
{
    if pending.is_padded() {
        return Err(Refusal::Reason(refused(content)));
    }
    if !pending.waits() {
        return groups_of_letters(alloc, &mut spare.octets, content, content);
    }
    let mut all = mem::replace(&mut spare.letters, Vec::new(alloc));
    join(&mut all, pending.letters(), content)?;
    let letters = groups_of_letters(alloc, &mut spare.octets, all.as_slice(), content);
    all.clear();
    spare.letters = all;
    letters
}
