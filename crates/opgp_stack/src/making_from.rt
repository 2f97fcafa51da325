//! What an action makes of a keyring that comes from a source.

ghost use Rattle.std.specs.Prelude.{◌≡◌, [], ℕ, List, Option, true, false, IfSome, MatchResult};
ghost use Rattle.opgp_octets.specs.declared.limits.Limits.{Limits};
ghost use Rattle.opgp_codec.specs.declared.mode.Mode.{Mode};
ghost use Rattle.opgp_codec.specs.Draft.{DraftHas};
ghost use Rattle.opgp_codec.specs.IncomingParts.{PartsCame};
ghost use Rattle.opgp_codec.specs.Pulled.{OfAll};
ghost use Rattle.opgp_stack.specs.Making.{HasMade, IsFilledOf, IsMadeOf, Keeps, is_of_parts};
ghost use Rattle.opgp_stack.specs.Running.{ReadsFor};

use crate::making::Making;
use crate::run_fault::RunFault;
use crate::task::Task;
use opgp_codec::{IncomingParts, Spool};
use opgp_io::Source;
use std::alloc::Global;

/// Reads a keyring from a source, and makes of its parts, as they come, what a task's action makes
/// of it. The conditions are that the action makes something of a keyring, that the source hasn't
/// failed, and that a spool is empty.
///
/// The errors are `Refused`: the input is refused, `Read`: the source has failed, and `Memory`.
pub(crate) fn make<'a, R: Source, S: Spool + Drop>(
    alloc: Global,
    task: &Task<'a>,
    spool: Option<S>,
    source: &mut R,
) -> Result<Making<'a, S>, RunFault>
    requires parts { is_of_parts task.now.action ≡ true }
    requires sound { R.has_failed source.old ≡ false }
    requires empty { IfSome spool (λ s. (S.serves ≡ true) × (S.tells ≡ true → S.holds s ≡ [])) }
    ensures { ReadsFor (λ answer. OfAll R.left R.has_failed source.old source.new task.now.limits
        (λ octets. IsMadeOf (DraftHas S.serves S.tells S.holds S.has_failed) task.now octets
        answer))
        (R.has_failed source.new ≡ true) (R.has_failed source.new ≡ false) result }
{
    let mut making = Making::new(alloc, task.action, spool)?;
    match make_all(alloc, task, &mut making, source) {
        Ok(()) => Ok(making),
        Err(fault) => {
            drop(making);
            Err(fault)
        }
    }
}

/// Reads a keyring from a source, and adds its parts, as they come, to what is made of it, which is
/// nothing yet. It is lent: an end with an error has nothing of it to free.
fn make_all<'a, R: Source, S: Spool + Drop>(
    alloc: Global,
    task: &Task<'a>,
    making: &mut Making<'a, S>,
    source: &mut R,
) -> Result<(), RunFault>
    requires sound { R.has_failed source.old ≡ false }
    requires made { HasMade (DraftHas S.serves S.tells S.holds S.has_failed) task.now.action
        making.old [] }
    ensures { ReadsFor (λ answer. OfAll R.left R.has_failed source.old source.new task.now.limits
        (λ octets. IsFilledOf (DraftHas S.serves S.tells S.holds S.has_failed) task.now making.new
        octets answer))
        (R.has_failed source.new ≡ true) (R.has_failed source.new ≡ false) result }
{
    let mut incoming = IncomingParts::new(alloc, task.mode, task.limits)?;
    match keep_each(&mut incoming, making, source) {
        Ok(()) => {}
        Err(fault) => {
            drop(incoming);
            return Err(fault);
        }
    }
    if let Some(last) = incoming.finish()? {
        drop(making.keep(last)?);
    }
    Ok(())
}

/// Adds the parts of a keyring to what is made of it, as they come, but for the one that its end
/// completes. The conditions are that the source hasn't failed, and that no part was taken.
fn keep_each<R: Source, S: Spool + Drop>(
    incoming: &mut IncomingParts,
    making: &mut Making<'_, S>,
    source: &mut R,
) -> Result<(), RunFault>
    requires sound { R.has_failed source.old ≡ false }
    requires came { (mode : Mode) × (limits : Limits) × (before : Option (List ℕ))
        × PartsCame mode limits before (R.left source.old) incoming.old [] }
    ensures { ReadsFor (λ answer. MatchResult answer
        (λ _. Keeps (DraftHas S.serves S.tells S.holds S.has_failed) R.left R.has_failed
        source.old source.new incoming.old incoming.new making.old making.new) (λ _. ⊥))
        (R.has_failed source.new ≡ true) (R.has_failed source.new ≡ false) result }
{
    'parts: while let Some(part) = incoming.next(source)? {
        if let Some(spare) = making.keep(part)? {
            incoming.reuse(spare);
        }
    }
    Ok(())
}
