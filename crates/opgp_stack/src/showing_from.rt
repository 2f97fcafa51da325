//! What is shown of the packets that come from a source.

ghost use Rattle.std.specs.Prelude.{◌≡◌, [], ℕ, List, Option, true, false, IfSome, MatchResult};
ghost use Rattle.opgp_octets.specs.declared.limits.Limits.{Limits};
ghost use Rattle.opgp_codec.specs.declared.mode.Mode.{Mode};
ghost use Rattle.opgp_codec.specs.Draft.{DraftHas};
ghost use Rattle.opgp_codec.specs.IncomingPackets.{PacketsCame};
ghost use Rattle.opgp_codec.specs.Pulled.{OfAll};
ghost use Rattle.opgp_stack.specs.Running.{ReadsFor};
ghost use Rattle.opgp_stack.specs.Shown.{IsShownOf, Shows};

use crate::packet_text::PacketText;
use crate::run_fault::RunFault;
use crate::task::Task;
use opgp_codec::{Draft, IncomingPackets, Spool};
use opgp_io::Source;
use std::alloc::Global;

/// Reads packets from a source, and makes the lines of each as it comes. No packet is kept. The
/// conditions are that the source hasn't failed, and that a spool is empty.
///
/// The errors are `Refused`: the input is refused, `Read`: the source has failed, and `Memory`.
pub(crate) fn show<R: Source, S: Spool + Drop>(
    alloc: Global,
    task: &Task,
    text: PacketText,
    spool: Option<S>,
    source: &mut R,
) -> Result<Draft<S>, RunFault>
    requires sound { R.has_failed source.old ≡ false }
    requires empty { IfSome spool (λ s. (S.serves ≡ true) × (S.tells ≡ true → S.holds s ≡ [])) }
    ensures { ReadsFor (λ answer. OfAll R.left R.has_failed source.old source.new task.now.limits
        (λ octets. IsShownOf (DraftHas S.serves S.tells S.holds S.has_failed) text task.now octets
        answer))
        (R.has_failed source.new ≡ true) (R.has_failed source.new ≡ false) result }
{
    let mut draft = Draft::new(alloc, spool)?;
    match show_all(alloc, task, text, &mut draft, source) {
        Ok(()) => Ok(draft),
        Err(fault) => {
            drop(draft);
            Err(fault)
        }
    }
}

/// Reads packets from a source, and adds the lines of each, as it comes, to a draft, which has no
/// text yet. It is lent: an end with an error has nothing of it to free.
fn show_all<R: Source, S: Spool + Drop>(
    alloc: Global,
    task: &Task,
    text: PacketText,
    draft: &mut Draft<S>,
    source: &mut R,
) -> Result<(), RunFault>
    requires sound { R.has_failed source.old ≡ false }
    requires empty { DraftHas S.serves S.tells S.holds S.has_failed draft.old [] }
    ensures { ReadsFor (λ answer. OfAll R.left R.has_failed source.old source.new task.now.limits
        (λ octets. IsShownOf (λ done. DraftHas S.serves S.tells S.holds S.has_failed draft.new) text
        task.now octets answer))
        (R.has_failed source.new ≡ true) (R.has_failed source.new ≡ false) result }
{
    let mut incoming = IncomingPackets::new(alloc, task.mode, task.limits)?;
    match show_each(&mut incoming, text, draft, source) {
        Ok(()) => {}
        Err(fault) => {
            drop(incoming);
            return Err(fault);
        }
    }
    incoming.finish()?;
    Ok(())
}

/// Adds the lines of packets to a draft, as they come. The conditions are that the source hasn't
/// failed, and that no packet was found.
fn show_each<R: Source, S: Spool + Drop>(
    incoming: &mut IncomingPackets,
    text: PacketText,
    draft: &mut Draft<S>,
    source: &mut R,
) -> Result<(), RunFault>
    requires sound { R.has_failed source.old ≡ false }
    requires came { (mode : Mode) × (limits : Limits) × (before : Option (List ℕ))
        × PacketsCame mode limits before (R.left source.old) incoming.old [] }
    ensures { ReadsFor (λ answer. MatchResult answer
        (λ _. Shows (DraftHas S.serves S.tells S.holds S.has_failed) text R.left R.has_failed
        source.old source.new incoming.old incoming.new draft.old draft.new) (λ _. ⊥))
        (R.has_failed source.new ≡ true) (R.has_failed source.new ≡ false) result }
{
    'packets: while incoming.next(source)? {
        if let Some(packet) = incoming.packet() {
            text.add(draft, packet)?;
        }
    }
    Ok(())
}
