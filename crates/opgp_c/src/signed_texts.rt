//! The call for cleartext messages.

ghost use Rattle.std.specs.Prelude.{◌≡◌, ◌≢◌, ◌⊎◌, ◌<◌, ◌≤◌, ℕ, List, length, true, Ok, Err};
ghost use Rattle.opgp_octets.specs.declared.fault.Fault.{Fault};
ghost use Rattle.opgp_frame.specs.Packet.{PacketValue};
ghost use Rattle.opgp_keyring.specs.Signed.{signature_bodies};
ghost use Rattle.opgp_tables.specs.FaultRow.{fault_row};
ghost use Rattle.opgp_tables.specs.GivenLimits.{MayBeGiven};
ghost use Rattle.opgp_handles.specs.Calls.{IsFilled};
ghost use Rattle.opgp_handles.specs.Documents.{IsEnded, bodies_in, is_message, packets_in};
ghost use Rattle.opgp_handles.specs.SignedTexts.{MessageBy};
ghost use Rattle.opgp_cleartext.specs.Cleartext.{joined};

use opgp_handles::{Document, cleartext_open};
use opgp_tables::{FaultRow, GivenLimits};
use std::alloc::Global;

/// Reads a cleartext message (RFC 9580, 7), puts its document into the octets, and keeps its
/// signatures in the handle, over that document, which has ended; what the handle held before is
/// let go. The size says how many octets the document has. The handle knows that its document is a
/// message's, and that only signatures over text count there.
///
/// The status says whether it is done; else the octets and the handle are unchanged: the text is
/// refused, and the fault says where and why; the octets are too few; there are more signatures
/// than 64; a limit is out of its range; or memory ran out. Where nothing says how much there is,
/// the size is unchanged.
#[unsafe(no_mangle)]
pub extern "C" fn opgp_cleartext_open(
    alloc: Global,
    input: &[u8],
    limits: &GivenLimits,
    octets: &mut [u8],
    size: &mut u64,
    document: &mut Document,
    fault: &mut FaultRow,
) -> u32
    ensures done { result ≡ 0 → (text : List (List ℕ)) × MessageBy limits.now input.now
        (Ok (text, packets_in document.new.slot.held))
        × IsFilled (joined text) octets.old octets.new × (size.new ≡ length (joined text))
        × (document.new.is_open ≡ true) × IsEnded (joined text) document.new.slot.held
        × (is_message document.new.slot.held ≡ true) }
    ensures few { result ≡ 0 → length (bodies_in document.new.slot.held) ≤ 64 }
    ensures refused { result ≡ 1 → (f : Fault) × MessageBy limits.now input.now (Err f)
        × (fault.new ≡ fault_row f) }
    ensures room { result ≡ 2 → (text : List (List ℕ)) × (packets : List PacketValue)
        × MessageBy limits.now input.now (Ok (text, packets))
        × (length octets.old < length (joined text)) × (size.new ≡ length (joined text)) }
    ensures many { result ≡ 8 → (text : List (List ℕ)) × (packets : List PacketValue)
        × MessageBy limits.now input.now (Ok (text, packets))
        × (64 < length (signature_bodies packets)) }
    ensures limits { (result ≡ 4) → MayBeGiven limits.now → ⊥ }
    ensures allowed { result ≢ 4 → MayBeGiven limits.now }
    ensures kept { result ≢ 0 → (octets.new ≡ octets.old) × (document.new ≡ document.old) }
    ensures size { (result ≡ 1) ⊎ ((result ≡ 3) ⊎ ((result ≡ 4) ⊎ (result ≡ 8)))
        → size.new ≡ size.old }
    ensures fault { result ≢ 1 → fault.new ≡ fault.old }
    ensures status { (result ≡ 0) ⊎ ((result ≡ 1) ⊎ ((result ≡ 2) ⊎ ((result ≡ 3)
        ⊎ ((result ≡ 4) ⊎ (result ≡ 8))))) }
{
    cleartext_open(alloc, input, limits, octets, size, document, fault)
}
