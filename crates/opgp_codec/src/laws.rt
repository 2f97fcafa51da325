//! What the definition of a result implies, in pieces of any size.

ghost use Rattle.std.specs.Prelude.{◌≡◌, ℕ, List, true, Ok};
ghost use Rattle.opgp_frame.specs.Packet.{PacketValue, packets_octets};
ghost use Rattle.opgp_octets.specs.Octets.{IsOctets};
ghost use Rattle.opgp_octets.specs.declared.limits.Limits.{Limits};
ghost use Rattle.opgp_keyring.specs.Keyring.{KeyringValue, flat};
ghost use Rattle.opgp_codec.specs.Keyrings.{ComposesTo, key_label};
ghost use Rattle.opgp_codec.specs.Layers.{LayersAnswer, LayersAreOne};
ghost use Rattle.opgp_codec.specs.Packets.{ArePackets, BlockValue, any_label};
ghost use Rattle.opgp_codec.specs.Reading.{AnswerOf, Holds, Outcome, TextBlock};
ghost use Rattle.opgp_codec.specs.Reading.{blocks_octets, is_binary};
ghost use Rattle.opgp_codec.specs.Signatures.{AreDetachedSignatures, signature_label};
ghost use Rattle.opgp_codec.specs.Signed.{AreSigned, message_label};
ghost use Rattle.opgp_codec.specs.declared.mode.Mode.{Mode};

use opgp_armor::laws as armor;
use opgp_frame::laws as frame;
use opgp_keyring::laws as ring;

/// Octets are one list of blocks or of packets at most, or have one fault of these layers.
fn layers_are_one()
    ensures { LayersAreOne }
{
    armor::one_list();
    armor::one_fault();
    armor::no_fault();
    frame::one_list();
    frame::one_fault();
    frame::no_fault();
}

/// Octets are some list of blocks or of packets, or have some fault of these layers.
fn layers_answer()
    ensures { LayersAnswer }
{
    armor::some_answer();
    armor::blocks_hold_octets();
    frame::some_answer();
}

/// Octets, mode and limits have at most one result as a keyring: one keyring, or one fault.
pub fn one_answer()
    ensures { (mode : Mode) (limits : Limits) (input : List ℕ) → IsOctets input
        → (a b : Outcome KeyringValue) → AnswerOf key_label (ComposesTo limits) mode limits input a
        → AnswerOf key_label (ComposesTo limits) mode limits input b → a ≡ b }
{
    layers_are_one();
    ring::one_keyring();
    ring::one_fault();
    ring::no_fault();
}

/// All octets have a result: one keyring, or one fault.
pub fn some_answer()
    ensures { (mode : Mode) (limits : Limits) (input : List ℕ) → IsOctets input
        → (a : Outcome KeyringValue)
        × AnswerOf key_label (ComposesTo limits) mode limits input a }
{
    layers_answer();
    ring::some_answer();
}

/// The packets of a keyring are encoded in the octets of the blocks that it was read from, in
/// order; those of a binary input are all of it.
pub fn packets_are_written_again()
    ensures blocks { (mode : Mode) (limits : Limits) (input : List ℕ) (r : KeyringValue)
        → AnswerOf key_label (ComposesTo limits) mode limits input (Ok r)
        → (blocks : List TextBlock) × Holds (is_binary mode input) limits input blocks
        × (packets_octets (flat r) ≡ blocks_octets blocks) }
    ensures binary { (mode : Mode) (limits : Limits) (input : List ℕ) (r : KeyringValue)
        → AnswerOf key_label (ComposesTo limits) mode limits input (Ok r)
        → is_binary mode input ≡ true → packets_octets (flat r) ≡ input }
{}

/// Octets, mode and limits have at most one result as packets: one list of blocks, or one fault.
pub fn one_list_of_packets()
    ensures { (mode : Mode) (limits : Limits) (input : List ℕ) → IsOctets input
        → (a b : Outcome (List BlockValue))
        → AnswerOf any_label (ArePackets limits) mode limits input a
        → AnswerOf any_label (ArePackets limits) mode limits input b → a ≡ b }
{
    layers_are_one();
    ring::one_keyring();
    ring::one_fault();
    ring::no_fault();
}

/// Octets, mode and limits have at most one result as a signed literal: its packets, or one fault.
pub fn one_signed_literal()
    ensures { (mode : Mode) (limits : Limits) (input : List ℕ) → IsOctets input
        → (a b : Outcome (List PacketValue))
        → AnswerOf message_label (AreSigned limits) mode limits input a
        → AnswerOf message_label (AreSigned limits) mode limits input b → a ≡ b }
{
    layers_are_one();
    ring::one_signed_literal();
    ring::one_signed_fault();
    ring::no_signed_fault();
}

/// All octets have a result as packets: one list of blocks, or one fault.
pub fn some_list_of_packets()
    ensures { (mode : Mode) (limits : Limits) (input : List ℕ) → IsOctets input
        → (a : Outcome (List BlockValue))
        × AnswerOf any_label (ArePackets limits) mode limits input a }
{
    layers_answer();
    ring::some_signed_answer();
}

/// All octets have a result as a signed literal: its packets, or one fault.
pub fn some_signed_literal()
    ensures { (mode : Mode) (limits : Limits) (input : List ℕ) → IsOctets input
        → (a : Outcome (List PacketValue))
        × AnswerOf message_label (AreSigned limits) mode limits input a }
{
    layers_answer();
    ring::some_signed_answer();
}

/// Octets, mode and limits have at most one result as detached signatures: their packets, or one
/// fault.
pub fn one_list_of_signatures()
    ensures { (mode : Mode) (limits : Limits) (input : List ℕ) → IsOctets input
        → (a b : Outcome (List PacketValue))
        → AnswerOf signature_label (AreDetachedSignatures limits) mode limits input a
        → AnswerOf signature_label (AreDetachedSignatures limits) mode limits input b → a ≡ b }
{
    layers_are_one();
    ring::one_list_of_signatures();
    ring::one_detached_fault();
    ring::no_detached_fault();
}

/// All octets have a result as detached signatures: their packets, or one fault.
pub fn some_list_of_signatures()
    ensures { (mode : Mode) (limits : Limits) (input : List ℕ) → IsOctets input
        → (a : Outcome (List PacketValue))
        × AnswerOf signature_label (AreDetachedSignatures limits) mode limits input a }
{
    layers_answer();
    ring::some_detached_answer();
}
