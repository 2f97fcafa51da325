//! What the definitions and the contracts of a reader imply, however the octets are cut into
//! pieces.

ghost use Rattle.std.specs.Prelude.{true, false};
ghost use Rattle.std.specs.Prelude.{◌≡◌, ◌≢◌, ◌↔◌, ℕ, List, [], ◌∷◌, ◌++◌, ◌⊎◌, Option, Some, None};
ghost use Rattle.std.specs.Prelude.{map, length, ◌+◌, ◌*◌, ◌≤◌};
ghost use Rattle.std.specs.List.{sum_by};
ghost use Rattle.opgp_octets.specs.declared.fault.Fault.{Fault};
ghost use Rattle.opgp_octets.specs.declared.fault.Reason.{Reason};
ghost use Rattle.opgp_octets.specs.declared.limits.Limits.{Limits};
ghost use Rattle.opgp_octets.specs.Octets.{IsOctets};
ghost use Rattle.opgp_frame.specs.declared.deframe.Deframe.{Deframe};
ghost use Rattle.opgp_frame.specs.declared.packet.Placed.{Placed};
ghost use Rattle.opgp_frame.specs.FaultReading.{packet_fault};
ghost use Rattle.opgp_frame.specs.Fed.{Fed, fault_of, held_of, is_ready, is_spent, packets_of};
ghost use Rattle.opgp_frame.specs.Frames.{BeginsPacket, Frames, IsFramingFault, Longest, StandFrom};
ghost use Rattle.opgp_frame.specs.Frames.{spelled};
ghost use Rattle.opgp_frame.specs.Packet.{PacketValue, IsPacket, spelling, packets_octets};
ghost use Rattle.opgp_frame.specs.PacketFault.{PacketFault};

/// No packet's encoding is a proper prefix of another's.
pub fn one_packet()
    ensures { (p q : PacketValue) (x y : List ℕ) → IsPacket p → IsPacket q
        → spelling p ++ x ≡ spelling q ++ y → (p ≡ q) × (x ≡ y) }
{}

/// The octets of placed packets are those of the packets.
pub fn spelled_without_places()
    ensures { (packets : List Placed)
        → spelled packets ≡ packets_octets (map (λ p. p.packet) packets) }
{}

/// Packets take at least two octets each beside their bodies, one for the type and one for the
/// length: octets bound how many packets they are, and so the memory that these take.
pub fn two_octets_beside_each_body()
    ensures { (packets : List PacketValue)
        → 2 * length packets + sum_by (λ p. length p.body) packets
        ≤ length (packets_octets packets) }
{}

/// What was taken from a reader and what is ready is the longest list of allowed packets that the
/// octets given begin with, in their places.
pub fn taken_and_ready_are_longest()
    ensures { (limits : Limits) (block : ℕ) (d : Deframe) (given : List ℕ) (taken : List Placed)
        → Fed limits block d given taken
        → (rest : List ℕ) × Longest limits block given (packets_of d taken) rest }
{}

/// Every other list of allowed packets that the octets begin with is a prefix of the longest one.
pub fn others_are_prefixes()
    ensures { (limits : Limits) (block : ℕ) (octets rest : List ℕ) (packets : List Placed)
        → Longest limits block octets packets rest → (others : List Placed) (more : List ℕ)
        → StandFrom limits block 0 others → octets ≡ spelled others ++ more
        → (later : List Placed) × (packets ≡ others ++ later) }
{}

/// The same octets give the same packets, in pieces of any size.
pub fn same_in_any_pieces()
    ensures { (limits : Limits) (block : ℕ) (d e : Deframe) (given : List ℕ)
        (taken others : List Placed) → Fed limits block d given taken
        → Fed limits block e given others
        → packets_of d taken ≡ packets_of e others }
{}

/// What was written is read again: from the joined encodings of allowed packets a reader gets these
/// packets.
pub fn written_is_read()
    ensures { (limits : Limits) (block : ℕ) (d : Deframe) (packets taken : List Placed)
        → StandFrom limits block 0 packets → Fed limits block d (spelled packets) taken
        → packets_of d taken ≡ packets }
{}

/// Octets encode at most one list of packets.
pub fn one_list()
    ensures { (limits : Limits) (block : ℕ) (octets : List ℕ) (packets others : List Placed)
        → Frames limits block octets packets → Frames limits block octets others
        → packets ≡ others }
{}

/// Octets have at most one fault.
pub fn one_fault()
    ensures { (limits : Limits) (block : ℕ) (octets : List ℕ) (f g : Fault)
        → IsFramingFault limits block octets f → IsFramingFault limits block octets g → f ≡ g }
{}

/// A list of packets has no fault.
pub fn no_fault()
    ensures { (limits : Limits) (block : ℕ) (octets : List ℕ) (packets : List Placed) (f : Fault)
        → Frames limits block octets packets → IsFramingFault limits block octets f → ⊥ }
{}

/// All octets are a list of packets or have a fault.
pub fn some_answer()
    ensures { (limits : Limits) (block : ℕ) (octets : List ℕ) → IsOctets octets
        → ((packets : List Placed) × Frames limits block octets packets)
        ⊎ ((fault : Fault) × IsFramingFault limits block octets fault) }
{}

/// A fault stays, whatever follows, unless it is that octets are missing.
pub fn a_fault_stays()
    ensures { (limits : Limits) (block : ℕ) (octets more : List ℕ) (fault : Fault)
        → fault.reason ≢ Reason.Truncated → IsFramingFault limits block octets fault
        → IsFramingFault limits block (octets ++ more) fault }
{}

/// After a fault or running out of memory nothing is held, once nothing is ready.
pub fn nothing_is_held_after_a_fault()
    ensures fault { (d : Deframe) (fault : Fault) → fault_of d ≡ Some fault
        → is_ready d ≡ false → held_of d ≡ 0 }
    ensures spent { (d : Deframe) → is_spent d ≡ true → is_ready d ≡ false → held_of d ≡ 0 }
{}

/// Octets, of which there are some, begin with an allowed packet if they have no fault of a packet.
#[tactic(auto, using(crate::proofs::Answered::begins_without_fault))]
pub fn no_fault_begins_a_packet()
    ensures { (limits : Limits) (header : ℕ) (o : List ℕ) → IsOctets (header ∷ o)
        → ((reason : Reason) (inner : ℕ) → ¬ PacketFault limits (header ∷ o) reason inner)
        → BeginsPacket limits (header ∷ o) }
{}

/// Octets that have a fault of a packet begin with no allowed packet.
#[tactic(auto, using(crate::proofs::OneFault::fault_no_packet))]
pub fn a_fault_begins_no_packet()
    ensures { (limits : Limits) (octets : List ℕ) (reason : Reason) (inner : ℕ)
        → PacketFault limits octets reason inner → ¬ BeginsPacket limits octets }
{}

/// Reading a packet returns this fault exactly if the packet has it: its first octet is at fault,
/// or a length header, after whole and allowed pieces.
pub fn the_fault_of_a_packet()
    ensures { (limits : Limits) (octets : List ℕ) (reason : Reason) (inner : ℕ) → IsOctets octets
        → (packet_fault limits octets ≡ Some (reason, inner))
        ↔ PacketFault limits octets reason inner }
{}
