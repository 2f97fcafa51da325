//! Laws of armor: what the definitions say of each other, and what holds of every reader.

ghost use Rattle.std.specs.Prelude.{◌≡◌, ◌+◌, ◌%◌, ◌<◌, ◌≤◌, ◌⊎◌, ◌++◌, ◌∷◌, [], ℕ, List, Some};
ghost use Rattle.std.specs.Prelude.{false, length, sum_by};
ghost use Rattle.std.specs.List.{AllByRecursion};
ghost use Rattle.opgp_octets.specs.Octets.{IsOctets};
ghost use Rattle.opgp_octets.specs.declared.fault.Fault.{Fault};
ghost use Rattle.opgp_octets.specs.declared.outside.Outside.TheVariants as policy;
ghost use Rattle.opgp_armor.specs.declared.label.Label.{Label};
ghost use Rattle.opgp_armor.specs.declared.reader.Dearmor.{Dearmor};
ghost use Rattle.opgp_armor.specs.Armored.{Armored, Block, IsArmorFault};
ghost use Rattle.opgp_armor.specs.Cuts.{lines_ended};
ghost use Rattle.opgp_armor.specs.Events.{AreInOrder, Event, built, event_octets};
ghost use Rattle.opgp_armor.specs.Fed.{Fed, events_so_far, fault_of, has_ended, rule_of};
ghost use Rattle.opgp_armor.specs.Letters.{base64_of};
ghost use Rattle.opgp_armor.specs.Rules.{LineRule};
ghost use Rattle.opgp_armor.specs.Shown.{Shown};
ghost use Rattle.opgp_armor.specs.Written.{AreWithin, AreWritable, armor_text, data_lines};

/// A text has at most one list of blocks.
pub fn one_list()
    ensures { (rule : LineRule) (text : List ℕ) (a b : List Block) → Armored rule text a
        → Armored rule text b → a ≡ b }
{}

/// A text has at most one fault.
pub fn one_fault()
    ensures { (rule : LineRule) (text : List ℕ) (f g : Fault) → IsArmorFault rule text f
        → IsArmorFault rule text g → f ≡ g }
{}

/// An armored text has no fault.
#[tactic(auto, using(crate::proofs::Wholes::no_whole_fault))]
pub fn no_fault()
    ensures { (rule : LineRule) (text : List ℕ) (blocks : List Block) (f : Fault) → IsOctets text
        → Armored rule text blocks → ¬ IsArmorFault rule text f }
{}

/// A text that isn't armored has a fault.
pub fn some_answer()
    ensures { (rule : LineRule) (text : List ℕ) → 128 ≤ rule.most → IsOctets text
        → ((blocks : List Block) × Armored rule text blocks)
        ⊎ ((f : Fault) × IsArmorFault rule text f) }
{}

/// A text that is armored under some policy is armored, with the same blocks, where lines outside
/// are passed over.
#[tactic(auto, using(crate::proofs::Wholes::passed_over))]
pub fn refusing_lines_outside_changes_no_blocks()
    ensures { (rule : LineRule) (text : List ℕ) (blocks : List Block) → Armored rule text blocks
        → Armored (record { most = rule.most; outside = policy.Skip }) text blocks }
{}

/// The octets of blocks are numbers below 256.
pub fn blocks_hold_octets()
    ensures { (rule : LineRule) (text : List ℕ) (blocks : List Block) → Armored rule text blocks
        → AllByRecursion (λ b. IsOctets b.octets) blocks }
{}

/// A block has no more octets than the text that it is in.
pub fn a_block_has_no_more_octets_than_the_text()
    ensures { (rule : LineRule) (text : List ℕ) (blocks : List Block) → Armored rule text blocks
        → AllByRecursion (λ b. length b.octets ≤ length text) blocks }
{}

/// However a text is cut into pieces, what was taken and what is ready are the events of the
/// longest list of first ended lines with which an armored text begins.
#[tactic(auto, using(crate::proofs::Pushing::shown))]
pub fn events_are_those_of_the_longest_opening()
    ensures { (d : Dearmor) (given : List ℕ) (taken : List Event) → Fed d given taken
        → Shown (rule_of d) (lines_ended (has_ended d) given) (events_so_far d taken) }
{}

/// Lines have at most one list of events.
pub fn one_list_of_events()
    ensures { (rule : LineRule) (ls : List (List ℕ)) (a b : List Event) → Shown rule ls a
        → Shown rule ls b → a ≡ b }
{}

/// What was taken and what is ready come in the order of blocks: a begin line, its headers, its
/// octets, its end line.
#[tactic(auto, using(crate::proofs::Order::in_order))]
pub fn events_are_in_order()
    ensures { (d : Dearmor) (given : List ℕ) (taken : List Event) → Fed d given taken
        → AreInOrder false (events_so_far d taken) }
{}

/// What was taken and what is ready has no more octets than were given.
#[tactic(auto, using(crate::proofs::Sizes::fed_all))]
pub fn events_have_no_more_octets_than_given()
    ensures { (d : Dearmor) (given : List ℕ) (taken : List Event) → Fed d given taken
        → event_octets (events_so_far d taken) ≤ length given }
{}

/// The octets of the open block, and of the events after those that built it, are no more than the
/// octets given.
#[tactic(auto, using(crate::proofs::Sizes::fed_few))]
pub fn no_more_octets_than_given()
    ensures { (d : Dearmor) (given : List ℕ) (taken more : List Event) → Fed d given (taken ++ more)
        → length (built taken).octets + event_octets more ≤ length given }
{}

/// The octets of the blocks that events build, the open one among them, are no more than those of
/// the events.
#[tactic(auto, using(crate::proofs::Sizes::blocks_few))]
pub fn blocks_have_no_more_octets_than_events()
    ensures { (events : List Event) → sum_by (λ b. length b.octets) (built events).blocks
        + length (built events).octets ≤ event_octets events }
{}

/// Each finished block takes at least one octet of the text.
#[tactic(auto, using(crate::proofs::Sizes::fed_blocks))]
pub fn no_more_blocks_than_octets()
    ensures { (d : Dearmor) (given : List ℕ) (taken : List Event) → Fed d given taken
        → length (built taken).blocks ≤ length given }
{}

/// The fault that a reader keeps is that of the octets given, whatever follows them.
#[tactic(auto, using(crate::proofs::Lasting::a_fault_stays))]
pub fn a_fault_stays()
    ensures { (d : Dearmor) (given more : List ℕ) (taken : List Event) (f : Fault) → IsOctets more
        → has_ended d ≡ false → Fed d given taken → fault_of d ≡ Some f
        → IsArmorFault (rule_of d) (given ++ more) f }
{}

/// Written armor is the armored text of the one block, whatever becomes of lines outside.
pub fn written_armor_is_read_again()
    ensures { (rule : LineRule) (label : Label) (headers : List (List ℕ × List ℕ)) (octets : List ℕ)
        → 128 ≤ rule.most → IsOctets octets → AreWritable headers → AreWithin rule.most headers
        → Armored rule (armor_text label headers octets)
        (record { label = label; headers = headers; octets = octets } ∷ []) }
{}

/// Without octets there are no data lines.
#[tactic(auto, using(crate::proofs::JoinedRows::no_lines))]
pub fn no_octets_have_no_data_lines()
    ensures { data_lines [] ≡ [] }
{}

/// A row of at most 48 octets has one data line: its letters and a line feed.
#[tactic(auto, using(crate::proofs::JoinedRows::one_line))]
pub fn a_row_has_one_data_line()
    ensures { (row : List ℕ) → 0 < length row → length row ≤ 48
        → data_lines row ≡ base64_of row ++ 10 ∷ [] }
{}

/// The data lines of whole rows of 48 octets, and then those of the octets after them, are the data
/// lines of all these octets.
#[tactic(auto, using(crate::proofs::JoinedRows::rows_join))]
pub fn data_lines_of_whole_rows_join()
    ensures { (rows more : List ℕ) → length rows % 48 ≡ 0
        → data_lines (rows ++ more) ≡ data_lines rows ++ data_lines more }
{}
