//! What the definition of a cleartext message implies.

ghost use Rattle.std.specs.Prelude.{◌≡◌, ◌≤◌, ◌⊎◌, ◌++◌, ◌∷◌, ℕ, List};
ghost use Rattle.opgp_armor.specs.Text.{Line, lines};
ghost use Rattle.opgp_cleartext.specs.Cleartext.{HasCleartext, IsSignatureLine, IsText};
ghost use Rattle.opgp_cleartext.specs.Cleartext.{joined, joined_canonically};
ghost use Rattle.opgp_cleartext.specs.Faults.{CleartextFault, LeadsTo, MayCome, Situation};
ghost use Rattle.opgp_document.specs.Text.{HasText};
ghost use Rattle.opgp_octets.specs.declared.fault.Reason.{Reason};

/// A text has one document and one rest at most.
pub fn one_message()
    ensures { (most : ℕ) (text : List ℕ) (d e : List (List ℕ)) (r s : List ℕ)
        → HasCleartext most text d r → HasCleartext most text e s → (d ≡ e) × (r ≡ s) }
{}

/// A text is a message or has a fault, and not both; and it has one fault at most.
pub fn message_or_fault()
    ensures either { (most : ℕ) (text : List ℕ)
        → ((d : List (List ℕ)) × (r : List ℕ) × HasCleartext most text d r)
        ⊎ ((why : Reason) × (pos : ℕ) × CleartextFault most text why pos) }
    ensures not_both { (most : ℕ) (text : List ℕ) (d : List (List ℕ)) (r : List ℕ) (why : Reason)
        (pos : ℕ) → HasCleartext most text d r → CleartextFault most text why pos → ⊥ }
    ensures one_fault { (most : ℕ) (text : List ℕ) (a b : Reason) (p q : ℕ)
        → CleartextFault most text a p → CleartextFault most text b q → (a ≡ b) × (p ≡ q) }
{}

/// The fault's line is the first that no message can have there, where a line may be as long as a
/// begin line is, which has 34 octets.
pub fn first_refused_line()
    // A message can begin with lines that lead somewhere ..
    ensures opens { (most : ℕ) (text : List ℕ) (before after : List Line) (s : Situation)
        → 34 ≤ most → lines text ≡ before ++ after → LeadsTo most before s
        → (other : List ℕ) × (more : List Line) × (d : List (List ℕ)) × (r : List ℕ)
        × (lines other ≡ before ++ more) × HasCleartext most other d r }
    // .. and none begins with these and a line that may not come there.
    ensures refused { (most : ℕ) (text : List ℕ) (before after : List Line) (line : Line)
        (s : Situation) (d : List (List ℕ)) (r : List ℕ)
        → LeadsTo most before s → (MayCome most s line → ⊥)
        → lines text ≡ before ++ line ∷ after → HasCleartext most text d r → ⊥ }
{}

/// Each line of the text is blank or the begin line or a header, or says a line of the document, or
/// is one of the rest, of which the first begins a block of signatures.
pub fn nothing_outside()
    ensures { (most : ℕ) (text : List ℕ) (d : List (List ℕ)) (r : List ℕ)
        → HasCleartext most text d r
        → (front : List Line) × (signature : Line) × (more : List Line) × IsText most front d
        × (lines text ≡ front ++ lines r) × (lines r ≡ signature ∷ more)
        × IsSignatureLine most signature }
{}

/// What signatures of type 01 hash is the canonical text of the document that is handed out: a
/// signature over the one is a signature over the other.
pub fn handed_out_as_signed()
    ensures { (most : ℕ) (text : List ℕ) (d : List (List ℕ)) (r : List ℕ)
        → HasCleartext most text d r → HasText (joined d) (joined_canonically d) }
{}
