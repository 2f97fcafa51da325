//! Laws of outputs: how additions in steps combine, and what remains of the whole if a sink fails
//! in one of the steps.

ghost use Rattle.std.specs.Prelude.{◌≡◌, ◌++◌, ℕ, List, [], false};
ghost use Rattle.std.specs.Io.KnownBytes.{Appends};
ghost use Rattle.opgp_io.specs.Added.{Adds, Breaks, State};
ghost use Rattle.opgp_io.specs.Stream.{AppendsPrefix};

/// At the start nothing has been added.
#[tactic(auto, using(crate::proofs::Added::adds_nothing))]
pub fn nothing_is_added()
    ensures { (a : State) → a.failed ≡ false → Adds a a [] }
{}

/// Two additions, one after the other, are one addition of the joined octets.
#[tactic(auto, using(crate::proofs::Added::adds_then))]
pub fn adding_goes_on()
    ensures { (a b c : State) (xs ys : List ℕ) → Adds a b xs → Adds b c ys → Adds a c (xs ++ ys) }
{}

/// A sink that fails in octets after those that were added fails in the joined octets.
pub fn a_failure_behind()
    ensures { (a b c : State) (xs ys : List ℕ) → Adds a b xs → Breaks b c ys
        → Breaks a c (xs ++ ys) }
{}

/// A sink that fails in octets fails in those with any others after them.
pub fn a_failure_in_front()
    ensures { (a b : State) (xs ys : List ℕ) → Breaks a b xs → Breaks a b (xs ++ ys) }
{}

/// If nothing waited and nothing waits, what was added is what was written.
#[tactic(auto, using(crate::proofs::Added::all_put))]
pub fn all_is_put()
    ensures { (a b : State) (xs : List ℕ) → a.waiting ≡ [] → b.waiting ≡ [] → Adds a b xs
        → Appends a.held b.held xs }
{}

/// If nothing waited, a sink that fails holds a prefix of what was to be added.
#[tactic(auto, using(crate::proofs::Added::prefix_put))]
pub fn a_prefix_is_put()
    ensures { (a b : State) (xs : List ℕ) → a.waiting ≡ [] → Breaks a b xs
        → AppendsPrefix a.held b.held xs }
{}
