//! What lines of states rest on.

ghost use Rattle.std.specs.Prelude.{◌≡◌};
ghost use Rattle.opgp_state.specs.StateLines.{basis_text};

/// What is known of the signatures by which parts of a keyring stand.
#[derive(Clone, Copy, Debug, PartialEq, Eq)]
pub enum Basis {
    /// What they claim: nothing is verified.
    Claims,
    /// The verdicts of a verifier.
    Verdicts,
}

impl Basis {
    /// What stands between the place of a part and its state.
    pub(crate) fn text(self) -> &'static [u8]
        ensures { result.now ≡ basis_text self }
    {
        match self {
            Basis::Claims => b" : unverified ",
            Basis::Verdicts => b" : ",
        }
    }
}
