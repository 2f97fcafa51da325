//! Which labels the blocks of an input may have.

ghost use Rattle.std.specs.Prelude.{◌≡◌};
ghost use Rattle.opgp_codec.specs.Accepts.{wanted_by};

use opgp_armor::Label;

/// Which labels the armored blocks of an input may have (RFC 9580, 6.2). A binary block has none,
/// and is always accepted.
#[derive(Clone, Copy)]
pub(crate) enum Accepts {
    /// `PUBLIC KEY BLOCK`.
    Keys,
    /// `MESSAGE`.
    Messages,
    /// `SIGNATURE`.
    Signatures,
    /// Any of the four.
    Any,
}

impl Accepts {
    /// Whether a block with this label is accepted.
    pub(crate) fn fits(self, label: Option<Label>) -> bool
        ensures { result ≡ wanted_by self label }
    {
        match self {
            Accepts::Any => true,
            Accepts::Keys => match label {
                None | Some(Label::PublicKeyBlock) => true,
                Some(Label::Message | Label::PrivateKeyBlock | Label::Signature) => false,
            },
            Accepts::Messages => match label {
                None | Some(Label::Message) => true,
                Some(Label::PublicKeyBlock | Label::PrivateKeyBlock | Label::Signature) => false,
            },
            Accepts::Signatures => match label {
                None | Some(Label::Signature) => true,
                Some(Label::PublicKeyBlock | Label::PrivateKeyBlock | Label::Message) => false,
            },
        }
    }
}
