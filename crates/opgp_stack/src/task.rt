//! The tasks of the program.

use crate::key_name::KeyName;
use opgp_codec::{Mode, Out};
use opgp_merge::Choice;
use opgp_octets::Limits;

/// What an input is read as.
#[derive(Clone, Copy, Debug, PartialEq, Eq)]
pub enum Top {
    /// A keyring (RFC 9580, 10.1).
    Ring,
    /// A signed literal (RFC 9580, 10.3).
    Literal,
}

/// What is made of an input.
#[derive(Clone, Copy, Debug, PartialEq, Eq)]
pub enum Action<'a> {
    /// A line for each packet, and one for each subpacket of a signature.
    Show,
    /// The same, with the fields of each packet, and what each subpacket means.
    ShowValues,
    /// A line for each packet of the keyring.
    List,
    /// The same, where the line of a signature also has the left 16 bits of its hash, its creation
    /// time, and the issuer that it names.
    ListValues,
    /// A line for each signature of a certificate, with what can be said of its digest.
    Check,
    /// The same, where the line also has the fingerprints of the certificate's primary key and of
    /// the signer.
    CheckFingerprints,
    /// The same as `Check`, where the line also has the number of the signature's packet in the
    /// keyring, and that of the user ID that it is on.
    CheckPlaces,
    /// The octets that one signature hashes.
    Octets {
        /// The number of the signature's row, from 0.
        row: u64,
        /// What the input is read as.
        top: Top,
    },
    /// A line for each field of the octets that one signature hashes.
    Explain {
        /// The number of the signature's row, from 0.
        row: u64,
        /// What the input is read as.
        top: Top,
    },
    /// The octets that each signature of a certificate hashes, behind a line with its row's number
    /// and their length.
    OctetsAll,
    /// The keyring with its framing kept.
    Write {
        /// How it is written.
        out: Out,
    },
    /// The chosen parts of the keyring's certificates with their framing kept, and all else of it.
    WriteChosen {
        /// How they are written.
        out: Out,
        /// Which parts they are.
        choice: Choice<'a>,
    },
    /// The keyring, each packet in the current format with its shortest length.
    Normalise {
        /// How it is written.
        out: Out,
    },
    /// One certificate, or every certificate as a block of its own.
    Split {
        /// How each is written.
        out: Out,
        /// The number of the certificate, from 0; None: every one.
        nth: Option<u64>,
    },
    /// The certificates that have one of these keys, or all but those, each as a block of its own.
    /// Where a key is in none of the certificates, nothing is made: there is no such certificate.
    SplitKeys {
        /// How each is written.
        out: Out,
        /// The names of the keys, in any order: each of a primary key or a subkey.
        keys: &'a [KeyName],
        /// Whether the certificates that have one of the keys are left out, and the others written.
        except: bool,
    },
    /// All blocks of the input as one keyring.
    Join {
        /// How it is written.
        out: Out,
        /// Whether equal certificates become one.
        merge: bool,
    },
}

/// What the program is to do, how it reads its input, and within which limits.
#[derive(Clone, Copy, Debug)]
pub struct Task<'a> {
    /// How the input is read.
    pub mode: Mode,
    /// The limits of what is read.
    pub limits: Limits,
    /// What is made of it.
    pub action: Action<'a>,
}
