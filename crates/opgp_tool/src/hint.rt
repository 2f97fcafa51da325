//! What an input that is refused seems to be, in a few words for people.

ghost use Rattle.std.specs.Prelude.{◌≡◌, Some};
ghost use Rattle.opgp_tool.specs.Hint.{hint_text, is_loss};
ghost use Rattle.opgp_tool.specs.HintText.{text_of};

use std::fmt;

/// What is told of an input, or what to do about it.
#[derive(Clone, Copy)]
pub enum Advice {
    /// It has no octets.
    Empty,
    /// Compressed by a program.
    Gzip,
    Bzip2,
    Xz,
    Zstandard,
    Zip,
    /// Pictures and pages.
    Png,
    Jpeg,
    Pdf,
    Page,
    /// Keys of other programs.
    Keybox,
    Pem,
    Ssh,
    /// Texts in an encoding that isn't ASCII's.
    ByteOrderMark,
    Wide,
    /// A text without a begin line, or with one that isn't at the start of its line.
    NotArmored,
    Quoted,
    /// Begin lines that open no block.
    SignedText,
    SecondMessage,
    ArmoredFile,
    LostLineEnds,
    OtherLabel,
    /// Lines of a block.
    NoHeader,
    NoLetter,
    BadPadding,
    AfterChecksum,
    GluedFiles,
    NoEndLine,
    LongLine,
    CutText,
    /// A line outside of blocks.
    NotBlank,
    /// Octets that are no packets.
    ReadAsPackets,
    BehindPackets,
    LineEndBehind,
    ZerosBehind,
    NoPacket,
    CutPacket,
    CompressedPacket,
    OtherPacket,
    /// Limits.
    LongInput,
    LongBody,
    ManyPieces,
    LongCertificate,
    /// A packet whose body is malformed, or a key of another version.
    Malformed,
    OtherKeyVersion,
    /// Packets and blocks that no keyring has.
    SecretKey,
    SignatureBlock,
    MessageBlock,
    OtherBlock,
    NoPrimary,
    MessagePacket,
    ForeignPacket,
    NotSigned,
    NotASignature,
    /// A document that is no text.
    StrayReturn,
    /// Lines of a cleartext message.
    NoSignedText,
    BesideMessage,
    NoHashHeader,
    Unescaped,
    NoText,
    CutMessage,
    /// A file that isn't one of verdicts on the keyring.
    OtherVerdicts,
}

/// The text of each of them.
macro_rules! texts {
    ($advice:expr; $($name:ident $text:literal,)*) => {
        match $advice {
            $(Advice::$name => $text,)*
        }
    };
}

impl Advice {
    #[tactic(auto, unfolding(crate::specs::HintText::text_of))]
    /// Its text.
    pub fn text(self) -> &'static str
        ensures { result.now ≡ text_of self }
    {
        texts! { self; Empty "the input is empty",
            Gzip "this looks like gzip; decompress it first",
            Bzip2 "this looks like bzip2; decompress it first",
            Xz "this looks like xz; decompress it first",
            Zstandard "this looks like zstd; decompress it first",
            Zip "this looks like a zip archive; unpack it first",
            Png "this looks like a PNG picture, not a key",
            Jpeg "this looks like a JPEG picture, not a key",
            Pdf "this looks like a PDF document, not a key",
            Page "this looks like an HTML or XML page; save the text of the key alone",
            Keybox "this is GnuPG's keybox; gpg --export writes its keys",
            Pem "this looks like PEM, as TLS and SSH have it; OpenPGP has -----BEGIN PGP",
            Ssh "this looks like an SSH key, not like OpenPGP",
            ByteOrderMark "the input begins with a byte order mark; remove its three octets",
            Wide "this looks like UTF-16 text; save it as UTF-8",
            NotArmored "no line begins with -----BEGIN PGP; this isn't armored",
            Quoted
                "a begin line that isn't at the start of its line; remove what is in front of each line",
            SignedText "a cleartext signed message; opgp cleartext reads it",
            SecondMessage "a second signed message; opgp cleartext reads one, so give it each by itself",
            ArmoredFile "an ARMORED FILE; gpg --dearmor writes its octets",
            LostLineEnds
                "text follows the begin line's hyphens; remove it, or restore the line ends that were lost",
            OtherLabel "a begin line of no block that opgp reads",
            NoHeader "not a header; a blank line must be in front of the data",
            NoLetter "a character that isn't base64; the text is quoted or was changed",
            BadPadding "the base64 doesn't end as it must; letters are missing or changed",
            AfterChecksum "text between the checksum and the end line",
            GluedFiles
                "a begin line within a block; the end line, or the line end in front of it, is missing",
            NoEndLine "begins with a hyphen, but isn't the block's end line",
            LongLine "a line longer than --line allows",
            CutText "the text ends within a block; its end line is missing",
            NotBlank
                "not blank, outside of armored blocks; read each file by itself, or remove the line",
            ReadAsPackets
                "a begin line of armor, but this was read as packets; --mode armor reads armored blocks alone",
            BehindPackets
                "armor behind packets; write each file by itself with opgp write --out binary, and join these",
            LineEndBehind "a line end where a packet should begin; remove it",
            ZerosBehind "zeros where a packet should begin; remove them",
            NoPacket "these octets aren't an OpenPGP packet",
            CutPacket "octets of a packet are missing; it was cut, or isn't OpenPGP",
            CompressedPacket
                "a packet of compressed data, as messages have; gpg --decrypt unpacks it",
            OtherPacket "a packet that opgp doesn't read, or no OpenPGP at all",
            LongInput "the input is longer than --input allows",
            LongBody "a packet longer than --body allows, or no OpenPGP at all",
            ManyPieces "a packet in more pieces than --pieces allows",
            LongCertificate
                "a certificate, or what precedes the first one, longer than --cert allows",
            Malformed "a malformed packet; --malformed keep accepts it if it is a signature",
            OtherKeyVersion
                "a key of a version other than 4 and 6; nothing of the keyring is read, so export it without that key",
            SecretKey "a secret key; don't pass it on (gpg --export writes the public key)",
            SignatureBlock "a signature alone; opgp show lists its packets",
            MessageBlock "a message, not a keyring; opgp show lists its packets",
            OtherBlock "a block that this command doesn't read; opgp show lists its packets",
            NoPrimary
                "no key in front of it; a revocation certificate goes behind its key, a detached signature isn't a keyring",
            MessagePacket "a packet of a message, not of a keyring; opgp show lists it",
            ForeignPacket "a packet that no public keyring has; opgp show lists it",
            NotSigned "not one literal packet with its signatures",
            NotASignature "not detached signatures alone; opgp show lists any packets",
            StrayReturn
                "a carriage return without a line feed; programs hash three different texts for it",
            NoSignedText "no cleartext signed message; one begins with -----BEGIN PGP SIGNED MESSAGE-----",
            BesideMessage "not blank, outside of the signed message; nothing signs it",
            NoHashHeader
                "not a Hash header, which names hash algorithms; a blank line must be in front of the text",
            Unescaped "a hyphen begins the line, and no escape, a hyphen and a space, is in front of it",
            NoText "no line of text in front of the signatures",
            CutMessage "the text ends within the signed message; its signatures are missing",
            OtherVerdicts
                "opgp-verify --verdicts writes the file of verdicts on a keyring, from the same octets",
        }
    }
}

/// What is told beside the fault, or the success, of a run.
#[derive(Clone, Copy)]
pub enum Hint {
    /// Of the input as a whole.
    Plain(Advice),
    /// Of a line of the text, by its number, from 1.
    Line(Advice, u64),
    /// So many octets outside of armored blocks were passed over.
    Skipped(u64),
}

impl Hint {
    /// Whether it tells of octets that were passed over.
    pub fn is_loss(self) -> bool
        ensures { result ≡ is_loss self }
    {
        matches!(self, Hint::Skipped(_))
    }
}

/// The line, without its line feed.
impl fmt::Display for Hint {
    ghost output = { λ hint. Some (hint_text hint) };

    fn fmt<W: fmt::Write>(&self, f: &mut fmt::Formatter<W>) -> fmt::Result {
        match self {
            Hint::Plain(advice) => {
                let text = advice.text();
                write!(f, "opgp: {text}")
            }
            Hint::Line(advice, line) => {
                let text = advice.text();
                write!(f, "opgp: line {line}: {text}")
            }
            Hint::Skipped(count) => {
                write!(
                    f,
                    "opgp: {count} octets outside of armored blocks were skipped; read a binary file by itself"
                )
            }
        }
    }
}
