//! What is wrong with an input, and where.

ghost use Rattle.std.specs.Prelude.{◌≡◌};
ghost use Rattle.opgp_octets.specs.Fault.{layer_name, layer_number, layer_of};
ghost use Rattle.opgp_octets.specs.Fault.{reason_name, reason_number, reason_of};
ghost use Rattle.opgp_octets.specs.Rows.{StandsFor};

/// The layer that refuses an input, lowest first. Each layer has a number, which never changes.
#[derive(Clone, Copy, Debug, PartialEq, Eq)]
pub enum Layer {
    /// The input as a whole: it is too long.
    Input = 0,
    /// The armored text (RFC 9580, 6).
    Armor = 1,
    /// The packets' headers and lengths (RFC 9580, 4.2).
    Framing = 2,
    /// The contents of a packet's body (RFC 9580, 5).
    Body = 3,
    /// The order of packets (RFC 9580, 10.1).
    Composition = 4,
    /// The line ends of a document that is hashed as text (RFC 9580, 5.2.1.2).
    Text = 5,
    /// The lines of a cleartext message (RFC 9580, 7). It refuses before the armor of its
    /// signatures.
    Cleartext = 6,
}

/// Why an input is refused. Each reason has a number, which never changes.
#[derive(Clone, Copy, Debug, PartialEq, Eq)]
pub enum Reason {
    /// The reader ran out of memory before.
    Spent = 1,
    /// Octets of a field are missing.
    Short = 2,
    /// A count of bits isn't that of the most significant bit.
    MpiBits = 3,
    /// A line outside of blocks isn't blank, and the limits have [`crate::Outside::Refuse`].
    Outside = 9,
    /// The text has no armored block.
    NoBlock = 10,
    /// A begin line has an unknown label.
    Label = 11,
    /// A line among the headers isn't a header.
    Header = 12,
    /// A data line has an octet that isn't a base64 letter.
    Letters = 13,
    /// The letters aren't base64 with its padding.
    Padding = 14,
    /// Something other than blank lines is between the checksum line and the end line.
    AfterChecksum = 15,
    /// A line in a block's data begins with a hyphen but isn't its end line.
    EndLabel = 16,
    /// The text ends within a block.
    Unfinished = 17,
    /// A line is longer than the limit.
    LineTooLong = 18,
    /// The input is longer than the limit.
    InputTooLong = 19,
    /// The first octet of a packet is below 128.
    NotAPacket = 20,
    /// A packet of the reserved type 0.
    TypeZero = 21,
    /// A packet of compressed data.
    Compressed = 22,
    /// A packet of a critical type that is unknown.
    UnknownCritical = 23,
    /// A packet of indeterminate length, in the legacy format.
    Indeterminate = 24,
    /// Octets of a packet are missing.
    Truncated = 25,
    /// A partial length where the packet's type allows none.
    PartialKind = 26,
    /// A first piece of fewer than 512 octets.
    FirstPartial = 27,
    /// A body longer than the limit.
    BodyTooLong = 28,
    /// More partial lengths than the limit.
    TooManyPieces = 29,
    /// A key of a version that isn't supported.
    KeyVersion = 30,
    /// A version 4 key of more octets than its fingerprint can count.
    KeyTooLong = 31,
    /// A count of octets isn't the number of octets that follow it.
    Count = 32,
    /// A curve's object identifier of a reserved size.
    OidSize = 33,
    /// Key derivation parameters of a reserved size.
    KdfSize = 34,
    /// Octets after the last field.
    Trailing = 35,
    /// A subpacket of length 0.
    SubEmpty = 36,
    /// A subpacket that is longer than what is left of its area.
    SubShort = 37,
    /// An area that is longer than what is left of its body.
    AreaShort = 40,
    /// A salt whose size isn't that of its hash algorithm.
    SaltSize = 41,
    /// A carriage return that no line feed follows, in a document that is to be text.
    StrayReturn = 43,
    /// A line of a cleartext message begins with a hyphen and isn't escaped.
    Unescaped = 44,
    /// A cleartext message has no line of text.
    NoText = 45,
    /// The text has no cleartext message.
    NoMessage = 46,
    /// A component or signature before the first primary key.
    NoPrimary = 50,
    /// A packet that has no place in a keyring.
    NotInKeyring = 51,
    /// A certificate of more octets than the limit.
    CertTooLong = 52,
    /// The packets aren't a signed literal.
    NotASignedLiteral = 53,
    /// A block with another label than expected.
    BlockLabel = 54,
    /// A packet that is no signature, or no signature at all, where only signatures may be.
    NotASignature = 55,
}

/// The fault of an input. Offsets count from 0.
#[derive(Clone, Copy, Debug, PartialEq, Eq)]
pub struct Fault {
    /// The layer that refuses the input.
    pub layer: Layer,
    /// Why it does.
    pub reason: Reason,
    /// The number of the armored block; 0 for binary input.
    pub block: u64,
    /// Where the line begins in the text, or the packet in its block's octets.
    pub pos: u64,
    /// Where the header or field at fault begins within the packet, or within its body.
    pub inner: u64,
}

/// The fault of a packet's body.
#[derive(Clone, Copy, Debug, PartialEq, Eq)]
pub struct BodyFault {
    /// Why the body is refused.
    pub reason: Reason,
    /// Where the field at fault begins in the body.
    pub inner: u64,
}

impl BodyFault {
    ghost use Rattle.opgp_octets.specs.declared.fault.Layer.TheVariants as layer;

    /// The fault of an input that has the packet of this body: with the packet's block and place.
    pub fn placed(self, block: u64, pos: u64) -> Fault
        ensures { result ≡ record {
          layer = layer.Body;
          reason = self.reason;
          block = block;
          pos = pos;
          inner = self.inner;
        } }
    {
        Fault {
            layer: Layer::Body,
            reason: self.reason,
            block,
            pos,
            inner: self.inner,
        }
    }
}

impl Layer {
    /// All of them, by number.
    pub const ALL: [Layer; 7] = [
        Layer::Input,
        Layer::Armor,
        Layer::Framing,
        Layer::Body,
        Layer::Composition,
        Layer::Text,
        Layer::Cleartext,
    ];

    /// The layer of this number; None if no layer has it.
    pub fn of(number: u8) -> Option<Layer>
        ensures value { result ≡ layer_of number }
        ensures stands { StandsFor layer_number number result }
    {
        for layer in &Layer::ALL {
            if layer.number() == number {
                return Some(*layer);
            }
        }
        None
    }

    /// The number.
    pub fn number(self) -> u8
        ensures { result ≡ layer_number self }
    {
        self as u8
    }

    #[tactic(auto, unfolding(crate::specs::Fault::layer_name))]
    /// The name in lower case, as a fault's line has it.
    pub fn name(self) -> &'static str
        ensures { result.now ≡ layer_name self }
    {
        match self {
            Layer::Input => "input",
            Layer::Armor => "armor",
            Layer::Framing => "framing",
            Layer::Body => "body",
            Layer::Composition => "composition",
            Layer::Text => "text",
            Layer::Cleartext => "cleartext",
        }
    }
}

// The reasons, by number.
macro_rules! reasons {
    ($write:ident $($value:expr)?) => {
        $write! { $($value,)? Reason;
            Spent Short MpiBits Outside NoBlock Label Header Letters Padding AfterChecksum EndLabel
            Unfinished LineTooLong InputTooLong NotAPacket TypeZero Compressed UnknownCritical
            Indeterminate Truncated PartialKind FirstPartial BodyTooLong TooManyPieces KeyVersion
            KeyTooLong Count OidSize KdfSize Trailing SubEmpty SubShort AreaShort SaltSize
            StrayReturn Unescaped NoText NoMessage NoPrimary NotInKeyring CertTooLong
            NotASignedLiteral BlockLabel NotASignature
        }
    };
}

/// The variants.
macro_rules! all {
    ($table:ident; $($variant:ident)*) => {
        [$($table::$variant,)*]
    };
}

/// The name of a variant, which is that of the variant itself.
macro_rules! name {
    ($value:expr, $table:ident; $($variant:ident)*) => {
        match $value {
            $($table::$variant => stringify!($variant),)*
        }
    };
}

impl Reason {
    /// All of them, by number.
    pub const ALL: [Reason; 44] = reasons!(all);

    /// The reason of this number; None if no reason has it.
    pub fn of(number: u8) -> Option<Reason>
        ensures value { result ≡ reason_of number }
        ensures stands { StandsFor reason_number number result }
    {
        for reason in &Reason::ALL {
            if reason.number() == number {
                return Some(*reason);
            }
        }
        None
    }

    /// The number.
    pub fn number(self) -> u8
        ensures { result ≡ reason_number self }
    {
        self as u8
    }

    #[tactic(auto, unfolding(crate::specs::Fault::reason_name))]
    /// The name, as a fault's line has it.
    pub fn name(self) -> &'static str
        ensures { result.now ≡ reason_name self }
    {
        reasons!(name self)
    }
}
