//! The limits of what is read.

ghost use Rattle.std.specs.Prelude.{◌≡◌, ◌↔◌, IsSome, IfSome, IsTrue};
ghost use Rattle.opgp_octets.specs.Ranges.{AreAllowed, IsIn, line_range, body_range, cert_range};
ghost use Rattle.opgp_octets.specs.Ranges.{input_range, pieces_range};

use crate::malformed::Malformed;
use crate::outside::Outside;

/// The range of a limit, and its default.
#[derive(Clone, Copy, Debug)]
pub struct Range {
    /// The least value.
    pub least: u64,
    /// The greatest value.
    pub most: u64,
    /// The default.
    pub usual: u64,
}

impl Range {
    fn has(self, n: u64) -> bool
        ensures { IsTrue result ↔ IsIn self n }
    {
        self.least <= n && n <= self.most
    }
}

/// The limits of what is read; a value equal to a limit is accepted. With them goes what becomes of
/// lines outside of armored blocks, and of malformed signatures.
#[derive(Clone, Copy, Debug)]
pub struct Limits {
    line: u64,
    body: u64,
    cert: u64,
    input: u64,
    pieces: u64,
    outside: Outside,
    malformed: Malformed,
    ghost allowed: { AreAllowed line body cert input pieces },
}

impl Limits {
    ghost use Rattle.opgp_octets.specs.Limits.{line_limit, body_limit, cert_limit, input_limit};
    ghost use Rattle.opgp_octets.specs.Limits.{pieces_limit, outside_of, malformed_of};
    ghost use Rattle.opgp_octets.specs.declared.outside.Outside.TheVariants as policy;
    ghost use Rattle.opgp_octets.specs.declared.malformed.Malformed.TheVariants as signature;

    /// Octets of an armored line without its line feed.
    pub const LINE: Range = Range {
        least: 128,
        most: 1_048_576,
        usual: 8_192,
    };

    /// Octets of a packet's body, its pieces joined.
    pub const BODY: Range = Range {
        least: 512,
        most: 4_294_967_295,
        usual: 16_777_216,
    };

    /// Octets of a certificate's packets, headers included, or of the packets before the first one.
    pub const CERT: Range = Range {
        least: 512,
        most: 1_099_511_627_776,
        usual: 67_108_864,
    };

    /// Octets of the input.
    pub const INPUT: Range = Range {
        least: 0,
        most: 4_611_686_018_427_387_904,
        usual: 1_099_511_627_776,
    };

    /// Partial lengths of one packet.
    pub const PIECES: Range = Range {
        least: 1,
        most: 16_777_216,
        usual: 1_048_576,
    };

    /// These limits, or None where one is out of its range: [`Limits::LINE`] to [`Limits::PIECES`].
    /// Lines outside of blocks are passed over, and malformed signatures refused.
    pub fn new(line: u64, body: u64, cert: u64, input: u64, pieces: u64) -> Option<Limits>
        ensures some { IsSome result ↔ AreAllowed line body cert input pieces }
        ensures line { IfSome result (λ l. line_limit l ≡ line) }
        ensures body { IfSome result (λ l. body_limit l ≡ body) }
        ensures cert { IfSome result (λ l. cert_limit l ≡ cert) }
        ensures input { IfSome result (λ l. input_limit l ≡ input) }
        ensures pieces { IfSome result (λ l. pieces_limit l ≡ pieces) }
        ensures outside { IfSome result (λ l. outside_of l ≡ policy.Skip) }
        ensures malformed { IfSome result (λ l. malformed_of l ≡ signature.Refuse) }
    {
        let allowed = Limits::LINE.has(line)
            && Limits::BODY.has(body)
            && Limits::CERT.has(cert)
            && Limits::INPUT.has(input)
            && Limits::PIECES.has(pieces);
        if allowed {
            Some(Limits {
                line,
                body,
                cert,
                input,
                pieces,
                outside: Outside::Skip,
                malformed: Malformed::Refuse,
            })
        } else {
            None
        }
    }

    /// The default limits: lines of 8,192 octets, bodies of 16,777,216, certificates of 67,108,864,
    /// an input of 2^40, and 1,048,576 partial lengths of a packet. Lines outside of blocks are
    /// passed over, and malformed signatures refused.
    pub fn usual() -> Limits
        ensures line { line_limit result ≡ line_range.usual }
        ensures body { body_limit result ≡ body_range.usual }
        ensures cert { cert_limit result ≡ cert_range.usual }
        ensures input { input_limit result ≡ input_range.usual }
        ensures pieces { pieces_limit result ≡ pieces_range.usual }
        ensures outside { outside_of result ≡ policy.Skip }
        ensures malformed { malformed_of result ≡ signature.Refuse }
    {
        Limits {
            line: Limits::LINE.usual,
            body: Limits::BODY.usual,
            cert: Limits::CERT.usual,
            input: Limits::INPUT.usual,
            pieces: Limits::PIECES.usual,
            outside: Outside::Skip,
            malformed: Malformed::Refuse,
        }
    }

    /// The same limits, with this policy for lines outside of armored blocks.
    pub fn with_outside(self, outside: Outside) -> Limits
        ensures line { line_limit result ≡ line_limit self }
        ensures body { body_limit result ≡ body_limit self }
        ensures cert { cert_limit result ≡ cert_limit self }
        ensures input { input_limit result ≡ input_limit self }
        ensures pieces { pieces_limit result ≡ pieces_limit self }
        ensures outside { outside_of result ≡ outside }
        ensures malformed { malformed_of result ≡ malformed_of self }
    {
        Limits {
            line: self.line,
            body: self.body,
            cert: self.cert,
            input: self.input,
            pieces: self.pieces,
            outside,
            malformed: self.malformed,
        }
    }

    /// The same limits, with this policy for malformed signatures.
    pub fn with_malformed(self, malformed: Malformed) -> Limits
        ensures line { line_limit result ≡ line_limit self }
        ensures body { body_limit result ≡ body_limit self }
        ensures cert { cert_limit result ≡ cert_limit self }
        ensures input { input_limit result ≡ input_limit self }
        ensures pieces { pieces_limit result ≡ pieces_limit self }
        ensures outside { outside_of result ≡ outside_of self }
        ensures malformed { malformed_of result ≡ malformed }
    {
        Limits {
            line: self.line,
            body: self.body,
            cert: self.cert,
            input: self.input,
            pieces: self.pieces,
            outside: self.outside,
            malformed,
        }
    }

    /// The greatest number of octets of an armored line, without its line feed.
    pub fn line(self) -> u64
        ensures value { result ≡ line_limit self }
        ensures range { IsIn line_range result }
    {
        self.line
    }

    /// The greatest number of octets of a packet's body.
    pub fn body(self) -> u64
        ensures value { result ≡ body_limit self }
        ensures range { IsIn body_range result }
    {
        self.body
    }

    /// The greatest number of octets of a certificate's packets, headers included.
    pub fn cert(self) -> u64
        ensures value { result ≡ cert_limit self }
        ensures range { IsIn cert_range result }
    {
        self.cert
    }

    /// The greatest number of octets of the input.
    pub fn input(self) -> u64
        ensures value { result ≡ input_limit self }
        ensures range { IsIn input_range result }
    {
        self.input
    }

    /// The greatest number of partial lengths of one packet.
    pub fn pieces(self) -> u64
        ensures value { result ≡ pieces_limit self }
        ensures range { IsIn pieces_range result }
    {
        self.pieces
    }

    /// What becomes of lines outside of armored blocks.
    pub fn outside(self) -> Outside
        ensures { result ≡ outside_of self }
    {
        self.outside
    }

    /// What becomes of malformed signatures.
    pub fn malformed(self) -> Malformed
        ensures { result ≡ malformed_of self }
    {
        self.malformed
    }
}
