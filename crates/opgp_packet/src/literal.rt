//! Literals.

ghost use Rattle.std.specs.Prelude.{◌≡◌, ◌≤◌, ◌<◌, ℕ, List, length};
ghost use Rattle.opgp_octets.specs.Octets.{IsBodySized};
ghost use Rattle.opgp_packet.specs.Literal.{literal_in, literal_value, LieIn, LieIn-prop};
ghost use Rattle.opgp_packet.specs.LiteralBody.{literal, literal_fields};

use crate::parsed::{Body, Octets, Parsed};
use crate::{Cursor, Span};
use opgp_octets::{BodyFault, Reason};

/// The fields of a literal data packet; for its name and content, where they lie in the body.
#[derive(Clone, Copy)]
pub struct LiteralPlaces {
    format: u8,
    name: Span,
    date: u32,
    content: Span,
}

/// A literal: data as it is, with a file name and a date (RFC 9580, 5.9).
///
/// The only fault of its body is [`Short`](opgp_octets::Reason::Short), at the first field that
/// isn't complete.
pub type Literal = Parsed<Vec<u8>, LiteralPlaces>;

/// A literal that borrows its body (RFC 9580, 5.9).
pub type LiteralView<'a> = Parsed<&'a [u8], LiteralPlaces>;

impl Body for LiteralPlaces {
    ghost grammar = { literal };

    ghost fields = { λ p o. literal_fields (literal_in p o) };

    ghost lies = { LieIn };

    ghost lies_prop = { LieIn-prop };

    #[tactic(auto, unfolding(crate::specs::FieldReading::body_at, crate::specs::LiteralBody::literal))]
    fn read(o: &[u8]) -> Result<LiteralPlaces, BodyFault> {
        let mut cursor = Cursor::new(o);
        let format = cursor.octet()?;
        let name = cursor.sized(Reason::Short, 0, 255)?;
        let date = cursor.four()?;
        let content = cursor.whole();
        cursor.end()?;
        Ok(LiteralPlaces {
            format,
            name,
            date,
            content,
        })
    }
}

impl<B: Octets + Drop> Parsed<B, LiteralPlaces> {
    /// Its format octet: usually `b`, `t` or `u`.
    pub fn format(&self) -> u8
        ensures { result ≡ (literal_value self.now).format }
    {
        self.places.format
    }

    /// Its date, in seconds since 1970.
    pub fn date(&self) -> u32
        ensures { result ≡ (literal_value self.now).date }
    {
        self.places.date
    }
}

impl Parsed<Vec<u8>, LiteralPlaces> {
    /// Its file name, which may be empty; it isn't signed.
    pub fn name(&self) -> &[u8]
        ensures { result.now ≡ (literal_value self.now).name }
    {
        self.places.name.lend(&self.body)
    }

    /// Its content.
    pub fn content(&self) -> &[u8]
        ensures value { result.now ≡ (literal_value self.now).content }
        ensures small { IsBodySized result.now }
    {
        self.places.content.lend(&self.body)
    }
}

impl<'a> Parsed<&'a [u8], LiteralPlaces> {
    /// Its file name, which may be empty; it isn't signed.
    pub fn name(&self) -> &'a [u8]
        ensures { result.now ≡ (literal_value self.now).name }
    {
        self.places.name.lend(self.body)
    }

    /// Its content.
    pub fn content(&self) -> &'a [u8]
        ensures value { result.now ≡ (literal_value self.now).content }
        ensures small { IsBodySized result.now }
    {
        self.places.content.lend(self.body)
    }
}
