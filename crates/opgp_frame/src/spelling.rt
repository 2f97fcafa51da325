//! A packet's octets as a sequence of slices, without an allocation.

ghost use Rattle.std.specs.Prelude.{◌≡◌, ◌<◌, ◌≤◌, ◌++◌, [], All, length, take, option_to_list};
ghost use Rattle.std.specs.Prelude.{IfSome, MatchOption};
ghost use Rattle.opgp_frame.specs.Packet.{IsPacket, spelling};
ghost use Rattle.opgp_frame.specs.PiecesValue.{pieces_sum};

use crate::form::Form;

/// A length header, after the packet's first octet where it is the first one (RFC 9580, 4.2).
#[derive(Clone, Copy)]
pub struct HeaderOctets {
    octets: [u8; 6],
    count: usize,
    ghost some: { 0 < count },
    ghost within: { count ≤ 6 },
}

impl HeaderOctets {
    ghost use Rattle.opgp_frame.specs.Spelling.{octets_of_header};

    /// The octets, 1 to 6.
    pub fn as_slice(&self) -> &[u8]
        ensures value { result.now ≡ octets_of_header self.now }
        ensures some { 0 < length result.now }
    {
        &self.octets[..self.count]
    }

    /// The first `count` of these octets.
    pub(crate) fn new(octets: [u8; 5], count: usize) -> HeaderOctets
        requires some { 0 < count }
        requires few { count ≤ 5 }
        ensures count { result.count ≡ count }
        ensures octets { octets_of_header result ≡ take count octets }
    {
        let [a, b, c, d, e] = octets;
        HeaderOctets {
            octets: [a, b, c, d, e, 0],
            count,
        }
    }

    /// The octets after the first one, if it is given.
    fn behind(self, first: Option<u8>) -> HeaderOctets
        requires { self.count ≤ 5 }
        ensures { octets_of_header result ≡ option_to_list first ++ octets_of_header self }
    {
        let [a, b, c, d, e, _] = self.octets;
        match first {
            Some(first) => HeaderOctets {
                octets: [first, a, b, c, d, e],
                count: self.count + 1,
            },
            None => self,
        }
    }
}

/// The octets of a packet that are left to be written (RFC 9580, 4.2): for each piece, and for what
/// follows the pieces, its length header and its part of the body, which is borrowed.
#[derive(Drop)]
pub struct Spelling<'a> {
    first: Option<u8>,
    exponents: &'a [u8],
    last: HeaderOctets,
    body: &'a [u8],
    ended: bool,
    ghost each: { All (λ k. k ≤ 30) exponents.now },
    ghost pieces: { pieces_sum exponents.now ≤ length body.now },
    ghost short: { last.count ≤ 5 },
}

impl<'a> Spelling<'a> {
    ghost use Rattle.opgp_frame.specs.Spelling.{octets_left, octets_of_header};

    /// The octets of the packet with this form, type and body.
    ///
    /// Allocates nothing.
    #[inline(always)]
    pub fn new(form: &'a Form, kind: u8, body: &'a [u8]) -> Spelling<'a>
        requires { IsPacket (record { form = form.now; kind = kind; body = body.now }) }
        ensures { octets_left result
            ≡ spelling (record { form = form.now; kind = kind; body = body.now }) }
    {
        match form.last_length(body.len() as u64) {
            Some(length) => Spelling {
                first: Some(form.header_octet(kind)),
                exponents: form.exponents(),
                last: length.octets(),
                body,
                ended: false,
            },
            None => unreachable!(),
        }
    }

    /// The next header and the part of the body that follows it, or None at the end.
    ///
    /// Allocates nothing.
    pub fn next(&mut self) -> Option<(HeaderOctets, &'a [u8])>
        ensures next { MatchOption result (octets_left self.old ≡ [])
            (λ part. octets_left self.old
            ≡ octets_of_header part.0 ++ (part.1.now ++ octets_left self.new)) }
        ensures fewer { IfSome result
            (λ part. length (octets_left self.new) < length (octets_left self.old)) }
    {
        if self.ended {
            return None;
        }
        let first = self.first.take();
        let body = self.body;
        match self.exponents {
            [] => {
                self.ended = true;
                Some((self.last.behind(first), body))
            }
            [exponent, more @ ..] => {
                let (piece, rest) = body.split_at(1usize << *exponent);
                self.exponents = more;
                self.body = rest;
                let header = HeaderOctets::new([224 + *exponent, 0, 0, 0, 0], 1);
                Some((header.behind(first), piece))
            }
        }
    }
}
