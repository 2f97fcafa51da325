//! A signature that borrows its body.

ghost use Rattle.std.specs.Prelude.{◌≡◌, ◌≤◌, length, Ok, IfOk, IfErr};
ghost use Rattle.opgp_octets.specs.Octets.{IsBodySized};
ghost use Rattle.opgp_octets.specs.Reading.{Reads};
ghost use Rattle.opgp_packet.specs.SignatureBody.{SignatureValue, Spells, SignatureFault};
ghost use Rattle.opgp_packet.specs.SignatureBody.{signature_at};

use crate::areas::{FourView, SixView};
use crate::other_view::OtherView;
use crate::three::ThreeView;
use opgp_octets::{BodyFault, Reason};

/// A signature that borrows its body (RFC 9580, 5.2).
#[derive(Clone, Copy)]
pub enum SigView<'a> {
    /// Version 3, with RSA or DSA.
    Three(ThreeView<'a>),
    /// Version 4.
    Four(FourView<'a>),
    /// Version 6.
    Six(SixView<'a>),
    /// Any other, as an unread body.
    Other(OtherView<'a>),
}

impl<'a> SigView<'a> {
    ghost use Rattle.opgp_packet.specs.SigView.{sig_view_value, sig_view_octets};
    ghost use Rattle.opgp_packet.specs.SigView.{kind_of, algorithm_of, hash_of, left_of};

    /// Reads the body of a signature to its end. Allocates nothing; it is one pass over the octets,
    /// in which no subpacket's data is read.
    ///
    /// A body of another version than 4 and 6 is never refused unless it is empty. The errors are
    /// [`Short`], [`AreaShort`], [`SubEmpty`] and [`SubShort`] at a subpacket, in version 6
    /// [`SaltSize`] and [`MpiBits`], and [`Trailing`], each at the first field that can't be read.
    ///
    /// [`Short`]: opgp_octets::Reason::Short
    /// [`AreaShort`]: opgp_octets::Reason::AreaShort
    /// [`SubEmpty`]: opgp_octets::Reason::SubEmpty
    /// [`SubShort`]: opgp_octets::Reason::SubShort
    /// [`SaltSize`]: opgp_octets::Reason::SaltSize
    /// [`MpiBits`]: opgp_octets::Reason::MpiBits
    /// [`Trailing`]: opgp_octets::Reason::Trailing
    pub fn parse_body(o: &'a [u8]) -> Result<SigView<'a>, BodyFault>
        requires { IsBodySized o.now }
        // The body consists of the fields of the signature, one after the other.
        ensures found { IfOk result (λ v. Spells (sig_view_value v) o.now) }
        // Every body of such fields is read.
        ensures only { (value : SignatureValue) → Spells value o.now
            → Reads sig_view_value result (Ok value) }
        // The body begins with some fields, and the next one can't be read there.
        ensures fault { IfErr result (SignatureFault o.now) }
        ensures exact { Reads sig_view_value result (signature_at o.now) }
        ensures body { IfOk result (λ v. sig_view_octets v ≡ o.now) }
    {
        SigView::read(o)
    }

    #[tactic(auto, unfolding(crate::specs::SignatureBody::signature_at))]
    fn read(o: &'a [u8]) -> Result<SigView<'a>, BodyFault>
        requires { IsBodySized o.now }
        ensures exact { Reads sig_view_value result (signature_at o.now) }
        ensures body { IfOk result (λ v. sig_view_octets v ≡ o.now) }
    {
        let [version, ..] = o else {
            return Err(BodyFault {
                reason: Reason::Short,
                inner: 0,
            });
        };
        match *version {
            4 => Ok(SigView::Four(FourView::parse_body(o)?)),
            6 => Ok(SigView::Six(SixView::parse_body(o)?)),
            3 => match ThreeView::parse_body(o) {
                Ok(view) => Ok(SigView::Three(view)),
                Err(_) => Ok(SigView::Other(OtherView { body: o })),
            },
            _ => Ok(SigView::Other(OtherView { body: o })),
        }
    }

    /// Its type, unless it is `Other` (RFC 9580, 5.2.1).
    pub fn kind(&self) -> Option<u8>
        ensures { result ≡ kind_of self.now }
    {
        match self {
            SigView::Three(view) => Some(view.kind()),
            SigView::Four(view) => Some(view.kind()),
            SigView::Six(view) => Some(view.kind()),
            SigView::Other(_) => None,
        }
    }

    /// The number of its key algorithm, unless it is `Other` (RFC 9580, 9.1).
    pub fn algorithm(&self) -> Option<u8>
        ensures { result ≡ algorithm_of self.now }
    {
        match self {
            SigView::Three(view) => Some(view.algorithm()),
            SigView::Four(view) => Some(view.algorithm()),
            SigView::Six(view) => Some(view.algorithm()),
            SigView::Other(_) => None,
        }
    }

    /// The number of its hash algorithm, unless it is `Other` (RFC 9580, 9.5).
    pub fn hash(&self) -> Option<u8>
        ensures { result ≡ hash_of self.now }
    {
        match self {
            SigView::Three(view) => Some(view.hash()),
            SigView::Four(view) => Some(view.hash()),
            SigView::Six(view) => Some(view.hash()),
            SigView::Other(_) => None,
        }
    }

    /// The left 16 bits of the signed hash value, as the signature states them, unless it is
    /// `Other` (RFC 9580, 5.2.3).
    pub fn left(&self) -> Option<[u8; 2]>
        ensures { result ≡ left_of self.now }
    {
        match self {
            SigView::Three(view) => Some(view.left()),
            SigView::Four(view) => Some(view.left()),
            SigView::Six(view) => Some(view.left()),
            SigView::Other(_) => None,
        }
    }

    /// The octets of its body.
    pub fn body(&self) -> &'a [u8]
        ensures value { result.now ≡ sig_view_octets self.now }
        ensures small { IsBodySized result.now }
        ensures spelled { Spells (sig_view_value self.now) result.now }
    {
        match self {
            SigView::Three(view) => view.body(),
            SigView::Four(view) => view.body(),
            SigView::Six(view) => view.body(),
            SigView::Other(view) => view.body(),
        }
    }
}
