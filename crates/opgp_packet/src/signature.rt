//! A signature that owns its body.

ghost use Rattle.std.specs.Prelude.{◌≡◌, ◌++◌, ◌+◌, ◌≤◌, length, Ok, Err};
ghost use Rattle.std.specs.Prelude.{OnOk, OnErr, IfOk, IfErr, IsOk, vec_len, vec_capacity};
ghost use Rattle.opgp_octets.specs.declared.fault.BodyFault.{BodyFault};
ghost use Rattle.opgp_octets.specs.Octets.{IsOctets, IsBodySized};
ghost use Rattle.opgp_octets.specs.ParseFault.{Parses, RefusedBy};
ghost use Rattle.opgp_octets.specs.Reading.{Reads};
ghost use Rattle.opgp_packet.specs.SignatureBody.{SignatureValue, Spells, SignatureFault};
ghost use Rattle.opgp_packet.specs.SignatureBody.{signature_at};

use crate::areas::{FourSignature, SixSignature};
use crate::other_signature::OtherSignature;
use crate::parsed::Body;
use crate::sig_view::SigView;
use crate::three::{ThreePlaces, ThreeSignature};
use opgp_octets::{BodyFault, OutOfMemory, ParseFault, Reason};
use std::alloc::Global;

/// A signature that owns its body (RFC 9580, 5.2).
#[derive(Drop)]
pub enum Signature {
    /// Version 3, with RSA or DSA.
    Three(ThreeSignature),
    /// Version 4.
    Four(FourSignature),
    /// Version 6.
    Six(SixSignature),
    /// Any other, as an unread body.
    Other(OtherSignature),
}

impl Signature {
    ghost use Rattle.opgp_packet.specs.Signature.{signature_value, signature_octets};
    ghost use Rattle.opgp_packet.specs.SigView.{sig_view_value, sig_view_octets};

    /// Reads the body of a signature to its end, and keeps a copy of it.
    ///
    /// The errors are those of [`SigView::parse_body`], which come first, and running out of
    /// memory.
    pub fn parse_body(alloc: Global, o: &[u8]) -> Result<Signature, ParseFault>
        requires { IsBodySized o.now }
        // The body consists of the fields of the signature, one after the other.
        ensures found { IfOk result (λ s. Spells (signature_value s) o.now) }
        // Every body of such fields is read, unless memory runs out.
        ensures only { (value : SignatureValue) → Spells value o.now
            → Parses signature_value result (Ok value) }
        // A fault is that of the first field that can't be read at its place.
        ensures fault { IfErr result (RefusedBy (SignatureFault o.now)) }
        // A fault is reported whether or not there is memory.
        ensures refuses { (f : BodyFault) → SignatureFault o.now f
            → result ≡ Err (ParseFault.Body f) }
        ensures exact { Parses signature_value result (signature_at o.now) }
        ensures body { IfOk result (λ s. signature_octets s ≡ o.now) }
    {
        Signature::read(alloc, o)
    }

    fn read(alloc: Global, o: &[u8]) -> Result<Signature, ParseFault>
        requires { IsBodySized o.now }
        ensures exact { Parses signature_value result (signature_at o.now) }
        ensures refuses { (f : BodyFault) → signature_at o.now ≡ Err f
            → result ≡ Err (ParseFault.Body f) }
        ensures body { IfOk result (λ s. signature_octets s ≡ o.now) }
    {
        let view = SigView::parse_body(o)?;
        Ok(Signature::of(alloc, view)?)
    }

    /// Reads the body of a signature to its end, and keeps it. Allocates nothing.
    ///
    /// The errors are those of [`SigView::parse_body`].
    pub fn from_body(body: Vec<u8>) -> Result<Signature, BodyFault>
        requires { IsBodySized body.items }
        ensures found { IfOk result (λ s. Spells (signature_value s) body.items) }
        // Every body of such fields is read.
        ensures only { (value : SignatureValue) → Spells value body.items
            → Reads signature_value result (Ok value) }
        ensures fault { IfErr result (SignatureFault body.items) }
        // The result is that of a view of the octets, or the same fault.
        ensures exact { Reads signature_value result (signature_at body.items) }
        ensures body { IfOk result (λ s. signature_octets s ≡ body.items) }
    {
        Signature::keep(body)
    }

    #[tactic(auto, unfolding(crate::specs::SignatureBody::signature_at))]
    fn keep(body: Vec<u8>) -> Result<Signature, BodyFault>
        requires { IsBodySized body.items }
        ensures exact { Reads signature_value result (signature_at body.items) }
        ensures body { IfOk result (λ s. signature_octets s ≡ body.items) }
        ensures octets { IsOctets body.items }
    {
        let version = match body.first() {
            Some(version) => *version,
            None => {
                return Err(BodyFault {
                    reason: Reason::Short,
                    inner: 0,
                });
            }
        };
        match version {
            4 => Ok(Signature::Four(FourSignature::keep(body)?)),
            6 => Ok(Signature::Six(SixSignature::keep(body)?)),
            3 => match ThreePlaces::read(&body) {
                Ok(places) => Ok(Signature::Three(ThreeSignature { body, places })),
                Err(_) => Ok(Signature::Other(OtherSignature { body })),
            },
            _ => Ok(Signature::Other(OtherSignature { body })),
        }
    }

    /// Its body, as a vector. Allocates nothing.
    pub fn into_body(self) -> Vec<u8>
        ensures value { result.items ≡ signature_octets self }
        ensures small { IsBodySized result.items }
    {
        match self {
            Signature::Three(signature) => signature.into_body(),
            Signature::Four(signature) => signature.into_body(),
            Signature::Six(signature) => signature.into_body(),
            Signature::Other(signature) => signature.into_body(),
        }
    }

    /// A copy of the viewed signature, which owns its body.
    ///
    /// Fails only when out of memory.
    pub fn of(alloc: Global, view: SigView<'_>) -> Result<Signature, OutOfMemory>
        ensures body { IfOk result (λ s. signature_octets s ≡ sig_view_octets view.entry) }
        ensures fields { IfOk result (λ s. signature_value s ≡ sig_view_value view.entry) }
    {
        match view {
            SigView::Three(view) => Ok(Signature::Three(ThreeSignature::of(alloc, view)?)),
            SigView::Four(view) => Ok(Signature::Four(FourSignature::of(alloc, view)?)),
            SigView::Six(view) => Ok(Signature::Six(SixSignature::of(alloc, view)?)),
            SigView::Other(view) => Ok(Signature::Other(OtherSignature::of(alloc, view)?)),
        }
    }

    /// A view of it. Allocates nothing, and reads nothing again.
    pub fn view(&self) -> SigView<'_>
        ensures body { sig_view_octets result ≡ signature_octets self.now }
        ensures fields { sig_view_value result ≡ signature_value self.now }
    {
        match self {
            Signature::Three(signature) => SigView::Three(signature.view()),
            Signature::Four(signature) => SigView::Four(signature.view()),
            Signature::Six(signature) => SigView::Six(signature.view()),
            Signature::Other(signature) => SigView::Other(signature.view()),
        }
    }

    /// The octets of its body.
    pub fn body(&self) -> &[u8]
        ensures value { result.now ≡ signature_octets self.now }
        ensures small { IsBodySized result.now }
        ensures spelled { Spells (signature_value self.now) result.now }
    {
        self.view().body()
    }

    /// How many octets its body has.
    pub fn body_len(&self) -> u64
        ensures { result ≡ length (signature_octets self.now) }
    {
        self.body().len() as u64
    }

    /// Writes its body at the end of `out`.
    ///
    /// Fails only when out of memory; `out` is then unchanged.
    pub fn write_body(&self, out: &mut Vec<u8>) -> Result<(), OutOfMemory>
        ensures ok { OnOk result (out.new.items ≡ out.old.items ++ signature_octets self.now) }
        ensures err { OnErr result (out.new.items ≡ out.old.items) }
        // It can't fail if the vector has the room.
        ensures succeeds { vec_len out.old + length (signature_octets self.now)
            ≤ vec_capacity out.old
            → IsOk result }
    {
        out.extend_from_slice(self.body())
    }

    /// A copy of this signature.
    ///
    /// Fails only when out of memory.
    pub fn copy(&self, alloc: Global) -> Result<Signature, OutOfMemory>
        ensures body { IfOk result (λ s. signature_octets s ≡ signature_octets self.now) }
        ensures fields { IfOk result (λ s. signature_value s ≡ signature_value self.now) }
    {
        Signature::of(alloc, self.view())
    }
}
