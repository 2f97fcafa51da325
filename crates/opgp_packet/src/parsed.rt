//! A body and where its fields lie in it.

ghost use Rattle.std.specs.Prelude.{◌≡◌, ◌++◌, ◌≤◌, ◌+◌, ⊤, ℕ, List, None, Ok, Err, length};
ghost use Rattle.std.specs.Prelude.{OnOk, OnErr, IfOk, IfErr, IfSome, IfNone, IsOk, vec_len};
ghost use Rattle.std.specs.Prelude.{vec_capacity};
ghost use Rattle.opgp_octets.specs.Octets.{IsOctets, IsBodySized};
ghost use Rattle.opgp_octets.specs.ParseFault.{Parses, RefusedBy};
ghost use Rattle.opgp_octets.specs.Reading.{Reads};
ghost use Rattle.opgp_octets.specs.declared.fault.BodyFault.{BodyFault};
ghost use Rattle.opgp_packet.specs.AreaReading.{fault_of};
ghost use Rattle.opgp_packet.specs.FieldReading.{body_at};
ghost use Rattle.opgp_packet.specs.Fields.{Field, Grammar, Body as IsBody, FirstFault};

use opgp_octets::{BodyFault, OutOfMemory, ParseFault};
use std::alloc::{AllocError, Global};

/// Octets, owned or borrowed.
pub trait Octets {
    ghost octets: { Self → List ℕ };

    /// The octets.
    fn octets(&self) -> &[u8]
        ensures { result.now ≡ octets self.now };
}

impl Octets for Vec<u8> {
    ghost octets = { λ v. v.items };

    fn octets(&self) -> &[u8] {
        self.as_slice()
    }
}

impl Octets for &[u8] {
    ghost octets = { λ s. s.now };

    fn octets(&self) -> &[u8] {
        *self
    }
}

/// A kind of body: its grammar, and the places of its fields.
pub trait Body: Copy {
    // The fields that such a body has, in order.
    ghost grammar: { Grammar };

    // The fields at the places.
    ghost fields: { Self → List ℕ → List Field };

    // The places are within the octets.
    ghost lies: { Self → List ℕ → Type 0 };

    // There is one proof of it at most.
    ghost lies_prop: { (p : Self) (o : List ℕ) → IsProp (lies p o) };

    /// The places of all fields of a body, or its first fault.
    fn read(o: &[u8]) -> Result<Self, BodyFault>
        requires { IsBodySized o.now }
        ensures exact { Reads (λ p. fields p o.now) result (body_at grammar o.now) }
        ensures within { IfOk result (λ p. lies p o.now) }
        ensures octets { IsOctets o.now };
}

/// A packet's body, owned (`Vec<u8>`) or borrowed (`&[u8]`), and where its fields lie in it.
#[derive(Copy, Drop)]
pub struct Parsed<B: Octets, F: Body> {
    pub(crate) body: B,
    pub(crate) places: F,
    ghost octets: { IsOctets (B.octets body) },
    ghost small: { IsBodySized (B.octets body) },
    ghost within: { F.lies places (B.octets body) } by { F.lies_prop places (B.octets body) },
    ghost parses: { body_at F.grammar (B.octets body) ≡ Ok (F.fields places (B.octets body)) },
}

impl<B: Octets + Copy, F: Body> Clone for Parsed<B, F> {
    ghost is_clone = { λ p q. q ≡ p };

    ghost is_infallible = { λ _. ⊤ };

    fn clone(&self) -> Result<Parsed<B, F>, AllocError> {
        Ok(*self)
    }
}

impl<B: Octets + Drop, F: Body + Drop> Parsed<B, F> {
    ghost use Rattle.opgp_packet.specs.Parsed.{body_octets, body_fields};

    /// Reads a body to its end, and keeps it. Allocates nothing.
    ///
    /// The error is the body's first fault.
    pub fn from_body(body: B) -> Result<Parsed<B, F>, BodyFault>
        requires { IsBodySized (B.octets body) }
        // The body consists of the fields, one after the other.
        ensures found { IfOk result (λ p. IsBody F.grammar (body_fields p) (B.octets body)) }
        // Every body of such fields is read.
        ensures only { (fields : List Field) → IsBody F.grammar fields (B.octets body)
            → Reads (λ p. body_fields p) result (Ok fields) }
        // The body begins with some fields, and the next one can't be read there.
        ensures fault { IfErr result
            (FirstFault (length (B.octets body)) F.grammar (B.octets body)) }
        ensures exact { Reads (λ p. body_fields p) result (body_at F.grammar (B.octets body)) }
        ensures body { IfOk result (λ p. body_octets p ≡ B.octets body) }
    {
        Parsed::keep(body)
    }

    pub(crate) fn keep(body: B) -> Result<Parsed<B, F>, BodyFault>
        requires { IsBodySized (B.octets body) }
        ensures exact { Reads (λ p. body_fields p) result (body_at F.grammar (B.octets body)) }
        ensures body { IfOk result (λ p. body_octets p ≡ B.octets body) }
        ensures octets { IsOctets (B.octets body) }
    {
        let places = F::read(body.octets())?;
        Ok(Parsed { body, places })
    }

    /// A view of it. Allocates nothing, and reads nothing again.
    pub fn view(&self) -> Parsed<&[u8], F>
        ensures body { body_octets result ≡ body_octets self.now }
        ensures fields { body_fields result ≡ body_fields self.now }
        ensures places { result.places ≡ self.now.places }
    {
        Parsed {
            body: self.body.octets(),
            places: self.places,
        }
    }

    /// How many octets its body has.
    pub fn body_len(&self) -> u64
        ensures { result ≡ length (body_octets self.now) }
    {
        self.body.octets().len() as u64
    }

    /// Writes its body at the end of `out`.
    ///
    /// Fails only when out of memory; `out` is then unchanged.
    pub fn write_body(&self, out: &mut Vec<u8>) -> Result<(), OutOfMemory>
        ensures ok { OnOk result (out.new.items ≡ out.old.items ++ body_octets self.now) }
        ensures err { OnErr result (out.new.items ≡ out.old.items) }
        // It can't fail if the vector has the room.
        ensures succeeds { vec_len out.old + length (body_octets self.now) ≤ vec_capacity out.old
            → IsOk result }
    {
        out.extend_from_slice(self.body.octets())
    }

    /// A copy that owns its body.
    ///
    /// Fails only when out of memory.
    pub fn copy(&self, alloc: Global) -> Result<Parsed<Vec<u8>, F>, OutOfMemory>
        ensures body { IfOk result (λ p. body_octets p ≡ body_octets self.now) }
        ensures fields { IfOk result (λ p. body_fields p ≡ body_fields self.now) }
        ensures places { IfOk result (λ p. p.places ≡ self.now.places) }
    {
        Ok(Parsed {
            body: Vec::from_slice(alloc, self.body.octets())?,
            places: self.places,
        })
    }
}

impl<F: Body + Drop> Parsed<Vec<u8>, F> {
    ghost use Rattle.opgp_packet.specs.Parsed.{body_octets, body_fields};

    /// The first fault of a body, if it has one. Allocates nothing.
    pub fn check_body(o: &[u8]) -> Option<BodyFault>
        requires { IsBodySized o.now }
        // The body begins with some fields, and the next one can't be read there.
        ensures fault { IfSome result (FirstFault (length o.now) F.grammar o.now) }
        // A body of such fields has no fault.
        ensures none { (fields : List Field) → IsBody F.grammar fields o.now → result ≡ None }
        // A body without a fault consists of such fields.
        ensures found { IfNone result ((fields : List Field) × IsBody F.grammar fields o.now) }
        ensures exact { result ≡ fault_of (body_at F.grammar o.now) }
    {
        Parsed::<Vec<u8>, F>::fault(o)
    }

    fn fault(o: &[u8]) -> Option<BodyFault>
        requires { IsBodySized o.now }
        ensures { result ≡ fault_of (body_at F.grammar o.now) }
    {
        F::read(o).err()
    }

    /// Reads a body to its end, and keeps a copy of it.
    ///
    /// The errors are the body's first fault, and running out of memory.
    pub fn parse_body(alloc: Global, o: &[u8]) -> Result<Parsed<Vec<u8>, F>, ParseFault>
        requires { IsBodySized o.now }
        // The body consists of the fields, one after the other.
        ensures found { IfOk result (λ p. IsBody F.grammar (body_fields p) o.now) }
        // Every body of such fields is read, unless memory runs out.
        ensures only { (fields : List Field) → IsBody F.grammar fields o.now
            → Parses (λ p. body_fields p) result (Ok fields) }
        // A fault is that of the first field that can't be read at its place.
        ensures fault { IfErr result (RefusedBy (FirstFault (length o.now) F.grammar o.now)) }
        // A fault is reported whether or not there is memory.
        ensures refuses { (f : BodyFault) → FirstFault (length o.now) F.grammar o.now f
            → result ≡ Err (ParseFault.Body f) }
        // The result is that of a view of the octets, or the same fault.
        ensures exact { Parses (λ p. body_fields p) result (body_at F.grammar o.now) }
        ensures body { IfOk result (λ p. body_octets p ≡ o.now) }
    {
        Parsed::read(alloc, o)
    }

    fn read(alloc: Global, o: &[u8]) -> Result<Parsed<Vec<u8>, F>, ParseFault>
        requires { IsBodySized o.now }
        ensures exact { Parses (λ p. body_fields p) result (body_at F.grammar o.now) }
        ensures refuses { (f : BodyFault) → body_at F.grammar o.now ≡ Err f
            → result ≡ Err (ParseFault.Body f) }
        ensures body { IfOk result (λ p. body_octets p ≡ o.now) }
    {
        let places = F::read(o)?;
        let body = Vec::from_slice(alloc, o)?;
        Ok(Parsed { body, places })
    }

    /// Its body, as a vector. Allocates nothing.
    pub fn into_body(self) -> Vec<u8>
        ensures value { result.items ≡ body_octets self }
        ensures small { IsBodySized result.items }
    {
        let Parsed { body, places: _ } = self;
        body
    }

    /// A copy of the viewed value, which owns its body.
    ///
    /// Fails only when out of memory.
    pub fn of(alloc: Global, view: Parsed<&[u8], F>) -> Result<Parsed<Vec<u8>, F>, OutOfMemory>
        ensures body { IfOk result (λ p. body_octets p ≡ body_octets view.entry) }
        ensures fields { IfOk result (λ p. body_fields p ≡ body_fields view.entry) }
        ensures places { IfOk result (λ p. p.places ≡ view.entry.places) }
    {
        view.copy(alloc)
    }

    /// The octets of its body.
    pub fn body(&self) -> &[u8]
        ensures value { result.now ≡ body_octets self.now }
        ensures small { IsBodySized result.now }
        ensures spelled { IsBody F.grammar (body_fields self.now) result.now }
        ensures within { F.lies self.now.places result.now }
    {
        self.view().body()
    }
}

impl<'a, F: Body + Drop> Parsed<&'a [u8], F> {
    ghost use Rattle.opgp_packet.specs.Parsed.{body_octets, body_fields};

    /// Reads a body to its end. Allocates nothing.
    ///
    /// The error is the body's first fault.
    pub fn parse_body(o: &'a [u8]) -> Result<Parsed<&'a [u8], F>, BodyFault>
        requires { IsBodySized o.now }
        // The body consists of the fields, one after the other.
        ensures found { IfOk result (λ p. IsBody F.grammar (body_fields p) o.now) }
        // Every body of such fields is read.
        ensures only { (fields : List Field) → IsBody F.grammar fields o.now
            → Reads (λ p. body_fields p) result (Ok fields) }
        // The body begins with some fields, and the next one can't be read there.
        ensures fault { IfErr result (FirstFault (length o.now) F.grammar o.now) }
        ensures exact { Reads (λ p. body_fields p) result (body_at F.grammar o.now) }
        ensures body { IfOk result (λ p. body_octets p ≡ o.now) }
    {
        Parsed::from_body(o)
    }

    /// The octets of the body.
    pub fn body(&self) -> &'a [u8]
        ensures value { result.now ≡ body_octets self.now }
        ensures small { IsBodySized result.now }
        ensures spelled { IsBody F.grammar (body_fields self.now) result.now }
        ensures within { F.lies self.now.places result.now }
    {
        self.body
    }
}
