//! The octets that come from a source, a piece after the other.

ghost use Rattle.std.specs.Prelude.{◌≡◌, ◌<◌, ◌≤◌, ◌+◌, ◌^◌, ◌++◌, [], ℕ, List, Option, length, Ok};
ghost use Rattle.std.specs.Prelude.{true, false, Err, IfOk, OnErr, OnOk, MatchResult};
ghost use Rattle.opgp_octets.specs.Limits.{input_limit};
ghost use Rattle.opgp_octets.specs.declared.fault.Fault.{Fault};
ghost use Rattle.opgp_octets.specs.declared.limits.Limits.{Limits};
ghost use Rattle.opgp_codec.specs.Pulled.{Pulls};
ghost use Rattle.opgp_codec.specs.Reading.{too_long};
ghost use Rattle.opgp_codec.specs.declared.read_error.ReadError.TheVariants as read;

use crate::incoming::pull_some;
use crate::read_error::ReadError;
use opgp_io::Source;
use opgp_octets::{Fault, Layer, Limits, OutOfMemory, Reason};
use std::alloc::Global;

/// The greatest number of octets read at a time.
const PIECE: usize = 65_536;

/// Reads a source as it is, a piece after the other, up to its end or one octet past the limit
/// `input`:
///
/// ```text
/// while incoming.next(source)? {
///     .. incoming.piece() ..
/// }
/// incoming.finish()?;
/// ```
///
/// Nothing is kept but the last piece, of at most 65,536 octets.
#[derive(Drop)]
pub struct IncomingOctets {
    piece: Vec<u8>,
    filled: usize,
    count: u64,
    limit: u64,
    ghost small: { limit < 2 ^ 63 },
    ghost some: { length piece.items ≡ 65536 },
    ghost within: { filled ≤ length piece.items },
    ghost counted: { count ≤ limit + 1 },
}

impl IncomingOctets {
    ghost use Rattle.opgp_codec.specs.IncomingOctets.{HasNoMore, OctetsCame, octets_left, piece_of};

    /// A reader to which nothing has come. Fails only when out of memory.
    pub fn new(alloc: Global, limits: &Limits) -> Result<IncomingOctets, OutOfMemory>
        ensures { IfOk result (λ r. (before : Option (List ℕ))
            → OctetsCame limits.now before before r []) }
    {
        let piece = vec![in alloc; 0; PIECE]?;
        Ok(IncomingOctets {
            piece,
            filled: 0,
            count: 0,
            limit: limits.input(),
        })
    }

    /// Reads the next piece, which `piece` lends. False: there is none, since the source has ended,
    /// or one octet past the limit `input` has come. The condition is that the source hasn't
    /// failed.
    ///
    /// Each read but the last brings at least one octet, and none is made past the limit.
    ///
    /// The error is `Read`: the source has failed. Nothing is known of the reader then.
    pub fn next<R: Source>(&mut self, source: &mut R) -> Result<bool, ReadError>
        requires { R.has_failed source.old ≡ false }
        ensures came { OnOk result ((limits : Limits) (before : Option (List ℕ)) (octets : List ℕ)
            → OctetsCame limits before (R.left source.old) self.old octets
            → OctetsCame limits before (R.left source.new) self.new
            (octets ++ piece_of self.new)) }
        ensures none { result ≡ Ok false → piece_of self.new ≡ [] }
        ensures ended { result ≡ Ok false → HasNoMore self.new (R.left source.new) }
        ensures lessens { result ≡ Ok true → octets_left self.new < octets_left self.old }
        ensures brings { result ≡ Ok true → self.old.count < self.new.count }
        ensures past { self.old.limit < self.old.count
            → (result ≡ Ok false) × (source.new ≡ source.old) }
        ensures sound { OnOk result (R.has_failed source.new ≡ false) }
        ensures read { (e : ReadError) → result ≡ Err e
            → (e ≡ read.Read) × (R.has_failed source.new ≡ true) }
    {
        self.filled = 0;
        if self.count > self.limit {
            return Ok(false);
        }
        source.note(0, 0);
        let most = self.limit + 1 - self.count;
        let n = match pull_some(source, self.piece.as_mut_slice(), most) {
            Ok(n) => n,
            Err(_) => return Err(ReadError::Read),
        };
        self.filled = n;
        self.count += n as u64;
        Ok(n > 0)
    }

    /// The piece that was read last.
    pub fn piece(&self) -> &[u8]
        ensures { result.now ≡ piece_of self.now }
    {
        &self.piece[..self.filled]
    }

    /// Ends the input. The condition is that `next` has returned false.
    ///
    /// The error is the fault of an input that is longer than the limit.
    pub fn finish(self) -> Result<(), Fault>
        ensures { (limits : Limits) (before now : Option (List ℕ)) (octets : List ℕ)
            → OctetsCame limits before now self octets → HasNoMore self now
            → Pulls before now (input_limit limits) octets
            × MatchResult result (λ _. length octets ≤ input_limit limits)
            (λ fault. (fault ≡ too_long limits) × (input_limit limits < length octets)) }
    {
        let IncomingOctets {
            piece: _,
            filled: _,
            count,
            limit,
        } = self;
        if count <= limit {
            return Ok(());
        }
        Err(Fault {
            layer: Layer::Input,
            reason: Reason::InputTooLong,
            block: 0,
            pos: limit,
            inner: 0,
        })
    }
}
