//! What a signature hashes of itself (RFC 9580, 5.2.4).

ghost use Rattle.std.specs.Prelude.{◌≡◌, ◌≤◌, ◌++◌, ℕ, List, length, true};
ghost use Rattle.std.specs.Prelude.{IfSome, IfNone, IfOk, Some, None};
ghost use Rattle.opgp_hash.specs.QuestionValue.{area_most, is_version};
ghost use Rattle.opgp_hash.specs.SignedValue.{signed_of};
ghost use Rattle.opgp_packet.specs.SigView.{sig_view_value};

use opgp_octets::{HashAlgorithm, OutOfMemory, put};
use opgp_packet::SigView;
use std::alloc::Global;

/// What a version 4 or 6 signature hashes of itself (RFC 9580, 5.2.4): in version 6 its salt, in
/// front of what it is made over; and behind that its own fields and the trailer.
#[derive(Clone, Copy)]
pub struct OwnOctets<'a> {
    version: u8,
    salt: &'a [u8],
    kind: u8,
    algorithm: u8,
    hash: u8,
    area: &'a [u8],
    ghost version_known: { is_version version ≡ true },
    ghost room: { length area.now ≤ area_most version },
}

/// The fields of a signature before its hashed area, and the area's length: six octets in version
/// 4, eight in version 6 (RFC 9580, 5.2.3).
#[derive(Clone, Copy)]
enum Head {
    Six([u8; 6]),
    Eight([u8; 8]),
}

impl Head {
    ghost use Rattle.opgp_document.specs.OwnOctets.{head_octets};

    fn octets(&self) -> &[u8]
        ensures value { result.now ≡ head_octets self.now }
        ensures few { length result.now ≤ 8 }
    {
        match self {
            Head::Six(octets) => octets,
            Head::Eight(octets) => octets,
        }
    }
}

impl<'a> OwnOctets<'a> {
    ghost use Rattle.opgp_hash.specs.Hashed.{trailer_hashed};
    ghost use Rattle.opgp_hash.specs.QuestionValue.{is_hash};
    ghost use Rattle.opgp_hash.specs.SignedValue.{signed_front};
    ghost use Rattle.opgp_document.specs.OwnOctets.{closing, head_octets, own_value};

    /// Those of a signature; None for a signature of another version.
    pub fn of(signature: SigView<'a>) -> Option<OwnOctets<'a>>
        ensures some { IfSome result (λ o.
            signed_of (sig_view_value signature.entry) ≡ Some (own_value o)) }
        ensures none { IfNone result (signed_of (sig_view_value signature.entry) ≡ None) }
    {
        let body = signature.body();
        match signature {
            SigView::Four(view) => {
                let area = view.hashed_area();
                Some(OwnOctets {
                    version: 4,
                    salt: &body[..0],
                    kind: view.kind(),
                    algorithm: view.algorithm(),
                    hash: view.hash(),
                    area,
                })
            }
            SigView::Six(view) => {
                let area = view.hashed_area();
                let salt = view.salt();
                Some(OwnOctets {
                    version: 6,
                    salt,
                    kind: view.kind(),
                    algorithm: view.algorithm(),
                    hash: view.hash(),
                    area,
                })
            }
            SigView::Three(_) | SigView::Other(_) => None,
        }
    }

    /// The signature's version: 4 or 6.
    pub fn version(&self) -> u8
        ensures { result ≡ (own_value self.now).version }
    {
        self.version
    }

    /// The signature's type (RFC 9580, 5.2.1).
    pub fn kind(&self) -> u8
        ensures { result ≡ (own_value self.now).kind }
    {
        self.kind
    }

    /// The number of the signature's hash algorithm (RFC 9580, 9.5).
    pub fn hash(&self) -> u8
        ensures { result ≡ (own_value self.now).hash }
    {
        self.hash
    }

    /// Whether digests by that algorithm are supported, in the signature's version: those of SHA-2,
    /// and in version 4 SHA-1.
    #[tactic(auto, unfolding(opgp_octets::specs::HashAlgorithm::hash_algorithm_of))]
    pub fn has_digest(&self) -> bool
        ensures { result ≡ is_hash (own_value self.now).version (own_value self.now).hash }
    {
        match HashAlgorithm::from(self.hash) {
            HashAlgorithm::Sha256
            | HashAlgorithm::Sha384
            | HashAlgorithm::Sha512
            | HashAlgorithm::Sha224 => true,
            HashAlgorithm::Sha1 => self.version == 4,
            _ => false,
        }
    }

    /// The salt (RFC 9580, 5.2.3); version 4 has none.
    pub fn salt(&self) -> &'a [u8]
        ensures { result.now ≡ (own_value self.now).salt }
    {
        self.salt
    }

    /// Feeds the hasher what is hashed behind what the signature is made over: its fields up to the
    /// end of the hashed area, and the trailer.
    pub fn close<D: sha2::Digest>(&self, hasher: &mut D)
        ensures { (m : List ℕ) → D.holds hasher.old m
            → D.holds hasher.new (m ++ closing (own_value self.now)) }
    {
        let head = self.head();
        let trailer = self.trailer();
        hasher.update(head.octets());
        hasher.update(self.area);
        hasher.update(trailer.as_slice());
    }

    /// The octets that are hashed behind what the signature is made over, for callers who hash
    /// elsewhere: its fields up to the end of the hashed area, and the trailer. In front comes
    /// [`OwnOctets::salt`].
    ///
    /// Fails only when out of memory.
    pub fn behind(&self, alloc: Global) -> Result<Vec<u8>, OutOfMemory>
        ensures { IfOk result (λ octets. octets.items ≡ closing (own_value self.now)) }
    {
        let head = self.head();
        let trailer = self.trailer();
        let count = head.octets().len() + self.area.len() + trailer.len();
        let mut octets = Vec::with_capacity(alloc, count)?;
        put(head.octets(), &mut octets);
        put(self.area, &mut octets);
        put(&trailer, &mut octets);
        Ok(octets)
    }

    /// What stands before the hashed area.
    fn head(&self) -> Head
        ensures { head_octets result ++ self.now.area.now ≡ signed_front (own_value self.now) }
    {
        let (version, kind) = (self.version, self.kind);
        let (algorithm, hash) = (self.algorithm, self.hash);
        if version == 4 {
            let [a, b] = (self.area.len() as u16).to_be_bytes();
            Head::Six([version, kind, algorithm, hash, a, b])
        } else {
            let [a, b, c, d] = (self.area.len() as u32).to_be_bytes();
            Head::Eight([version, kind, algorithm, hash, a, b, c, d])
        }
    }

    /// The trailer, with the length of what is hashed of the signature's body.
    fn trailer(&self) -> [u8; 6]
        ensures { result ≡ trailer_hashed (own_value self.now).version
            (length (signed_front (own_value self.now))) }
    {
        let head = if self.version == 4 { 6 } else { 8 };
        let [a, b, c, d] = (head + self.area.len() as u32).to_be_bytes();
        [self.version, 0xFF, a, b, c, d]
    }
}
