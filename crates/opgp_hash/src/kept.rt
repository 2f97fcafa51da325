//! Hasher states that are kept between digests.

ghost use Rattle.std.specs.Prelude.{◌≡◌, [], None};
ghost use Rattle.std.specs.Option.{ForSome};
ghost use Rattle.opgp_hash.specs.Part.{part_octets};

use crate::digesting::feed;
use crate::part::Part;
use crate::parts::Parts;
use sha2::Digest;

/// The states of one hash algorithm's hasher: after a primary key, and after a subject that begins
/// with that key. A state is made when the first digest needs it.
#[derive(Drop)]
pub(crate) struct Kept<D> {
    key: Option<D>,
    subject: Option<D>,
}

impl<D: Digest + Clone> Kept<D> {
    ghost use Rattle.opgp_hash.specs.Kept.{Keeps};
    ghost use Rattle.opgp_hash.specs.Parts.{parts_octets, subject_octets};

    /// No state is kept yet.
    pub(crate) fn new() -> Kept<D>
        ensures { result ≡ record { key = None; subject = None } }
    {
        Kept {
            key: None,
            subject: None,
        }
    }

    /// Drops the state of the subject, since another one becomes current.
    pub(crate) fn forget_subject(&mut self)
        ensures { self.new ≡ record self.old { subject = None } }
    {
        self.subject = None;
    }

    /// The digest of parts that begin with the subject.
    pub(crate) fn digest(&mut self, parts: &Parts<'_>) -> D::Output
        requires copies { (h c : D) → D.is_clone h c → c ≡ h }
        requires unsalted { part_octets parts.now.salt ≡ [] }
        requires keeps { Keeps D.holds self.old
            (part_octets parts.now.first) (subject_octets parts.now) }
        ensures keeps { Keeps D.holds self.new
            (part_octets parts.now.first) (subject_octets parts.now) }
        ensures value { D.digest_of (parts_octets parts.now) result }
    {
        let mut hasher = self.subject_hasher(parts);
        feed(&parts.front, &mut hasher);
        feed(&parts.trailer, &mut hasher);
        hasher.finalize()
    }

    /// A hasher that has taken the subject: a copy of the state that is kept, or a new one, of
    /// which a copy is kept. If a copy can't be made, the subject is hashed again.
    fn subject_hasher(&mut self, parts: &Parts<'_>) -> D
        requires copies { (h c : D) → D.is_clone h c → c ≡ h }
        requires keeps { Keeps D.holds self.old
            (part_octets parts.now.first) (subject_octets parts.now) }
        ensures keeps { Keeps D.holds self.new
            (part_octets parts.now.first) (subject_octets parts.now) }
        ensures value { D.holds result (subject_octets parts.now) }
    {
        if let Some(kept) = &self.subject {
            if let Ok(copy) = kept.clone() {
                return copy;
            }
        }
        let mut hasher = key_hasher(&mut self.key, &parts.first);
        feed(&parts.second, &mut hasher);
        if let Ok(copy) = hasher.clone() {
            self.subject = Some(copy);
        }
        hasher
    }
}

/// A hasher that has taken the key: a copy of the state that is kept, or a new one, of which a copy
/// is kept. If a copy can't be made, the key is hashed again.
fn key_hasher<D: Digest + Clone>(kept: &mut Option<D>, key: &Part<'_>) -> D
    requires copies { (h c : D) → D.is_clone h c → c ≡ h }
    requires keeps { ForSome kept.old (λ h. D.holds h (part_octets key.now)) }
    ensures keeps { ForSome kept.new (λ h. D.holds h (part_octets key.now)) }
    ensures value { D.holds result (part_octets key.now) }
{
    if let Some(hasher) = kept {
        if let Ok(copy) = hasher.clone() {
            return copy;
        }
    }
    let mut hasher = D::new();
    feed(key, &mut hasher);
    if let Ok(copy) = hasher.clone() {
        *kept = Some(copy);
    }
    hasher
}
