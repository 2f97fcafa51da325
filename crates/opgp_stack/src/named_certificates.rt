//! The certificates of a keyring that have keys of some names, or the others, written as they come.

ghost use Rattle.std.specs.Prelude.{◌≡◌, ◌++◌, ◌∷◌, [], List, true, IfOk, IfSome, OnOk, map};
ghost use Rattle.opgp_codec.specs.Draft.{DraftHas};
ghost use Rattle.opgp_keyring.specs.Composed.{PartValue};
ghost use Rattle.opgp_keyring.specs.Keyring.{CertificateValue};
ghost use Rattle.opgp_keyring.specs.State.{part_of};
ghost use Rattle.opgp_stack.specs.ByKey.{HasNamed};
ghost use Rattle.opgp_stack.specs.KeyName.{missing_in, name_octets};
ghost use Rattle.opgp_stack.specs.OnePart.{certificates_in};
ghost use Rattle.opgp_stack.specs.WantedKeys.{AreNotes, keys_of};

use crate::key_name::KeyName;
use crate::part_text::{add_alone, given_back};
use crate::wanted_keys::WantedKeys;
use opgp_codec::{Draft, Out, Spool};
use opgp_keyring::Ready;
use opgp_octets::OutOfMemory;
use std::alloc::Global;

/// What is written of the certificates that came so far and have keys of some names, or of the
/// others; and which of the names a key had. No certificate is kept.
#[derive(Drop)]
pub(crate) struct NamedCertificates<'a, S> {
    out: Out,
    except: bool,
    wanted: WantedKeys<'a>,
    draft: Draft<S>,
}

impl<'a, S: Spool + Drop> NamedCertificates<'a, S> {
    /// Nothing yet, to be held in this spool, which is empty, or in memory. Fails only when out of
    /// memory.
    pub(crate) fn new(
        alloc: Global,
        spool: Option<S>,
        out: Out,
        keys: &'a [KeyName],
        except: bool,
    ) -> Result<NamedCertificates<'a, S>, OutOfMemory>
        requires empty { IfSome spool (λ s. (S.serves ≡ true) × (S.tells ≡ true → S.holds s ≡ [])) }
        ensures out { IfOk result (λ k. k.out ≡ out) }
        ensures except { IfOk result (λ k. k.except ≡ except) }
        ensures names { IfOk result (λ k. k.wanted.names ≡ keys.entry) }
        ensures named { IfOk result (λ k. HasNamed (DraftHas S.serves S.tells S.holds S.has_failed)
            out (map name_octets keys.entry.now) except k.wanted.notes k.draft []) }
    {
        let draft = Draft::new(alloc, spool)?;
        let wanted = WantedKeys::new(alloc, keys)?;
        Ok(NamedCertificates {
            out,
            except,
            wanted,
            draft,
        })
    }

    /// Adds the next part, if it is a certificate that is to be written, and gives back a part
    /// whose memory the next one may use. Fails only when out of memory; nothing is known of what
    /// is written then.
    pub(crate) fn keep(&mut self, part: Ready) -> Result<Option<Ready>, OutOfMemory>
        ensures out { self.new.out ≡ self.old.out }
        ensures except { self.new.except ≡ self.old.except }
        ensures names { self.new.wanted.names ≡ self.old.wanted.names }
        ensures named { OnOk result ((parts : List PartValue)
            → HasNamed (DraftHas S.serves S.tells S.holds S.has_failed) self.old.out
            (map name_octets self.old.wanted.names.now) self.old.except self.old.wanted.notes
            self.old.draft (certificates_in parts)
            → HasNamed (DraftHas S.serves S.tells S.holds S.has_failed) self.old.out
            (map name_octets self.old.wanted.names.now) self.old.except self.new.wanted.notes
            self.new.draft (certificates_in (parts ++ part_of part ∷ []))) }
    {
        let Some(certificate) = part.certificate() else {
            return Ok(None);
        };
        let has = self.wanted.note(&certificate);
        if has == self.except {
            return Ok(Some(Ready::Certificate(certificate)));
        }
        let added = add_alone(&mut self.draft, self.out, &certificate);
        given_back(added, Ready::Certificate(certificate))
    }

    /// What is written, and the number of the first of the names that isn't that of a key that came,
    /// if one isn't.
    pub(crate) fn found(self) -> (Draft<S>, Option<usize>)
        ensures draft { result.0 ≡ self.entry.draft }
        ensures found { (cs : List CertificateValue)
            → AreNotes (map name_octets self.entry.wanted.names.now) (keys_of cs)
            self.entry.wanted.notes
            → result.1 ≡ missing_in (map name_octets self.entry.wanted.names.now) cs }
    {
        let missing = self.wanted.missing();
        (self.draft, missing)
    }
}
