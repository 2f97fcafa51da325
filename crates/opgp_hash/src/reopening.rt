//! Reading hashed octets back as the question that they belong to.

ghost use Rattle.std.specs.Prelude.{◌≡◌, ◌≢◌, ◌+◌, ◌≤◌, ℕ, length, true, Some, IfSome, IfNone};
ghost use Rattle.opgp_octets.specs.Octets.{IsBodySized};
ghost use Rattle.opgp_packet.specs.Parsed.{body_octets};
ghost use Rattle.opgp_hash.specs.Hashed.{hashed};
ghost use Rattle.opgp_hash.specs.Opened.{front_seen, trailer_seen};
ghost use Rattle.opgp_hash.specs.Question.{question_value};
ghost use Rattle.opgp_hash.specs.QuestionValue.{QuestionValue, IsQuestion, is_version, is_hash};
ghost use Rattle.opgp_hash.specs.QuestionValue.{salt_amount, area_most};
ghost use Rattle.opgp_hash.specs.Reading.{Gives, front_at, end_at};
ghost use Rattle.opgp_hash.specs.Reopening.{behind, length_at, key_at, all_at, area_at, content_at};
ghost use Rattle.opgp_hash.specs.Reopening.{one_at, two_at, named_at, subject_at, trailer_at};
ghost use Rattle.opgp_hash.specs.Reopening.{fields_at, question_at};
ghost use Rattle.opgp_hash.specs.Subject.{subject_value};
ghost use Rattle.opgp_hash.specs.SubjectValue.{is_certification, is_on_key, is_on_subkey, is_about};
ghost use Rattle.opgp_hash.specs.SubjectValue.{are_keys_of, is_within, version_of};

use crate::kinds::{is_certification, is_hash, is_on_content, is_on_key, is_on_subkey};
use crate::question::Question;
use crate::subject::Subject;
use opgp_octets::{HashAlgorithm, u16_at, u32_at};
use opgp_packet::{AttributeView, KeyView};

/// The fields in the hashed part of a signature.
#[derive(Clone, Copy)]
struct Front<'a> {
    kind: u8,
    algorithm: u8,
    hash: u8,
    area: &'a [u8],
}

/// The fields of the trailer: the version, and the length of the signature's hashed part.
#[derive(Clone, Copy)]
struct Trailer {
    version: u8,
    count: u32,
}

/// The question that has these hashed octets, if one has. Allocates nothing.
pub fn reopen(o: &[u8]) -> Option<Question<'_>>
    // The octets are the hashed octets of the question.
    ensures found { IfSome result (λ q.
        IsQuestion (question_value q) × (hashed (question_value q) ≡ o.now)) }
    // A question that has these octets is the one that is returned.
    ensures only { (q : QuestionValue) → IsQuestion q → hashed q ≡ o.now
        → Gives question_value result (Some q) }
    // None is returned only if no question has these octets.
    ensures none { IfNone result ((q : QuestionValue) → IsQuestion q → hashed q ≡ o.now → ⊥) }
    ensures exact { Gives question_value result (question_at o.now) }
{
    opgp_packet::field_laws::fields_are_read();
    read(o)
}

#[tactic(auto, unfolding(crate::specs::Reopening::question_at))]
fn read(o: &[u8]) -> Option<Question<'_>>
    ensures exact { Gives question_value result (question_at o.now) }
{
    let (before, trailer) = end(o, 6)?;
    let trailer = read_trailer(trailer)?;
    let (before, front) = end(before, trailer.count as usize)?;
    let front = read_front(trailer.version, front)?;
    let (salt, before) = split(before, salt_len(trailer.version, front.hash))?;
    let subject = read_subject(trailer.version, front.kind, before)?;
    Some(Question {
        version: trailer.version,
        salt,
        subject,
        kind: front.kind,
        algorithm: front.algorithm,
        hash: front.hash,
        area: front.area,
    })
}

/// The first `n` octets, and the others.
#[tactic(auto, unfolding(crate::specs::Reading::front_at))]
fn split(o: &[u8], n: usize) -> Option<(&[u8], &[u8])>
    ensures exact { Gives (λ x. (x.0.now, x.1.now)) result (front_at n o.now) }
    ensures size { IfSome result (λ x. length x.0.now ≡ n) }
{
    if o.len() < n {
        return None;
    }
    Some(o.split_at(n))
}

/// The octets before the last `n` ones, and those.
#[tactic(auto, unfolding(crate::specs::Reading::end_at))]
fn end(o: &[u8], n: usize) -> Option<(&[u8], &[u8])>
    ensures exact { Gives (λ x. (x.0.now, x.1.now)) result (end_at n o.now) }
    ensures size { IfSome result (λ x. length x.1.now ≡ n) }
{
    if o.len() < n {
        return None;
    }
    Some(o.split_at(o.len() - n))
}

/// The trailer, from its six octets.
#[tactic(auto, unfolding(crate::specs::Reopening::trailer_at))]
fn read_trailer(o: &[u8]) -> Option<Trailer>
    requires { length o.now ≡ 6 }
    ensures exact { Gives trailer_seen result (trailer_at o.now) }
    ensures version { IfSome result (λ t. is_version t.version ≡ true) }
{
    match o {
        [version, 0xFF, a, b, c, d] if *version == 4 || *version == 6 => Some(Trailer {
            version: *version,
            count: u32::from_be_bytes([*a, *b, *c, *d]),
        }),
        _ => None,
    }
}

/// The hashed part of a signature of this version.
#[tactic(auto, unfolding(crate::specs::Reopening::fields_at))]
fn read_front(version: u8, o: &[u8]) -> Option<Front<'_>>
    requires { length o.now ≤ 4294967295 }
    ensures exact { Gives front_seen result (fields_at version o.now) }
    ensures hash { IfSome result (λ f. is_hash version f.hash ≡ true) }
    ensures room { IfSome result (λ f. length f.area.now ≤ area_most version) }
{
    match o {
        [first, kind, algorithm, hash, rest @ ..] => {
            if *first != version || !is_hash(version, *hash) {
                return None;
            }
            let area = read_area(version, rest)?;
            Some(Front {
                kind: *kind,
                algorithm: *algorithm,
                hash: *hash,
                area,
            })
        }
        _ => None,
    }
}

/// A length of two octets in version 4 and of four in version 6, and what follows it.
fn read_length(version: u8, o: &[u8]) -> Option<(usize, &[u8])>
    ensures exact { Gives (λ x. (x.0, x.1.now)) result (length_at version o.now) }
    ensures most { IfSome result (λ x. x.0 ≤ 4294967295) }
    ensures short { IfSome result (λ x. version ≡ 4 → x.0 ≤ 65535) }
    ensures size { IfSome result (λ x. length x.1.now + 2 ≤ length o.now) }
    ensures less { IfSome result (λ x. version ≢ 4 → length x.1.now + 4 ≤ length o.now) }
{
    if version == 4 {
        let (n, rest) = u16_at(o)?;
        Some((usize::from(n), rest))
    } else {
        let (n, rest) = u32_at(o)?;
        Some((n as usize, rest))
    }
}

/// The hashed area after its length; None if anything follows it.
fn read_area(version: u8, o: &[u8]) -> Option<&[u8]>
    requires { length o.now + 4 ≤ 4294967295 }
    ensures exact { Gives (λ x. x.now) result (area_at version o.now) }
    ensures room { IfSome result (λ x. length x.now ≤ area_most version) }
{
    let (n, rest) = read_length(version, o)?;
    if n == rest.len() { Some(rest) } else { None }
}

/// How many octets of salt a signature of this version has under this hash algorithm.
fn salt_len(version: u8, hash: u8) -> usize
    ensures { result ≡ salt_amount version hash }
{
    if version == 4 {
        return 0;
    }
    usize::from(HashAlgorithm::from(hash).salt_size().unwrap_or(0))
}

/// What follows this octet, if the octets begin with it.
fn after(o: &[u8], tag: u8) -> Option<&[u8]>
    ensures exact { Gives (λ x. x.now) result (behind tag o.now) }
{
    match o {
        [first, rest @ ..] if *first == tag => Some(rest),
        _ => None,
    }
}

/// A key of this version, and what follows it.
#[tactic(auto, unfolding(crate::specs::Reopening::key_at))]
fn read_key(version: u8, o: &[u8]) -> Option<(KeyView<'_>, &[u8])>
    ensures exact { Gives (λ x. (body_octets x.0, x.1.now)) result (key_at version o.now) }
    ensures version { IfSome result (λ x. version_of (body_octets x.0) ≡ version) }
{
    let tag = if version == 4 { 0x99 } else { 0x9B };
    let rest = after(o, tag)?;
    let (n, rest) = read_length(version, rest)?;
    let (body, rest) = split(rest, n)?;
    match KeyView::parse_body(body) {
        Ok(key) => {
            if key.version() == version {
                Some((key, rest))
            } else {
                None
            }
        }
        Err(_) => None,
    }
}

/// As many octets as a length of four octets says; None if anything follows them.
fn read_all(o: &[u8]) -> Option<&[u8]>
    ensures exact { Gives (λ x. x.now) result (all_at o.now) }
    ensures size { IfSome result (λ x. IsBodySized x.now) }
{
    let (n, rest) = u32_at(o)?;
    if n as usize == rest.len() {
        Some(rest)
    } else {
        None
    }
}

/// A document's octets, as they are.
fn read_content(o: &[u8]) -> Option<Subject<'_>>
    ensures exact { Gives subject_value result (content_at o.now) }
    ensures about { IfSome result (λ s. is_about 0 (subject_value s) ≡ true) }
    ensures keys { IfSome result (λ s. (v : ℕ) → are_keys_of v (subject_value s) ≡ true) }
    ensures within { IfSome result (λ s. is_within (subject_value s) ≡ true) }
{
    if o.len() <= 1 << 56 {
        Some(Subject::Binary(o))
    } else {
        None
    }
}

/// One key; None if anything follows it.
fn read_one(version: u8, o: &[u8]) -> Option<Subject<'_>>
    ensures exact { Gives subject_value result (one_at version o.now) }
    ensures about { IfSome result (λ s. (k : ℕ) → is_on_key k ≡ true
        → is_about k (subject_value s) ≡ true) }
    ensures keys { IfSome result (λ s. are_keys_of version (subject_value s) ≡ true) }
    ensures within { IfSome result (λ s. is_within (subject_value s) ≡ true) }
{
    let (key, rest) = read_key(version, o)?;
    if rest.len() == 0 {
        Some(Subject::One(key))
    } else {
        None
    }
}

/// Two keys; None if anything follows them.
fn read_two(version: u8, o: &[u8]) -> Option<Subject<'_>>
    ensures exact { Gives subject_value result (two_at version o.now) }
    ensures about { IfSome result (λ s. (k : ℕ) → is_on_subkey k ≡ true
        → is_about k (subject_value s) ≡ true) }
    ensures keys { IfSome result (λ s. are_keys_of version (subject_value s) ≡ true) }
    ensures within { IfSome result (λ s. is_within (subject_value s) ≡ true) }
{
    let (primary, rest) = read_key(version, o)?;
    let (subkey, rest) = read_key(version, rest)?;
    if rest.len() == 0 {
        Some(Subject::Two(primary, subkey))
    } else {
        None
    }
}

/// A user ID or an attribute of this key; None if anything follows it.
fn read_named<'a>(version: u8, primary: KeyView<'a>, o: &'a [u8]) -> Option<Subject<'a>>
    requires { version_of (body_octets primary) ≡ version }
    ensures exact { Gives subject_value result (named_at (body_octets primary.entry) o.now) }
    ensures about { IfSome result (λ s. (k : ℕ) → is_certification k ≡ true
        → is_about k (subject_value s) ≡ true) }
    ensures keys { IfSome result (λ s. are_keys_of version (subject_value s) ≡ true) }
    ensures within { IfSome result (λ s. is_within (subject_value s) ≡ true) }
{
    match o {
        [0xB4, rest @ ..] => {
            let id = read_all(rest)?;
            Some(Subject::OnUserId(primary, id))
        }
        [0xD1, rest @ ..] => {
            let body = read_all(rest)?;
            match AttributeView::parse_body(body) {
                Ok(attribute) => Some(Subject::OnAttribute(primary, attribute)),
                Err(_) => None,
            }
        }
        _ => None,
    }
}

/// The subject that signatures of this version and type are made over.
#[tactic(auto, unfolding(crate::specs::Reopening::subject_at))]
fn read_subject(version: u8, kind: u8, o: &[u8]) -> Option<Subject<'_>>
    ensures exact { Gives subject_value result (subject_at version kind o.now) }
    ensures about { IfSome result (λ s. is_about kind (subject_value s) ≡ true) }
    ensures keys { IfSome result (λ s. are_keys_of version (subject_value s) ≡ true) }
    ensures within { IfSome result (λ s. is_within (subject_value s) ≡ true) }
{
    if is_on_content(kind) {
        read_content(o)
    } else if is_on_key(kind) {
        read_one(version, o)
    } else if is_on_subkey(kind) {
        read_two(version, o)
    } else if is_certification(kind) {
        let (primary, rest) = read_key(version, o)?;
        read_named(version, primary, rest)
    } else {
        None
    }
}
