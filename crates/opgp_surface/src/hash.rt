//! The surface of `opgp_hash`.

ghost use Rattle.std.specs.Prelude.{◌≡◌, true};
ghost use Rattle.opgp_hash.specs.Subject.{subject_value};
ghost use Rattle.opgp_hash.specs.SubjectValue.{is_within};

use opgp_hash::{
    Digest, Fingerprint, KeyId, Question, Subject, Why, ask, digest, fingerprint, key_id, reopen,
    write_octets,
};
use opgp_key::{AttributeView, Key, KeyView};
use opgp_octets::OutOfMemory;
use opgp_sig::Signature;

fn names(key: &Key) -> (Fingerprint, KeyId) {
    (fingerprint(key), key_id(key))
}

fn version_of(fingerprint: Fingerprint) -> u8 {
    match fingerprint {
        Fingerprint::Four(_) => 4,
        Fingerprint::Six(_) => 6,
    }
}

fn first_of(id: KeyId) -> u8 {
    let KeyId(octets) = id;
    octets[0]
}

fn subjects<'a>(
    octets: &'a [u8],
    key: KeyView<'a>,
    attribute: AttributeView<'a>,
) -> [Subject<'a>; 5] {
    [
        Subject::Binary(octets),
        Subject::One(key),
        Subject::Two(key, key),
        Subject::OnUserId(key, octets),
        Subject::OnAttribute(key, attribute),
    ]
}

fn number_of(why: Why) -> u8 {
    match why {
        Why::Opaque => 0,
        Why::Kind => 1,
        Why::Misplaced => 2,
        Why::Version => 3,
        Why::Hash => 4,
    }
}

fn question<'a>(signature: &'a Signature, subject: Subject<'a>) -> Result<Question<'a>, Why>
    requires { is_within (subject_value subject) ≡ true }
{
    ask(signature, subject)
}

fn of_question<'a>(question: &Question<'a>) -> (u8, &'a [u8], u8, u8, u8, &'a [u8]) {
    (
        question.version(),
        question.salt(),
        question.kind(),
        question.algorithm(),
        question.hash(),
        question.hashed_area(),
    )
}

fn subject_of<'a>(question: &Question<'a>) -> Subject<'a> {
    question.subject()
}

fn hashed(question: &Question<'_>, out: &mut Vec<u8>) -> Result<(), OutOfMemory> {
    write_octets(question, out)
}

fn digest_of(question: &Question<'_>) -> Digest {
    digest(question)
}

fn size_of(digest: Digest) -> usize {
    match digest {
        Digest::Sha1(octets) => octets.len(),
        Digest::Sha256(octets) => octets.len(),
        Digest::Sha384(octets) => octets.len(),
        Digest::Sha512(octets) => octets.len(),
        Digest::Sha224(octets) => octets.len(),
    }
}

fn reopened(o: &[u8]) -> Option<Question<'_>> {
    reopen(o)
}
