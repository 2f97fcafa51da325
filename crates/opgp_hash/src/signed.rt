//! The fields of a signature that it hashes.

ghost use Rattle.std.specs.Prelude.{◌≡◌, ◌≤◌, length, true};
ghost use Rattle.opgp_hash.specs.QuestionValue.{is_version, is_hash, salt_amount, area_most};

/// The fields of a version 4 or 6 signature that it hashes.
#[derive(Clone, Copy)]
pub(crate) struct Signed<'a> {
    pub(crate) version: u8,
    pub(crate) salt: &'a [u8],
    pub(crate) kind: u8,
    pub(crate) algorithm: u8,
    pub(crate) hash: u8,
    pub(crate) area: &'a [u8],
    ghost version_known: { is_version version ≡ true },
    ghost salt_size: { is_hash version hash ≡ true → length salt.now ≡ salt_amount version hash },
    ghost room: { length area.now ≤ area_most version },
}
