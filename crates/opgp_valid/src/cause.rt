//! What makes a key not believed.

ghost use Rattle.std.specs.Prelude.{◌≡◌, ◌+◌, find, if◌then◌else◌, None, Some};
ghost use Rattle.std.specs.Option.{option_map};
ghost use Rattle.opgp_valid.specs.Cause.{cause_by, cause_of, cause_with, early_by, early_key};
ghost use Rattle.opgp_valid.specs.Cause.{ends_it, expired_at, expired_by, expired_key, has_lack};
ghost use Rattle.opgp_valid.specs.Cause.{is_doubted, is_end, is_lacking, is_newer, is_sound};
ghost use Rattle.opgp_valid.specs.Cause.{is_that, lack_date, lack_of, lacking_by, lacks, lapse_of};
ghost use Rattle.opgp_valid.specs.Cause.{may_be_heard, may_speak, only_now, revoked_by};
ghost use Rattle.opgp_valid.specs.Cause.{revoked_key, spot_of, unbound_at, unbound_key};
ghost use Rattle.opgp_valid.specs.Facts.{facts_value};
ghost use Rattle.opgp_valid.specs.Speaking.{made_at};
ghost use Rattle.opgp_valid.specs.Standing.{revokes};
ghost use Rattle.opgp_valid.specs.declared.why.Why.TheVariants as whys;

use crate::doubt::{Doubt, Lack};
use crate::facts::{Facts, Key};
use crate::group::Sort;
use crate::judging::{created_of, revokes, standing};
use crate::moment::{has_ended, key_at, own_saying, primary_saying};
use crate::statement::{Author, Life, Statement};
use crate::why::Why;
use opgp_octets::SignatureType;

/// Where a signature is in its certificate.
#[derive(Clone, Copy, Debug, PartialEq, Eq)]
pub struct Spot {
    /// The number of the component that it is on; None for the primary key.
    pub component: Option<usize>,
    /// Its number among all packets that follow the key or component, fillers included.
    pub hang: usize,
}

/// What makes a key not believed.
#[derive(Clone, Copy, Debug, PartialEq, Eq)]
pub struct Cause {
    /// The first reason that applies.
    pub why: Why,
    /// Of which key it holds: of the key itself, or of its primary key.
    pub key: Key,
    /// It holds now, and didn't when the signature over the document was made. Of a revocation, a
    /// signature of the future and an early one it is false.
    pub is_now: bool,
    /// What the first signature lacks that could speak for the key, where it is unbound; None if
    /// there is no such signature.
    pub lack: Option<Lack>,
    /// In seconds since 1970: when the signature over the document was made, if that is later than
    /// now; when the revocation was; when the key was created that is younger; when the key
    /// expired; until when the signature at the spot counted, if it has lapsed, or else when it was
    /// made.
    pub date: Option<u64>,
    /// The signature that says so, if one does.
    pub spot: Option<Spot>,
}

/// Where a signature is.
pub(crate) fn spot_of(statement: &Statement) -> Spot
    ensures { result ≡ spot_of statement.now }
{
    Spot {
        component: statement.component,
        hang: statement.hang,
    }
}

/// When a signature was made, if it states one time.
pub(crate) fn made_of(statement: &Statement) -> Option<u64>
    ensures { result ≡ made_at statement.now }
{
    match statement.life {
        Some(life) => Some(u64::from(life.made)),
        None => None,
    }
}

/// When a life ends that isn't for ever, in seconds since 1970.
fn end_of_life(life: Life) -> u64
    ensures { result ≡ life.made + life.lasts }
{
    u64::from(life.made) + u64::from(life.lasts)
}

/// Until when a signature counts that expires.
fn lapse_of(statement: &Statement) -> Option<u64>
    ensures { result ≡ lapse_of statement.now }
{
    match statement.life {
        Some(life) => Some(end_of_life(life)),
        None => None,
    }
}

/// Whether a signature is by the primary key, and of a kind that speaks for a key.
fn may_speak(facts: Facts<'_>, key: Key, statement: &Statement) -> bool
    ensures { result ≡ may_speak (facts_value facts.entry) key statement.now }
{
    match key {
        Key::Primary => {
            matches!(statement.author, Author::Primary)
                && (Sort::Direct.has(statement)
                    || (facts.version == 4 && Sort::UserIds.has(statement)))
        }
        Key::Subkey { number, .. } => {
            matches!(statement.author, Author::Primary) && Sort::Bindings(number).has(statement)
        }
    }
}

/// Whether a signature is by the primary key, and of a kind that is heard for a key.
fn may_be_heard(key: Key, statement: &Statement) -> bool
    ensures { result ≡ may_be_heard key statement.now }
{
    match key {
        Key::Primary => {
            matches!(statement.author, Author::Primary)
                && (Sort::Direct.has(statement) || Sort::Certifications.has(statement))
        }
        Key::Subkey { number, .. } => {
            matches!(statement.author, Author::Primary) && Sort::Bindings(number).has(statement)
        }
    }
}

/// Whether a signature would speak if the time were another one.
fn is_sound(statement: &Statement) -> bool
    ensures { result ≡ is_sound statement.now }
{
    statement.is_understood && statement.is_good()
}

/// Whether a signature of this life was made after a time.
fn is_newer(at: u64, life: Option<Life>) -> bool
    ensures { result ≡ is_newer at life }
{
    match life {
        Some(life) => at < u64::from(life.made),
        None => false,
    }
}

/// Whether a doubt is this one.
fn is_that(wanted: Doubt, found: Doubt) -> bool
    ensures { result ≡ is_that wanted found }
{
    match wanted {
        Doubt::Weak => matches!(found, Doubt::Weak),
        Doubt::Malformed => matches!(found, Doubt::Malformed),
        Doubt::Undated => matches!(found, Doubt::Undated),
        Doubt::Young => matches!(found, Doubt::Young),
    }
}

/// Whether there is this doubt.
fn is_doubted(wanted: Doubt, doubt: Option<Doubt>) -> bool
    ensures { result ≡ is_doubted wanted doubt }
{
    match doubt {
        Some(found) => is_that(wanted, found),
        None => false,
    }
}

/// Whether a signature lacks this to speak at a time.
fn lacks(at: u64, statement: &Statement, lack: Lack) -> bool
    ensures { result ≡ lacks at statement.now lack }
{
    match lack {
        Lack::Newer => is_sound(statement) && is_newer(at, statement.life),
        Lack::Lapsed => {
            is_sound(statement) && !is_newer(at, statement.life) && !statement.is_alive(at)
        }
        Lack::Weak => is_doubted(Doubt::Weak, statement.doubt),
        Lack::Malformed => is_doubted(Doubt::Malformed, statement.doubt),
        Lack::Undated => is_doubted(Doubt::Undated, statement.doubt),
        Lack::Young => is_doubted(Doubt::Young, statement.doubt),
        Lack::Critical => !statement.is_understood,
    }
}

/// Whether a signature could speak for a key, and lacks this to do so at a time.
fn is_lacking(facts: Facts<'_>, key: Key, at: u64, lack: Lack, statement: &Statement) -> bool
    ensures { result ≡ is_lacking (facts_value facts.entry) key at lack statement.now }
{
    may_speak(facts, key, statement) && lacks(at, statement, lack)
}

/// The first signature that could speak for a key, and lacks this to do so at a time.
fn first_lacking<'a>(facts: Facts<'a>, key: Key, at: u64, lack: Lack) -> Option<&'a Statement>
    ensures { option_map (λ s. s.now) result
        ≡ find (is_lacking (facts_value facts.entry) key at lack) facts.entry.statements.now }
{
    let mut rest = facts.statements;
    'statements: while let [statement, more @ ..] = rest {
        if is_lacking(facts, key, at, lack, statement) {
            return Some(statement);
        }
        rest = more;
    }
    None
}

/// Whether a signature that could speak for a key lacks this to do so at a time.
fn has_lack(facts: Facts<'_>, key: Key, at: u64, lack: Lack) -> bool
    ensures { result ≡ has_lack (facts_value facts.entry) key at lack }
{
    first_lacking(facts, key, at, lack).is_some()
}

/// What is lacking first to speak for a key at a time; None if no signature could.
#[tactic(auto, unfolding(crate::specs::Cause::lack_of))]
fn lack_of(facts: Facts<'_>, key: Key, at: u64) -> Option<Lack>
    ensures { result ≡ lack_of (facts_value facts.entry) key at }
{
    if has_lack(facts, key, at, Lack::Newer) {
        Some(Lack::Newer)
    } else if has_lack(facts, key, at, Lack::Lapsed) {
        Some(Lack::Lapsed)
    } else if has_lack(facts, key, at, Lack::Weak) {
        Some(Lack::Weak)
    } else if has_lack(facts, key, at, Lack::Malformed) {
        Some(Lack::Malformed)
    } else if has_lack(facts, key, at, Lack::Undated) {
        Some(Lack::Undated)
    } else if has_lack(facts, key, at, Lack::Young) {
        Some(Lack::Young)
    } else if has_lack(facts, key, at, Lack::Critical) {
        Some(Lack::Critical)
    } else {
        None
    }
}

/// Until when a signature counted, if it has lapsed; or else when it was made.
fn lack_date(lack: Lack, statement: &Statement) -> Option<u64>
    ensures { result ≡ lack_date lack statement.now }
{
    match lack {
        Lack::Lapsed => lapse_of(statement),
        _ => made_of(statement),
    }
}

/// A cause of which nothing more is known.
pub(crate) fn of_key(why: Why, key: Key, is_now: bool) -> Cause
    ensures { result ≡ cause_with why key is_now None None None }
{
    Cause {
        why,
        key,
        is_now,
        lack: None,
        date: None,
        spot: None,
    }
}

/// The cause that this is lacking to speak for a key, by the first signature that lacks it.
fn lacking_by(key: Key, is_now: bool, lack: Lack, statement: Option<&Statement>) -> Cause
    ensures { result ≡ lacking_by key is_now lack (option_map (λ s. s.now) statement.entry) }
{
    let cause = Cause {
        lack: Some(lack),
        ..of_key(Why::Unbound, key, is_now)
    };
    match statement {
        Some(statement) => Cause {
            date: lack_date(lack, statement),
            spot: Some(spot_of(statement)),
            ..cause
        },
        None => cause,
    }
}

/// The cause that nothing speaks for a key at a time, which is now or when the signature was made.
pub(crate) fn unbound_at(facts: Facts<'_>, key: Key, is_now: bool, at: u64) -> Cause
    ensures { result ≡ unbound_at (facts_value facts.entry) key is_now at }
{
    match lack_of(facts, key, at) {
        Some(lack) => {
            let statement = first_lacking(facts, key, at, lack);
            lacking_by(key, is_now, lack, statement)
        }
        None => of_key(Why::Unbound, key, is_now),
    }
}

/// Whether two ends are the same.
fn is_end(wanted: Option<u64>, end: Option<u64>) -> bool
    ensures { result ≡ is_end wanted end }
{
    match (wanted, end) {
        (Some(wanted), Some(end)) => wanted == end,
        _ => false,
    }
}

/// Whether a signature may be heard for a key that was created then, counts at a time, and lets the
/// key end at this one.
fn ends_it(key: Key, created: u32, end: Option<u64>, at: u64, statement: &Statement) -> bool
    ensures { result ≡ ends_it key created end at statement.now }
{
    may_be_heard(key, statement) && statement.is_alive(at) && is_end(end, statement.end_of(created))
}

/// Where the first of these signatures is that lets a key end at this time.
fn spot_of_end(
    statements: &[Statement],
    key: Key,
    created: u32,
    end: Option<u64>,
    at: u64,
) -> Option<Spot>
    ensures { result ≡ option_map spot_of (find (ends_it key created end at) statements.now) }
{
    let mut rest = statements;
    'statements: while let [statement, more @ ..] = rest {
        if ends_it(key, created, end, at, statement) {
            return Some(spot_of(statement));
        }
        rest = more;
    }
    None
}

/// The cause that a key has expired by a time, with its end.
pub(crate) fn expired_by(
    facts: Facts<'_>,
    key: Key,
    is_now: bool,
    at: u64,
    end: Option<u64>,
) -> Cause
    ensures { result ≡ expired_by (facts_value facts.entry) key is_now at end }
{
    let created = created_of(facts, key);
    let spot = spot_of_end(facts.statements, key, created, end, at);
    Cause {
        why: Why::Expired,
        key,
        is_now,
        lack: None,
        date: end,
        spot,
    }
}

/// The cause that a key has expired by a time, which is now or when the signature was made.
fn expired_at(facts: Facts<'_>, key: Key, is_now: bool, at: u64) -> Cause
    ensures { result ≡ expired_at (facts_value facts.entry) key is_now at }
{
    let primary = primary_saying(facts, at);
    let own = own_saying(facts, key, primary, at);
    expired_by(facts, key, is_now, at, own.end)
}

/// The key for which nothing speaks at a time: the primary key, if that is so of it.
#[tactic(auto, unfolding(crate::specs::Cause::unbound_key))]
fn unbound_key(facts: Facts<'_>, key: Key, at: u64) -> Key
    ensures { result ≡ unbound_key (facts_value facts.entry) key at }
{
    let primary = primary_saying(facts, at);
    if primary.is_said { key } else { Key::Primary }
}

/// The key that has expired by a time: the primary key, if that is so of it.
#[tactic(auto, unfolding(crate::specs::Cause::expired_key))]
fn expired_key(facts: Facts<'_>, key: Key, at: u64) -> Key
    ensures { result ≡ expired_key (facts_value facts.entry) key at }
{
    let primary = primary_saying(facts, at);
    if has_ended(primary.end, at) {
        Key::Primary
    } else {
        key
    }
}

/// The key that a revocation revokes: the primary key, or this one.
fn revoked_key(key: Key, statement: &Statement) -> Key
    ensures { result ≡ revoked_key key statement.now }
{
    match statement.kind {
        SignatureType::KeyRevocation => Key::Primary,
        _ => key,
    }
}

/// The first of these signatures that revokes a key.
fn first_revoking(statements: &[Statement], key: Key) -> Option<&Statement>
    ensures { option_map (λ s. s.now) result ≡ find (revokes key) statements.now }
{
    let mut rest = statements;
    'statements: while let [statement, more @ ..] = rest {
        if revokes(key, statement) {
            return Some(statement);
        }
        rest = more;
    }
    None
}

/// The cause that a key is revoked, by this revocation.
fn revoked_by(key: Key, statement: Option<&Statement>) -> Cause
    ensures { result ≡ revoked_by key (option_map (λ s. s.now) statement.entry) }
{
    match statement {
        Some(statement) => Cause {
            date: made_of(statement),
            spot: Some(spot_of(statement)),
            ..of_key(Why::Revoked, revoked_key(key, statement), false)
        },
        None => of_key(Why::Revoked, key, false),
    }
}

/// The cause that one of these signatures revokes a key.
fn revoked(statements: &[Statement], key: Key) -> Cause
    ensures { result ≡ revoked_by key (find (revokes key) statements.now) }
{
    let statement = first_revoking(statements, key);
    revoked_by(key, statement)
}

/// The key that is younger than a signature: the primary key, if that is so of it.
pub(crate) fn early_key(facts: Facts<'_>, key: Key, made: u64) -> Key
    ensures { result ≡ early_key (facts_value facts.entry) key made }
{
    if made < u64::from(facts.created) {
        Key::Primary
    } else {
        key
    }
}

/// The cause that a signature is older than this key.
pub(crate) fn early_by(facts: Facts<'_>, key: Key) -> Cause
    ensures { result ≡ early_by (facts_value facts.entry) key }
{
    let created = created_of(facts, key);
    Cause {
        date: Some(u64::from(created)),
        ..of_key(Why::Early, key, false)
    }
}

/// Now, if it is only so now; or when the signature was made.
fn which_time(is_now: bool, made: u64, now: u64) -> u64
    ensures { result ≡ (if is_now then now else made) }
{
    if is_now { now } else { made }
}

/// The cause that a key is unbound.
fn unbound(facts: Facts<'_>, key: Key, made: u64, now: u64) -> Cause
    ensures { result ≡ cause_by (facts_value facts.entry) key made now whys.Unbound }
{
    let moment = key_at(facts, key, made);
    let is_now = !moment.is_unbound;
    let at = which_time(is_now, made, now);
    let which = unbound_key(facts, key, at);
    unbound_at(facts, which, is_now, at)
}

/// The cause that a key has expired.
fn expired(facts: Facts<'_>, key: Key, made: u64, now: u64) -> Cause
    ensures { result ≡ cause_by (facts_value facts.entry) key made now whys.Expired }
{
    let moment = key_at(facts, key, made);
    let is_now = !moment.is_expired;
    let at = which_time(is_now, made, now);
    let which = expired_key(facts, key, at);
    expired_at(facts, which, is_now, at)
}

/// The cause that a key may not sign.
#[tactic(auto, unfolding(crate::specs::Cause::only_now))]
fn without_flags(facts: Facts<'_>, key: Key, made: u64) -> Cause
    ensures { result ≡ cause_with whys.Flags key
        (only_now (facts_value facts.entry) key made whys.Flags) None None None }
{
    let moment = key_at(facts, key, made);
    of_key(Why::Flags, key, !moment.may_not_sign)
}

/// The cause that a subkey doesn't sign back.
#[tactic(auto, unfolding(crate::specs::Cause::only_now))]
fn without_back(facts: Facts<'_>, key: Key, made: u64) -> Cause
    ensures { result ≡ cause_with whys.Back key
        (only_now (facts_value facts.entry) key made whys.Back) None None None }
{
    let moment = key_at(facts, key, made);
    of_key(Why::Back, key, !moment.is_unbacked)
}

/// What makes a key not believed by this reason.
pub(crate) fn cause_by(facts: Facts<'_>, key: Key, made: u64, now: u64, why: Why) -> Cause
    ensures { result ≡ cause_by (facts_value facts.entry) key made now why }
{
    match why {
        Why::Future => Cause {
            date: Some(made),
            ..of_key(Why::Future, key, false)
        },
        Why::Revoked => revoked(facts.statements, key),
        Why::Early => early_by(facts, early_key(facts, key, made)),
        Why::Unbound => unbound(facts, key, made, now),
        Why::Expired => expired(facts, key, made, now),
        Why::Flags => without_flags(facts, key, made),
        Why::Back => without_back(facts, key, made),
    }
}

/// What makes a key not believed for a signature that was made then and is read now, in seconds
/// since 1970, as [`standing`] takes them: the first reason that applies, of which of the two keys
/// and at which of the two times it holds, with a date and the signature that says so. None if it
/// is believed.
///
/// Allocates nothing; the work is linear in the number of statements.
pub fn cause_of(facts: Facts<'_>, key: Key, made: u64, now: u64) -> Option<Cause>
    ensures { result ≡ cause_of (facts_value facts.entry) key made now }
{
    match standing(facts, key, made, now) {
        Some(why) => Some(cause_by(facts, key, made, now, why)),
        None => None,
    }
}
