//! The last paragraph of the help of the program and of each command.

/// After the commands: where input and output are, and the exit statuses.
pub const PROGRAM_HELP: &str = "Each command reads standard input and writes standard output: \
opgp list < KEYRING
Exit statuses: 0 success; 1 the input is refused, has no such row or certificate or other
signatures than the verdicts, or there are more than 64 for a document;
2 invalid command line, or this help, which goes to standard error; 3 reading, writing,
memory or the spool failed; 4 the launcher couldn't build the program.";

pub const SHOW_HELP: &str = "The input may be any packets, of a keyring or a message. Each \
packet has a line with its
place, type, form and length. A signature has a line more for each subpacket. --values adds
the fields of each packet and the meaning of each subpacket, with times in seconds since
1970 and as dates.

Example: opgp show --values < KEYRING | grep key-expires";

pub const LIST_HELP: &str = "Each packet has a line: pub and sub with algorithm, creation time, \
fingerprint and key
ID, uid with its text, uat, sig, and pkt for any other packet. --values adds to a key its size
or curve, and to a signature what it states: the left 16 bits of its hash, its creation time,
and its issuer's fingerprint or key ID. It also adds the date to each time.

Example: opgp list --values < KEYRING | grep '^sig'";

pub const CHECK_HELP: &str = "Each signature has a line with its place, its issuer's key and \
the first octets of its
digest. It is bad if the digest doesn't begin with the 16 bits that the signature states.
No signature is verified. --fingerprints adds the fingerprints of the certificate's primary
key and of the issuer's key, if the keyring has it. --places adds the number of the
signature's packet, as list counts its lines, and that of the user ID that it is on, as
write --user-id counts them, from 0.

Example: opgp check < KEYRING | grep bad";

pub const STATE_HELP: &str =
    "Each key, user ID and attribute has a line: its place, how it stands, \
and of a key its uses,
from when until when it is there, and the code of its revocation's reason. A key is usable
if it is bound to its certificate, and neither revoked nor expired. The keyring is merged
first, as join --merge does it. The file of verdicts is what opgp-verify --verdicts writes of
the same keyring; no other is taken. Without it the lines say what the signatures claim, and
that they are unverified. --values adds dates, and for a key that isn't usable which key that
is because of, what is lacking, a date, and the signature that says so.

Example: opgp-verify --verdicts < KEYRING > VERDICTS
         opgp state --at 2026-11-20 --verdicts VERDICTS < KEYRING";

pub const OCTETS_HELP: &str = "A row is numbered as check does it; with --of literal it is the \
number of a signature
after the literal of a signed message. The octets are written as they are hashed, without
armor. --all writes those of every hashed signature, each after a line with the row's number
and their length. --explain writes a line for each field of one signature's octets instead:
offset, length, name, value, and the section of RFC 9580 that says what it is.

Example: opgp octets --row 0 < KEYRING | sha512sum";

pub const WRITE_HELP: &str = "Each packet is written as it was framed. With --out binary the \
output is the octets of
all packets of the input. Three options leave out parts of each certificate:
--own-signatures the signatures that don't name its primary key as their issuer,
--no-attributes its user attributes, and --user-id all user IDs but those of the numbers
that are given, with their signatures. No signature is verified.

--bound leaves out each user ID, attribute and subkey on which no self-signature is that is
good by the verdicts in the file of --verdicts, which opgp-verify --verdicts writes of the
same keyring; and self-signatures that aren't good. Revocations stay, and subkeys that made
good ones. The keyring is merged first. It doesn't go with --user-id. --newest leaves out
self-signatures that newer ones replace, too: how each part stands at the time of --at is
the same, but older signatures may no longer be believed.

Example: opgp write --own-signatures --user-id 0 < KEYRING > MINIMAL.asc";

pub const NORMALISE_HELP: &str = "Each packet gets the current format and its shortest length. \
No body changes.

Example: opgp normalise < KEYRING > KEYRING.asc";

pub const SPLIT_HELP: &str = "Each certificate is an armored block of its own, or with --out \
binary its packets. Packets
before the first certificate are left out. Certificates are numbered from 0. A key may be a
primary key or a subkey. Spaces in it, and 0x at its start, are ignored. --key may be given
again and again, and the file of --keys has one in each line; blank lines, and those that
begin with #, are skipped; a file without a key is refused. If the input lacks one of the
keys, nothing is written. --except writes all certificates but those.

Example: opgp split --key KEY --key OTHER-KEY < KEYRING > BOTH.asc";

pub const JOIN_HELP: &str = "--merge makes one certificate of those with the same primary key, \
and writes equal user
IDs, attributes, subkeys and signatures once.

Example: cat ONE.asc OTHER.asc | opgp join --merge --outside refuse > BOTH.asc";

pub const SIGNATURES_HELP: &str = "The input is detached signatures, armored or binary, and \
nothing else. Each has a line, as
list --values shows it.

Example: opgp signatures < RELEASE.tar.gz.asc";

pub const DIFF_HELP: &str = "Standard input is the new keyring. Each packet that is gone or new \
has a line: the
fingerprint of its certificate, its place, and its line as list --values shows it. Of a
certificate, user ID, attribute or subkey that is gone or new, the signatures on it are left
out. The order of packets, their framing, and packets that aren't part of certificates don't
count. If nothing changed, nothing is written.

Example: opgp diff --old OLD.asc < NEW.asc";

pub const DIGEST_HELP: &str = "Standard input is the document that the signatures in the file are \
over. Each signature
has a line with its number and the first octets of its digest. It is bad if the digest
doesn't begin with the 16 bits that the signature states. No signature is verified. --octets
reads no document: it writes what one signature hashes behind it, and with --salt what a
version 6 signature hashes in front of it.

Example: opgp digest --signatures RELEASE.tar.gz.asc < RELEASE.tar.gz";

pub const CANONICAL_HELP: &str = "The input is a document. The output is what a signature of type \
01 hashes of it: each line
ends in a carriage return and a line feed. A document with a carriage return that no line
feed follows is refused.

Example: opgp canonical < LETTER.txt | sha512sum";

pub const CLEARTEXT_HELP: &str = "The input is a text between -----BEGIN PGP SIGNED MESSAGE----- \
and its armored signatures. The
output is its document: escapes undone, no blanks at the ends of lines, a line feed between
them. --of hashed writes what signatures of type 01 hash, --of signatures the armored
signatures. Nothing is verified: opgp-verify does that.

Example: opgp cleartext --of signatures < LETTER.asc | opgp signatures";
