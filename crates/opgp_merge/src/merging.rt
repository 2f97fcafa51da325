//! Merging keyrings.

ghost use Rattle.std.specs.Prelude.{◌≡◌, All, IfOk, map};
ghost use Rattle.opgp_keyring.specs.Keyring.{IsCertificate};
ghost use Rattle.opgp_merge.specs.Merged.{firsts, merged_of, same_packet, same_primary};
ghost use Rattle.opgp_merge.specs.Merged.{united_certificate};
ghost use Rattle.opgp_merge.specs.Slots.{joined_all, once_certificate, once_component};

use crate::closing::close_all;
use crate::gathering::join;
use crate::joining::Joining;
use crate::open::{OpenCertificate, OpenComponent, OpenPacket, open_all};
use opgp_keyring::{Certificate, Keyring};
use opgp_octets::OutOfMemory;
use std::alloc::Global;

/// The keyring with one certificate for each primary key, in the place of the first (RFC 9580,
/// 10.1). It has the signatures and components of all certificates of that key; user IDs,
/// attributes and subkeys of the same type and body become one, with the signatures of all of them;
/// and of the packets on one of these, or on the primary key, that have the same type and body, the
/// first is kept. What precedes the first certificate stays as it is.
///
/// The packets that stay in certificates are copied, and then those of the keyring are freed. Fails
/// only when out of memory.
pub fn merge(ring: Keyring) -> Result<Keyring, OutOfMemory>
    ensures { IfOk result (λ r. r ≡ merged_of ring) }
{
    let (lead, certificates, alloc) = ring.into_parts();
    let merged = merge_all(alloc, &certificates)?;
    Ok(Keyring::new(alloc, lead, merged))
}

/// One certificate for each primary key, in the place of the first, with what all of them contain,
/// without repetitions. Fails only when out of memory.
fn merge_all(alloc: Global, certificates: &[Certificate]) -> Result<Vec<Certificate>, OutOfMemory>
    requires { All IsCertificate certificates.now }
    ensures { IfOk result (λ v. v.items ≡ map (united_certificate certificates.now)
        (firsts same_primary certificates.now)) }
{
    let open = open_all(alloc, certificates)?;
    let united = unite(alloc, open)?;
    close_all(alloc, &united)
}

/// What contains packets, or components, of which equal ones are to become one.
trait Uniting: Joining {
    // The item without repetitions.
    ghost once: { Self → Self };

    /// The item without repetitions. Fails only when out of memory.
    fn united(self, alloc: Global) -> Result<Self, OutOfMemory>
        ensures { IfOk result (λ x. x ≡ once self) };
}

impl Uniting for OpenCertificate<'_> {
    ghost once = { once_certificate };

    fn united(self, alloc: Global) -> Result<Self, OutOfMemory> {
        let OpenCertificate {
            primary,
            hangs,
            components,
        } = self;
        let hangs = unite_packets(alloc, hangs)?;
        let components = unite(alloc, components)?;
        Ok(OpenCertificate {
            primary,
            hangs,
            components,
        })
    }
}

impl Uniting for OpenComponent<'_> {
    ghost once = { once_component };

    fn united(self, alloc: Global) -> Result<Self, OutOfMemory> {
        let OpenComponent { head, hangs } = self;
        let hangs = unite_packets(alloc, hangs)?;
        Ok(OpenComponent { head, hangs })
    }
}

/// One item for each type and body, in the place of the first, with what all of them contain,
/// without repetitions.
fn unite<T: Uniting>(alloc: Global, items: Vec<T>) -> Result<Vec<T>, OutOfMemory>
    ensures { IfOk result (λ v. v.items ≡ map T.once (joined_all T.name T.both items.items)) }
{
    let gathered = join(alloc, items)?;
    let mut united = Vec::new(alloc);
    for item in gathered {
        let once = item.united(alloc)?;
        united.push(once)?;
    }
    Ok(united)
}

/// The packets without those that have the type and body of an earlier one.
fn unite_packets<'a>(
    alloc: Global,
    packets: Vec<OpenPacket<'a>>,
) -> Result<Vec<OpenPacket<'a>>, OutOfMemory>
    ensures { IfOk result (λ v. v.items ≡ firsts same_packet packets.entry.items) }
{
    join(alloc, packets)
}
