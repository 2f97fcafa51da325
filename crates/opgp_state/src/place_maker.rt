//! The places of the signatures of one certificate among the packets of its keyring.

ghost use Rattle.std.specs.Prelude.{◌≡◌, ◌+◌, ◌++◌, length, IfOk, OnOk};
ghost use Rattle.opgp_keyring.specs.Grouped.{component_of, components_left, hangs_left};
ghost use Rattle.opgp_keyring.specs.Keyring.{CertificateValue, component_packets};
ghost use Rattle.opgp_keyring.specs.Member.{members_left};
ghost use Rattle.opgp_state.specs.Places.{is_user_id, placed};
ghost use Rattle.opgp_state.specs.Placing.{AddsPlaces, HasHeads, IsHead, head_place};
ghost use Rattle.opgp_state.specs.Placing.{heads_from, user_ids_behind};

use crate::row_place::RowPlace;
use opgp_hash::CertificateHasher;
use opgp_keyring::{Certificate, Component, Components, Hangs, Members};
use opgp_octets::{OutOfMemory, PacketType};
use opgp_report::{Met, Place, Visitor};
use std::alloc::{AllocError, Global};

/// A sum of numbers of packets. No input has so many that it fails: the limit of its octets is
/// lower.
fn sum(some: usize, more: usize) -> Result<usize, OutOfMemory>
    ensures { IfOk result (λ n. n ≡ some + more) }
{
    match some.checked_add(more) {
        Some(all) => Ok(all),
        None => Err(AllocError),
    }
}

/// How many packets there are up to the end of these, before which this many are.
pub(crate) fn packets_behind(first: usize, mut packets: Members<'_>) -> Result<usize, OutOfMemory>
    ensures { IfOk result (λ n. n ≡ first + length (members_left packets.entry)) }
{
    let mut number = first;
    'packets: while let Some(_) = packets.next() {
        number = sum(number, 1)?;
    }
    Ok(number)
}

/// The same, of the packets on a primary key or a component.
fn hangs_behind(first: usize, mut hangs: Hangs<'_>) -> Result<usize, OutOfMemory>
    ensures { IfOk result (λ n. n ≡ first + length (hangs_left hangs.entry)) }
{
    let mut number = first;
    'hangs: while let Some(_) = hangs.next() {
        number = sum(number, 1)?;
    }
    Ok(number)
}

/// The same, of a component.
fn component_behind(first: usize, component: Component<'_>) -> Result<usize, OutOfMemory>
    ensures { IfOk result (λ n. n
        ≡ first + length (component_packets (component_of component.entry))) }
{
    let hangs = sum(first, 1)?;
    hangs_behind(hangs, component.hangs())
}

/// Whether a component is a user ID.
fn is_user_id(component: Component<'_>) -> bool
    ensures { result ≡ is_user_id (component_of component.entry) }
{
    component.head().kind() == PacketType::UserId.number()
}

/// Where a component begins, before which this many packets and user IDs are.
fn head_place(packets: usize, user_ids: usize, component: Component<'_>) -> RowPlace
    ensures { result ≡ head_place packets user_ids (component_of component.entry) }
{
    let user_id = if is_user_id(component) {
        Some(user_ids)
    } else {
        None
    };
    RowPlace {
        packet: packets,
        user_id,
    }
}

/// How many user IDs there are up to a component, before which this many are.
fn user_ids_behind(user_ids: usize, component: Component<'_>) -> Result<usize, OutOfMemory>
    ensures { IfOk result (λ n. n ≡ user_ids_behind user_ids (component_of component.entry)) }
{
    if is_user_id(component) {
        sum(user_ids, 1)
    } else {
        Ok(user_ids)
    }
}

/// Adds where each of these components begins, before which this many packets are.
fn add_heads(
    heads: &mut Vec<RowPlace>,
    first: usize,
    mut components: Components<'_>,
) -> Result<(), OutOfMemory>
    ensures { OnOk result (heads.new.items
        ≡ heads.old.items ++ heads_from first 0 (components_left components.entry)) }
{
    let mut packets = first;
    let mut user_ids = 0usize;
    'components: while let Some(component) = components.next() {
        heads.push(head_place(packets, user_ids, component))?;
        user_ids = user_ids_behind(user_ids, component)?;
        packets = component_behind(packets, component)?;
    }
    Ok(())
}

/// Adds the place of each signature of a certificate.
#[derive(Drop)]
pub(crate) struct PlaceMaker {
    /// How many packets are before the certificate.
    pub(crate) first: usize,
    /// Where its components begin.
    pub(crate) heads: Vec<RowPlace>,
    pub(crate) places: Vec<RowPlace>,
}

impl PlaceMaker {
    /// Adds to these places those of the signatures of a certificate, before which this many
    /// packets are. Fails only when out of memory.
    pub(crate) fn new(
        alloc: Global,
        first: usize,
        certificate: &Certificate,
        places: Vec<RowPlace>,
    ) -> Result<PlaceMaker, OutOfMemory>
        ensures heads { IfOk result (λ m. HasHeads m certificate.now) }
        ensures first { IfOk result (λ m. m.first ≡ first) }
        ensures places { IfOk result (λ m. m.places.items ≡ places.items) }
    {
        let mut heads = Vec::new(alloc);
        let hangs = sum(first, 1)?;
        let start = hangs_behind(hangs, certificate.hangs())?;
        add_heads(&mut heads, start, certificate.components())?;
        Ok(PlaceMaker {
            first,
            heads,
            places,
        })
    }

    /// Where the primary key is, or where a component begins. Fails where there is none, of which
    /// no signature of the certificate is.
    fn head(&self, component: Option<usize>) -> Result<RowPlace, OutOfMemory>
        ensures { IfOk result (λ h. (c : CertificateValue) → HasHeads self.now c
            → IsHead self.now.first c component h) }
    {
        match component {
            None => Ok(RowPlace {
                packet: self.first,
                user_id: None,
            }),
            Some(number) => match self.heads.get(number) {
                Some(head) => Ok(*head),
                None => Err(AllocError),
            },
        }
    }

    /// The place of a signature of the certificate.
    fn place(&self, place: Place) -> Result<RowPlace, OutOfMemory>
        ensures { IfOk result (λ p. (c : CertificateValue) → HasHeads self.now c
            → p ≡ placed self.now.first c place) }
    {
        let head = self.head(place.component)?;
        let hangs = sum(head.packet, 1)?;
        let packet = sum(hangs, place.hang)?;
        Ok(RowPlace {
            packet,
            user_id: head.user_id,
        })
    }
}

impl<'a> Visitor<'a> for PlaceMaker {
    type Stop = OutOfMemory;

    ghost becomes = { AddsPlaces };

    fn meet(
        &mut self,
        _hasher: &mut CertificateHasher<'a>,
        met: &Met<'a>,
    ) -> Result<(), OutOfMemory> {
        let place = self.place(met.place)?;
        Ok(self.places.push(place)?)
    }
}
