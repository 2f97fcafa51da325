//! A composer of keyrings that packets are pushed into.

ghost use Rattle.std.specs.Prelude.{◌≡◌, ◌≤◌, ◌+◌, ◌++◌, ◌∷◌, ◌↔◌, ◌||◌, ℕ, List, [], true, false};
ghost use Rattle.std.specs.Prelude.{length, is_some, IsSome, IsOk, OnOk, OnErr, MatchResult, Ok};
ghost use Rattle.std.specs.Prelude.{Err, Some};
ghost use Rattle.opgp_octets.specs.declared.fault.Fault.{Fault};
ghost use Rattle.opgp_octets.specs.declared.fault.Layer.TheVariants as layer;
ghost use Rattle.opgp_octets.specs.declared.fault.Reason.TheVariants as reason;
ghost use Rattle.opgp_octets.specs.declared.limits.Limits.{Limits};
ghost use Rattle.opgp_octets.specs.Limits.{cert_limit, body_limit, malformed_of};
ghost use Rattle.opgp_octets.specs.Octets.{IsOctets};
ghost use Rattle.opgp_frame.specs.Packet.{PacketValue, spelling};
ghost use Rattle.opgp_frame.specs.View.{viewed, viewed_packet};
ghost use Rattle.opgp_keyring.specs.Bodies.{HasFault, HasNoFault};
ghost use Rattle.opgp_keyring.specs.Composed.{IsFault, IsKeyringOf, PartValue, parts_of, lead_parts};
ghost use Rattle.opgp_keyring.specs.Composition.{Item, of_label, of_packet, stands_in_keyring};
ghost use Rattle.opgp_keyring.specs.Keyring.{KeyringValue, IsPrimary, IsFiller, octets_of};
ghost use Rattle.opgp_keyring.specs.Keyring.{is_head, is_hung};
ghost use Rattle.opgp_keyring.specs.Member.{member_packet};
ghost use Rattle.opgp_keyring.specs.State.{open_octets, ready_octets, ready_parts};

use crate::certificate::Certificate;
use crate::lead::Lead;
use crate::member::Member;
use crate::packed::Packed;
use crate::packet_body::body_fault;
use crate::ready::Ready;
use crate::sorted::{Sorted, sort};
use opgp_frame::{PacketView, Placed, PlacedView};
use opgp_octets::{
    BodyFault, Fault, Layer, Limits, Malformed, OutOfMemory, PacketType, PushFault, Reason,
};
use std::alloc::Global;
use std::mem;

/// The state of a composer.
#[derive(Drop)]
enum State {
    /// Before the first primary key: the fillers so far.
    Leading(Lead),
    /// In a certificate.
    Growing(Certificate),
    /// After a fault in the order of packets; a body may still be at fault.
    Disordered(Fault),
    /// After a fault in a body.
    Broken(Fault),
    /// After running out of memory.
    Spent,
}

/// A composer of keyrings (RFC 9580, 10.1) that packets are pushed into, one at a time.
///
/// It hands out the lead and each certificate as soon as it is complete. It keeps only the one that
/// is unfinished or ready, and nothing after a fault or after running out of memory; and the memory
/// of the part that was last given back, for the next certificate. No packet lies in that memory.
#[derive(Drop)]
pub struct Composer {
    alloc: Global,
    limits: Limits,
    state: State,
    size: u64,
    ready: Option<Ready>,
    spare: Packed,
    ghost short: { size ≤ cert_limit limits },
    ghost counted: { open_octets state ≡ size },
    ghost ready_short: { ready_octets ready ≤ cert_limit limits },
    ghost spare_empty: { spare ≡ [] },
}

impl Composer {
    ghost use Rattle.opgp_frame.specs.declared.packet.Placed.{Placed};
    ghost use Rattle.opgp_keyring.specs.Fed.{Fed, KeepsFed, TakesIn, StaysFaulty, is_spent, is_ready};
    ghost use Rattle.opgp_keyring.specs.Fed.{fault_of, is_broken, limits_of, held_of};
    ghost use Rattle.opgp_keyring.specs.State.{is_open, has_begun};
    ghost use Rattle.opgp_keyring.specs.Composed.{IsSoundItem};
    ghost use Rattle.opgp_keyring.specs.Composition.{IsFaultAt, fault_at, packets_in, needs_primary};

    /// A composer that was given nothing yet. Allocates nothing; pushes do, from `alloc`.
    #[tactic(auto, unfolding(crate::specs::Keyring::octets_of))]
    pub fn new(alloc: Global, limits: Limits) -> Composer
        ensures fed { Fed limits result [] [] }
        ensures free { is_ready result ≡ false }
        ensures sound { is_spent result ≡ false }
        ensures limits { limits_of result ≡ limits }
        ensures held { held_of result ≡ 0 }
    {
        Composer {
            alloc,
            limits,
            state: State::Leading(Lead::new(alloc)),
            size: 0,
            ready: None,
            spare: Packed::new(alloc),
        }
    }

    /// Whether a part is ready to be taken.
    pub fn ready(&self) -> bool
        ensures { result ≡ is_ready self.now }
    {
        self.ready.is_some()
    }

    /// Takes the part that is ready.
    pub fn take(&mut self) -> Option<Ready>
        ensures fed { KeepsFed self.old self.new [] (ready_parts result) }
        ensures some { is_some result ≡ is_ready self.old }
        ensures free { is_ready self.new ≡ false }
        ensures spent { is_spent self.new ≡ is_spent self.old }
        ensures faulty { fault_of self.new ≡ fault_of self.old }
        ensures held { held_of self.new ≤ held_of self.old }
        ensures limits { limits_of self.new ≡ limits_of self.old }
    {
        self.ready.take()
    }

    /// Gives back a part that was taken, whose memory the next certificate uses. It changes nothing
    /// that the composer says.
    ///
    /// It keeps that memory without the packets, in place of what was given back before. It is as much
    /// as the part took, or an earlier one in the same memory. Allocates nothing.
    pub fn reuse(&mut self, part: Ready)
        ensures fed { KeepsFed self.old self.new [] [] }
        ensures ready { is_ready self.new ≡ is_ready self.old }
        ensures spent { is_spent self.new ≡ is_spent self.old }
        ensures faulty { fault_of self.new ≡ fault_of self.old }
        ensures held { held_of self.new ≡ held_of self.old }
        ensures limits { limits_of self.new ≡ limits_of self.old }
    {
        drop(mem::replace(&mut self.spare, part.emptied()));
    }

    /// Ends the packets. The condition is that nothing is ready. Returns the last part: the last
    /// certificate, else a lead that isn't empty, else none.
    ///
    /// An error is the fault of the first body that has one, else that of the order; after running
    /// out of memory its reason is `Spent` and its places are 0.
    ///
    /// Allocates nothing.
    pub fn finish(self) -> Result<Option<Ready>, Fault>
        requires { is_ready self ≡ false }
        ensures ok { (limits : Limits) (given : List Item) (taken : List PartValue)
            → Fed limits self given taken
            → MatchResult result (λ last. (r : KeyringValue) × IsKeyringOf limits given r
            × (parts_of r ≡ taken ++ ready_parts last)) (IsFault limits given) }
        // A fault that the composer has is returned.
        ensures faulty { (fault : Fault) → fault_of self ≡ Some fault → result ≡ Err fault }
        ensures spent { is_spent self ≡ true → result ≡ Err (record {
          layer = layer.Composition;
          reason = reason.Spent;
          block = 0;
          pos = 0;
          inner = 0;
        }) }
    {
        let Composer {
            alloc: _,
            limits: _,
            state,
            size: _,
            ready,
            spare: _,
        } = self;
        drop(ready);
        match state {
            State::Leading(lead) => Ok(lead_part(lead)),
            State::Growing(certificate) => Ok(Some(Ready::Certificate(certificate))),
            State::Disordered(fault) | State::Broken(fault) => Err(fault),
            State::Spent => Err(Fault {
                layer: Layer::Composition,
                reason: Reason::Spent,
                block: 0,
                pos: 0,
                inner: 0,
            }),
        }
    }

    /// Takes the packet, which may make a part ready. The condition is that nothing is ready.
    ///
    /// Nothing becomes ready with a fault, or after one. Fails only when out of memory; the
    /// composer is spent from then on.
    pub fn push(&mut self, placed: Placed) -> Result<(), PushFault>
        requires { is_ready self.old ≡ false }
        ensures fed { OnOk result (KeepsFed self.old self.new (of_packet placed ∷ []) []) }
        // Nothing becomes ready with the packet that is at fault.
        ensures quiet { IsSome (fault_of self.new) → is_ready self.new ≡ false }
        // After a fault nothing becomes ready, and the fault stays.
        ensures faulty { IsSome (fault_of self.old) → IsOk result × (is_ready self.new ≡ false) }
        ensures stays { StaysFaulty self.old self.new }
        ensures held { length placed.packet.body ≤ body_limit (limits_of self.new)
            → held_of self.new
            ≤ cert_limit (limits_of self.new) + body_limit (limits_of self.new) + 16 }
        ensures sound { OnOk result (is_spent self.new ≡ false) }
        ensures spent { OnErr result ((is_spent self.new ≡ true) × (is_ready self.new ≡ false)) }
        ensures was_spent { (result ≡ Err PushFault.Spent) ↔ (is_spent self.old ≡ true) }
        ensures limits { limits_of self.new ≡ limits_of self.old }
    {
        self.push_view(PlacedView::of(&placed))
    }

    /// The same with a packet that is lent, which is copied once.
    ///
    /// Nothing becomes ready with a fault, or after one. Fails only when out of memory; the
    /// composer is spent from then on.
    pub fn push_view(&mut self, placed: PlacedView<'_>) -> Result<(), PushFault>
        requires { is_ready self.old ≡ false }
        ensures fed { OnOk result (KeepsFed self.old self.new
            (of_packet (viewed placed.entry) ∷ []) []) }
        // Nothing becomes ready with the packet that is at fault.
        ensures quiet { IsSome (fault_of self.new) → is_ready self.new ≡ false }
        // After a fault nothing becomes ready, and the fault stays.
        ensures faulty { IsSome (fault_of self.old) → IsOk result × (is_ready self.new ≡ false) }
        ensures stays { StaysFaulty self.old self.new }
        ensures held { length (viewed placed.entry).packet.body ≤ body_limit (limits_of self.new)
            → held_of self.new
            ≤ cert_limit (limits_of self.new) + body_limit (limits_of self.new) + 16 }
        ensures sound { OnOk result (is_spent self.new ≡ false) }
        ensures spent { OnErr result ((is_spent self.new ≡ true) × (is_ready self.new ≡ false)) }
        ensures was_spent { (result ≡ Err PushFault.Spent) ↔ (is_spent self.old ≡ true) }
        ensures limits { limits_of self.new ≡ limits_of self.old }
    {
        if let State::Spent = self.state {
            return Err(PushFault::Spent);
        }
        let PlacedView { packet, block, pos } = placed;
        let kind = PacketType::from(packet.kind());
        match body_fault(kind, packet.body(), self.limits.malformed()) {
            Some(fault) => {
                self.break_off(fault, block, pos);
                Ok(())
            }
            None => match self.add(packet, block, pos) {
                Ok(()) => Ok(()),
                Err(_) => {
                    self.spend();
                    Err(PushFault::Memory)
                }
            },
        }
    }

    /// Begins a block, whose label is the expected one or not.
    pub fn begin_block(&mut self, block: u64, label_fits: bool)
        ensures fed { KeepsFed self.old self.new (of_label block label_fits ∷ []) [] }
        ensures ready { is_ready self.new ≡ is_ready self.old }
        ensures spent { is_spent self.new ≡ is_spent self.old }
        ensures faulty { (fault : Fault) → fault_of self.old ≡ Some fault
            → fault_of self.new ≡ Some fault }
        ensures limits { limits_of self.new ≡ limits_of self.old }
        ensures held { held_of self.new ≤ held_of self.old }
    {
        if !label_fits {
            self.refuse(Reason::BlockLabel, block, 0);
        }
    }

    fn is_open(&self) -> bool
        ensures { result ≡ is_open self.now.state }
    {
        match self.state {
            State::Leading(_) | State::Growing(_) => true,
            State::Disordered(_) | State::Broken(_) | State::Spent => false,
        }
    }

    fn is_broken(&self) -> bool
        ensures { result ≡ is_broken self.now }
    {
        match self.state {
            State::Broken(_) => true,
            State::Leading(_) | State::Growing(_) | State::Disordered(_) | State::Spent => false,
        }
    }

    /// Whether a certificate has begun.
    fn has_begun(&self) -> bool
        ensures { result ≡ has_begun self.now.state }
    {
        match self.state {
            State::Growing(_) => true,
            State::Leading(_) | State::Disordered(_) | State::Broken(_) | State::Spent => false,
        }
    }

    /// Runs out of memory: drops everything, and is spent.
    #[tactic(auto, using(crate::proofs::Holding::none_spare))]
    fn spend(&mut self)
        ensures spent { is_spent self.new ≡ true }
        ensures free { is_ready self.new ≡ false }
        ensures limits { limits_of self.new ≡ limits_of self.old }
        ensures held { held_of self.new ≡ 0 }
    {
        drop(mem::replace(&mut self.state, State::Spent));
        drop(mem::replace(&mut self.ready, None));
        self.size = 0;
    }

    /// Keeps a fault in the order of packets, if it is the first.
    fn refuse(&mut self, reason: Reason, block: u64, pos: u64)
        ensures fed { (limits : Limits) (given : List Item) (taken : List PartValue) (i : Item)
            → Fed limits self.old given taken → IsSoundItem (malformed_of limits) i
            → (is_open self.old.state ≡ true
            → IsFaultAt limits (packets_in given) i (fault_at reason block pos))
            → Fed limits self.new (given ++ i ∷ []) taken }
        ensures stays { is_open self.old.state ≡ false → self.new.state ≡ self.old.state }
        ensures held { open_octets self.new.state ≤ open_octets self.old.state }
        ensures ready { self.new.ready ≡ self.old.ready }
        ensures spent { is_spent self.new ≡ is_spent self.old }
        ensures limits { limits_of self.new ≡ limits_of self.old }
    {
        if self.is_open() {
            let fault = Fault {
                layer: Layer::Composition,
                reason,
                block,
                pos,
                inner: 0,
            };
            drop(mem::replace(&mut self.state, State::Disordered(fault)));
            self.size = 0;
        }
    }

    /// Keeps a fault in a body, if it is the first.
    fn break_off(&mut self, fault: BodyFault, block: u64, pos: u64)
        requires { is_spent self.old ≡ false }
        ensures fed { (p : PacketValue) → IsOctets p.body
            → HasFault (malformed_of (limits_of self.old)) p fault
            → TakesIn self.old self.new
            (of_packet (record { packet = p; block = block; pos = pos })) }
        ensures stays { StaysFaulty self.old self.new }
        ensures ready { self.new.ready ≡ self.old.ready }
        ensures spent { is_spent self.new ≡ false }
        ensures limits { limits_of self.new ≡ limits_of self.old }
    {
        if !self.is_broken() {
            let fault = fault.placed(block, pos);
            drop(mem::replace(&mut self.state, State::Broken(fault)));
            self.size = 0;
        }
    }

    /// Adds a packet whose body has no fault.
    #[inline(always)]
    fn add(&mut self, packet: PacketView<'_>, block: u64, pos: u64) -> Result<(), OutOfMemory>
        requires free { is_ready self.old ≡ false }
        requires unspent { is_spent self.old ≡ false }
        requires sound { HasNoFault (malformed_of (limits_of self.old)) (viewed_packet packet) }
        ensures fed { OnOk result (TakesIn self.old self.new
            (of_packet (record {
              packet = viewed_packet packet.entry;
              block = block;
              pos = pos;
            }))) }
        // After a fault nothing changes.
        ensures behind { is_open self.old.state ≡ false
            → IsOk result × (self.new.state ≡ self.old.state)
            × (self.new.ready ≡ self.old.ready) }
        ensures quiet { OnOk result (IsSome (fault_of self.new) → is_ready self.new ≡ false) }
        ensures held { OnOk result (is_ready self.new ≡ true
            → IsPrimary (viewed_packet packet.entry)
            × (self.new.size ≡ length (spelling (viewed_packet packet.entry)))) }
        ensures sound { OnOk result (is_spent self.new ≡ false) }
        ensures limits { limits_of self.new ≡ limits_of self.old }
    {
        if !self.is_open() {
            return Ok(());
        }
        match sort(packet.kind()) {
            Sorted::Primary => self.begin(packet, block, pos),
            Sorted::Behind => self.grow(packet, block, pos),
            Sorted::Filler => {
                if self.has_begun() {
                    self.grow(packet, block, pos)
                } else {
                    self.lead(packet, block, pos)
                }
            }
            Sorted::Stray => {
                self.refuse(Reason::NotInKeyring, block, pos);
                Ok(())
            }
        }
    }

    /// Begins a certificate; the part before it becomes ready.
    fn begin(&mut self, primary: PacketView<'_>, block: u64, pos: u64) -> Result<(), OutOfMemory>
        requires free { is_ready self.old ≡ false }
        requires open { is_open self.old.state ≡ true }
        requires unspent { is_spent self.old ≡ false }
        requires primary { IsPrimary (viewed_packet primary) }
        requires sound { HasNoFault (malformed_of (limits_of self.old)) (viewed_packet primary) }
        ensures fed { OnOk result (TakesIn self.old self.new
            (of_packet (record {
              packet = viewed_packet primary.entry;
              block = block;
              pos = pos;
            }))) }
        ensures quiet { OnOk result (IsSome (fault_of self.new) → is_ready self.new ≡ false) }
        ensures held { OnOk result (is_ready self.new ≡ true
            → self.new.size ≡ length (spelling (viewed_packet primary.entry))) }
        ensures sound { OnOk result (is_spent self.new ≡ false) }
        ensures limits { limits_of self.new ≡ limits_of self.old }
    {
        let octets = primary.spelled_len();
        if octets > self.limits.cert() {
            self.refuse(Reason::CertTooLong, block, pos);
            return Ok(());
        }
        let memory = mem::replace(&mut self.spare, Packed::new(self.alloc));
        let certificate = Certificate::begin(
            memory,
            keyring_member(primary, self.limits.malformed()),
        )?;
        match mem::replace(&mut self.state, State::Growing(certificate)) {
            State::Leading(lead) => {
                let ready = lead_part(lead);
                drop(mem::replace(&mut self.ready, ready));
                self.size = octets;
            }
            State::Growing(certificate) => {
                let ready = Some(Ready::Certificate(certificate));
                drop(mem::replace(&mut self.ready, ready));
                self.size = octets;
            }
            _ => unreachable!(),
        }
        Ok(())
    }

    /// Adds a packet that must follow a primary key; before the first one it is a fault.
    #[inline(always)]
    fn grow(&mut self, packet: PacketView<'_>, block: u64, pos: u64) -> Result<(), OutOfMemory>
        requires open { is_open self.old.state ≡ true }
        requires unspent { is_spent self.old ≡ false }
        requires behind { (is_head (viewed_packet packet).kind
            || is_hung (viewed_packet packet).kind) ≡ true }
        // Fillers may come before the first primary key.
        requires lead { has_begun self.old.state ≡ false
            → needs_primary (viewed_packet packet).kind ≡ true }
        requires sound { HasNoFault (malformed_of (limits_of self.old)) (viewed_packet packet) }
        ensures fed { OnOk result (TakesIn self.old self.new
            (of_packet (record {
              packet = viewed_packet packet.entry;
              block = block;
              pos = pos;
            }))) }
        ensures ready { OnOk result (self.new.ready ≡ self.old.ready) }
        ensures sound { OnOk result (is_spent self.new ≡ false) }
        ensures limits { limits_of self.new ≡ limits_of self.old }
    {
        let octets = packet.spelled_len();
        let room = self.limits.cert() - self.size;
        let malformed = self.limits.malformed();
        match &mut self.state {
            State::Leading(_) => self.refuse(Reason::NoPrimary, block, pos),
            State::Growing(_) if octets > room => self.refuse(Reason::CertTooLong, block, pos),
            State::Growing(certificate) => {
                certificate.add(keyring_member(packet, malformed))?;
                self.size += octets;
            }
            _ => unreachable!(),
        }
        Ok(())
    }

    /// Adds a filler before the first primary key.
    fn lead(&mut self, filler: PacketView<'_>, block: u64, pos: u64) -> Result<(), OutOfMemory>
        requires open { is_open self.old.state ≡ true }
        requires unspent { is_spent self.old ≡ false }
        requires lead { has_begun self.old.state ≡ false }
        requires filler { IsFiller (viewed_packet filler) }
        requires sound { HasNoFault (malformed_of (limits_of self.old)) (viewed_packet filler) }
        ensures fed { OnOk result (TakesIn self.old self.new
            (of_packet (record {
              packet = viewed_packet filler.entry;
              block = block;
              pos = pos;
            }))) }
        ensures ready { OnOk result (self.new.ready ≡ self.old.ready) }
        ensures sound { OnOk result (is_spent self.new ≡ false) }
        ensures limits { limits_of self.new ≡ limits_of self.old }
    {
        let octets = filler.spelled_len();
        let room = self.limits.cert() - self.size;
        let malformed = self.limits.malformed();
        match &mut self.state {
            State::Leading(_) if octets > room => self.refuse(Reason::CertTooLong, block, pos),
            State::Leading(lead) => {
                lead.push(keyring_member(filler, malformed))?;
                self.size += octets;
            }
            _ => unreachable!(),
        }
        Ok(())
    }
}

/// The packet, whose body has no fault by this policy, as one of a keyring.
#[inline(always)]
pub(crate) fn keyring_member(packet: PacketView<'_>, malformed: Malformed) -> Member<'_>
    requires stands { stands_in_keyring (viewed_packet packet).kind ≡ true }
    requires sound { HasNoFault malformed (viewed_packet packet) }
    ensures { member_packet result ≡ viewed_packet packet.entry }
{
    // Called for its contract: these octets are a packet.
    let _known = packet.kind();
    Member::of(packet)
}

/// The lead as a part, where there is one.
#[tactic(auto, unfolding(crate::specs::Keyring::octets_of))]
fn lead_part(lead: Lead) -> Option<Ready>
    ensures part { ready_parts result ≡ lead_parts lead }
    ensures octets { ready_octets result ≡ octets_of lead }
{
    if lead.is_empty() {
        None
    } else {
        Some(Ready::Lead(lead))
    }
}
