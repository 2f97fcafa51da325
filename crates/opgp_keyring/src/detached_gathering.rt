//! Gathering the packets of detached signatures.

ghost use Rattle.std.specs.Prelude.{◌≡◌, ◌++◌, ◌∷◌, [], List, true, MatchResult, OnOk};
ghost use Rattle.opgp_octets.specs.declared.malformed.Malformed.{Malformed};
ghost use Rattle.opgp_keyring.specs.Bodies.{IsSound, IsFirstBodyFault};
ghost use Rattle.opgp_keyring.specs.Composed.{IsSoundItem};
ghost use Rattle.opgp_keyring.specs.Composition.{Item, of_label, of_packet, fault_at};
ghost use Rattle.opgp_keyring.specs.Detached.{IsDetachedFaultAt, IsDetachedFaultBy, IsDetachedOf};
ghost use Rattle.opgp_keyring.specs.Detached.{is_detached_type};
ghost use Rattle.opgp_keyring.specs.DetachedState.{IsDetachedIn};
ghost use Rattle.opgp_keyring.specs.Signed.{told_end};

use crate::checking::check_packets;
use crate::detached_signatures::DetachedSignatures;
use crate::signatures::first_of;
use crate::sorted::is_filler;
use opgp_frame::{Packet, Placed, PlacedView};
use opgp_octets::{Fault, Layer, Malformed, OutOfMemory, PacketType, Reason};
use std::alloc::Global;
use std::slice;

/// The state of the gathering of detached signatures.
#[derive(Clone, Copy)]
enum DetachedState {
    /// The packets so far are signatures and fillers.
    Open,
    /// After a fault in the order of packets; a body may still be at fault.
    Disordered(Fault),
    /// After a fault in a body.
    Broken(Fault),
}

/// Detached signatures in the making (RFC 9580, 10.4), of packets that come one at a time.
#[derive(Drop)]
pub struct DetachedGathering {
    alloc: Global,
    malformed: Malformed,
    flat: Vec<Packet>,
    state: DetachedState,
    block: u64,
    end: u64,
}

impl DetachedGathering {
    ghost use Rattle.opgp_frame.specs.View.{viewed};
    ghost use Rattle.opgp_frame.specs.declared.packet.Placed.{Placed};
    ghost use Rattle.opgp_keyring.specs.DetachedGathering.{GathersDetached};
    ghost use Rattle.opgp_keyring.specs.DetachedSignatures.{detached_packets};

    /// An empty one, by this policy for malformed signatures. Allocates nothing; additions do, from
    /// `alloc`.
    pub fn new(alloc: Global, malformed: Malformed) -> DetachedGathering
        ensures { GathersDetached malformed result [] }
    {
        DetachedGathering {
            alloc,
            malformed,
            flat: Vec::new(alloc),
            state: DetachedState::Open,
            block: 0,
            end: 0,
        }
    }

    /// Begins a block of this number, whose label is the expected one or not. Allocates nothing.
    pub fn begin_block(&mut self, block: u64, label_fits: bool)
        ensures { (policy : Malformed) (given : List Item) → GathersDetached policy self.old given
            → GathersDetached policy self.new (given ++ of_label block label_fits ∷ []) }
    {
        self.block = block;
        self.end = 0;
        if !label_fits {
            self.refuse(Reason::BlockLabel, block, 0);
        }
    }

    /// Adds the next packet of the block. Fails only when out of memory; the signatures are lost
    /// then.
    pub fn add(&mut self, placed: Placed) -> Result<(), OutOfMemory>
        ensures { OnOk result ((policy : Malformed) (given : List Item)
            → GathersDetached policy self.old given
            → GathersDetached policy self.new (given ++ of_packet placed ∷ [])) }
    {
        self.end = placed.pos.saturating_add(placed.packet.spelled_len());
        match check_packets(slice::from_ref(&placed), self.malformed) {
            Some(fault) => {
                drop(placed);
                self.break_off(fault);
                Ok(())
            }
            None => {
                self.keep(placed)?;
                Ok(())
            }
        }
    }

    /// The same with a packet that is lent, which is copied.
    pub fn add_view(&mut self, placed: PlacedView<'_>) -> Result<(), OutOfMemory>
        ensures { OnOk result ((policy : Malformed) (given : List Item)
            → GathersDetached policy self.old given
            → GathersDetached policy self.new (given ++ of_packet (viewed placed.entry) ∷ [])) }
    {
        let placed = placed.copy(self.alloc)?;
        self.add(placed)
    }

    /// The detached signatures of what was added, or the one fault: that of the first body that has
    /// one, else the first in the order, where a block's label comes before its packets. If there
    /// is no signature, that is at the end of the last block.
    ///
    /// The condition is that no addition failed. An end past 2^64 - 1 is reported as that place.
    /// Allocates nothing.
    pub fn finish(self) -> Result<DetachedSignatures, Fault>
        requires { (policy : Malformed) × ((items : List Item)
            × GathersDetached policy self items) }
        ensures { (policy : Malformed) (items : List Item) → GathersDetached policy self items
            → MatchResult result (λ d. IsDetachedOf policy items (detached_packets d))
            (IsDetachedFaultBy policy (told_end items) items) }
    {
        let DetachedGathering {
            alloc: _,
            malformed: _,
            flat,
            state,
            block,
            end,
        } = self;
        match state {
            DetachedState::Open => {
                if first_of(&flat, PacketType::Signature.number()).is_some() {
                    Ok(DetachedSignatures::new(flat))
                } else {
                    Err(Fault {
                        layer: Layer::Composition,
                        reason: Reason::NotASignature,
                        block,
                        pos: end,
                        inner: 0,
                    })
                }
            }
            DetachedState::Disordered(fault) | DetachedState::Broken(fault) => Err(fault),
        }
    }

    /// Keeps a packet whose body has no fault, if it is a signature or a filler.
    fn keep(&mut self, placed: Placed) -> Result<(), OutOfMemory>
        ensures state { OnOk result ((policy : Malformed) (given : List Item)
            → IsSound policy placed
            → IsDetachedIn policy self.old.state given self.old.flat.items
            → IsDetachedIn policy self.new.state (given ++ of_packet placed ∷ [])
            self.new.flat.items) }
        ensures malformed { self.new.malformed ≡ self.old.malformed }
        ensures block { self.new.block ≡ self.old.block }
        ensures end { self.new.end ≡ self.old.end }
    {
        let DetachedState::Open = self.state else {
            drop(placed);
            return Ok(());
        };
        let Placed { packet, block, pos } = placed;
        if is_detached_type(packet.kind()) {
            self.flat.push(packet)?;
        } else {
            drop(packet);
            self.refuse(Reason::NotASignature, block, pos);
        }
        Ok(())
    }

    /// Keeps a fault in the order of packets, if it is the first.
    fn refuse(&mut self, reason: Reason, block: u64, pos: u64)
        ensures state { (policy : Malformed) (given : List Item) (i : Item) → IsSoundItem policy i
            → IsDetachedFaultAt i (fault_at reason block pos)
            → IsDetachedIn policy self.old.state given self.old.flat.items
            → IsDetachedIn policy self.new.state (given ++ i ∷ []) self.new.flat.items }
        ensures malformed { self.new.malformed ≡ self.old.malformed }
        ensures block { self.new.block ≡ self.old.block }
        ensures end { self.new.end ≡ self.old.end }
    {
        if let DetachedState::Open = self.state {
            self.state = DetachedState::Disordered(Fault {
                layer: Layer::Composition,
                reason,
                block,
                pos,
                inner: 0,
            });
        }
    }

    /// Keeps a fault in a body, if it is the first.
    fn break_off(&mut self, fault: Fault)
        ensures state { (policy : Malformed) (given : List Item) (p : Placed)
            → IsFirstBodyFault policy (p ∷ []) fault
            → IsDetachedIn policy self.old.state given self.old.flat.items
            → IsDetachedIn policy self.new.state (given ++ of_packet p ∷ []) self.new.flat.items }
        ensures malformed { self.new.malformed ≡ self.old.malformed }
        ensures block { self.new.block ≡ self.old.block }
        ensures end { self.new.end ≡ self.old.end }
    {
        match self.state {
            DetachedState::Broken(_) => {}
            _ => self.state = DetachedState::Broken(fault),
        }
    }
}

/// Whether packets of the type may stand among detached signatures.
fn is_detached_type(kind: u8) -> bool
    ensures { result ≡ is_detached_type kind }
{
    kind == PacketType::Signature.number() || is_filler(kind)
}
