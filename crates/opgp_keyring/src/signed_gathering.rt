//! Gathering the packets of a signed literal.

ghost use Rattle.std.specs.Prelude.{◌≡◌, ◌≤◌, ◌++◌, ◌∷◌, [], List, length, true, false};
ghost use Rattle.std.specs.Prelude.{MatchResult, OnOk};
ghost use Rattle.opgp_octets.specs.declared.malformed.Malformed.{Malformed};
ghost use Rattle.opgp_keyring.specs.Bodies.{IsSound, IsFirstBodyFault};
ghost use Rattle.opgp_keyring.specs.Composed.{IsSoundItem};
ghost use Rattle.opgp_keyring.specs.Composition.{Item, of_label, of_packet, packets_in, fault_at};
ghost use Rattle.opgp_keyring.specs.Signed.{IsSignedFaultAt, IsSignedFaultBy, IsSignedOf, told_end};
ghost use Rattle.opgp_keyring.specs.SignedState.{IsSignedIn, is_open, opened_in};

use crate::block_of::BlockOf;
use crate::checking::check_packets;
use crate::shape::Shape;
use crate::signed_literal::SignedLiteral;
use opgp_frame::{Packet, Placed, PlacedView};
use opgp_octets::{Fault, Layer, Malformed, OutOfMemory, Reason};
use std::alloc::Global;
use std::slice;

/// The state of the gathering of a signed literal.
#[derive(Clone, Copy)]
enum SignedState {
    /// The packets so far begin a signed literal.
    Open(Shape),
    /// After a fault in the order of packets; a body may still be at fault.
    Disordered(Fault),
    /// After a fault in a body.
    Broken(Fault),
}

/// A signed literal in the making (RFC 9580, 10.3), of packets that come one at a time.
#[derive(Drop)]
pub struct SignedGathering {
    alloc: Global,
    malformed: Malformed,
    flat: Vec<Packet>,
    state: SignedState,
    block: u64,
    end: u64,
    ghost counted: { opened_in state ≤ length flat.items },
}

impl SignedGathering {
    ghost use Rattle.opgp_frame.specs.View.{viewed};
    ghost use Rattle.opgp_frame.specs.declared.packet.Placed.{Placed};
    ghost use Rattle.opgp_keyring.specs.Block.{block_items};
    ghost use Rattle.opgp_keyring.specs.SignedGathering.{GathersSigned};
    ghost use Rattle.opgp_keyring.specs.SignedLiteral.{signed_packets};

    /// An empty one, by this policy for malformed signatures. Allocates nothing; additions do, from
    /// `alloc`.
    pub fn new(alloc: Global, malformed: Malformed) -> SignedGathering
        ensures { GathersSigned malformed result [] }
    {
        SignedGathering {
            alloc,
            malformed,
            flat: Vec::new(alloc),
            state: SignedState::Open(Shape::Opening(0)),
            block: 0,
            end: 0,
        }
    }

    pub(crate) fn add_block(&mut self, block: BlockOf) -> Result<(), OutOfMemory>
        ensures { OnOk result ((policy : Malformed) (given : List Item)
            → GathersSigned policy self.old given
            → GathersSigned policy self.new (given ++ block_items block)) }
    {
        let BlockOf {
            block,
            label_fits,
            packets,
        } = block;
        self.begin_block(block, label_fits);
        for placed in packets {
            self.add(placed)?;
        }
        Ok(())
    }

    /// Begins a block of this number, whose label is the expected one or not. Allocates nothing.
    pub fn begin_block(&mut self, block: u64, label_fits: bool)
        ensures { (policy : Malformed) (given : List Item) → GathersSigned policy self.old given
            → GathersSigned policy self.new (given ++ of_label block label_fits ∷ []) }
    {
        self.block = block;
        self.end = 0;
        if !label_fits {
            self.refuse(Reason::BlockLabel, block, 0);
        }
    }

    /// Adds the next packet of the block. Fails only when out of memory; the signed literal is lost
    /// then.
    pub fn add(&mut self, placed: Placed) -> Result<(), OutOfMemory>
        ensures { OnOk result ((policy : Malformed) (given : List Item)
            → GathersSigned policy self.old given
            → GathersSigned policy self.new (given ++ of_packet placed ∷ [])) }
    {
        self.end = placed.pos.saturating_add(placed.packet.spelled_len());
        match check_packets(slice::from_ref(&placed), self.malformed) {
            Some(fault) => {
                drop(placed);
                self.break_off(fault);
                Ok(())
            }
            None => {
                self.keep(placed)?;
                Ok(())
            }
        }
    }

    /// The same with a packet that is lent, which is copied.
    pub fn add_view(&mut self, placed: PlacedView<'_>) -> Result<(), OutOfMemory>
        ensures { OnOk result ((policy : Malformed) (given : List Item)
            → GathersSigned policy self.old given
            → GathersSigned policy self.new (given ++ of_packet (viewed placed.entry) ∷ [])) }
    {
        let placed = placed.copy(self.alloc)?;
        self.add(placed)
    }

    /// The signed literal of what was added, or the one fault: that of the first body that has one,
    /// else the first in the order, where a block's label comes before its packets. If packets are
    /// missing, that is at the end of the last block.
    ///
    /// The condition is that no addition failed. An end past 2^64 - 1 is reported as that place.
    /// Allocates nothing.
    pub fn finish(self) -> Result<SignedLiteral, Fault>
        requires { (policy : Malformed) × ((items : List Item) × GathersSigned policy self items) }
        ensures { (policy : Malformed) (items : List Item) → GathersSigned policy self items
            → MatchResult result (λ l. IsSignedOf policy items (signed_packets l))
            (IsSignedFaultBy policy (told_end items) items) }
    {
        let SignedGathering {
            alloc: _,
            malformed: _,
            flat,
            state,
            block,
            end,
        } = self;
        match state {
            SignedState::Open(shape) if shape.is_whole() => Ok(SignedLiteral::new(flat)),
            SignedState::Open(_) => Err(Fault {
                layer: Layer::Composition,
                reason: Reason::NotASignedLiteral,
                block,
                pos: end,
                inner: 0,
            }),
            SignedState::Disordered(fault) | SignedState::Broken(fault) => Err(fault),
        }
    }

    /// Keeps a packet whose body has no fault, if a signed literal can begin so.
    fn keep(&mut self, placed: Placed) -> Result<(), OutOfMemory>
        ensures state { OnOk result ((policy : Malformed) (given : List Item)
            → IsSound policy placed
            → IsSignedIn policy self.old.state given self.old.flat.items
            → IsSignedIn policy self.new.state (given ++ of_packet placed ∷ [])
            self.new.flat.items) }
        ensures malformed { self.new.malformed ≡ self.old.malformed }
        ensures block { self.new.block ≡ self.old.block }
        ensures end { self.new.end ≡ self.old.end }
    {
        let SignedState::Open(shape) = self.state else {
            drop(placed);
            return Ok(());
        };
        let Placed { packet, block, pos } = placed;
        match shape.next(packet.kind()) {
            Some(next) => {
                self.flat.push(packet)?;
                self.state = SignedState::Open(next);
            }
            None => {
                drop(packet);
                self.refuse(Reason::NotASignedLiteral, block, pos);
            }
        }
        Ok(())
    }

    /// Keeps a fault in the order of packets, if it is the first.
    fn refuse(&mut self, reason: Reason, block: u64, pos: u64)
        ensures state { (policy : Malformed) (given : List Item) (i : Item) → IsSoundItem policy i
            → (is_open self.old.state ≡ true
            → IsSignedFaultAt (packets_in given) i (fault_at reason block pos))
            → IsSignedIn policy self.old.state given self.old.flat.items
            → IsSignedIn policy self.new.state (given ++ i ∷ []) self.new.flat.items }
        ensures malformed { self.new.malformed ≡ self.old.malformed }
        ensures block { self.new.block ≡ self.old.block }
        ensures end { self.new.end ≡ self.old.end }
    {
        if let SignedState::Open(_) = self.state {
            self.state = SignedState::Disordered(Fault {
                layer: Layer::Composition,
                reason,
                block,
                pos,
                inner: 0,
            });
        }
    }

    /// Keeps a fault in a body, if it is the first.
    fn break_off(&mut self, fault: Fault)
        ensures state { (policy : Malformed) (given : List Item) (p : Placed)
            → IsFirstBodyFault policy (p ∷ []) fault
            → IsSignedIn policy self.old.state given self.old.flat.items
            → IsSignedIn policy self.new.state (given ++ of_packet p ∷ []) self.new.flat.items }
        ensures malformed { self.new.malformed ≡ self.old.malformed }
        ensures block { self.new.block ≡ self.old.block }
        ensures end { self.new.end ≡ self.old.end }
    {
        match self.state {
            SignedState::Broken(_) => {}
            _ => self.state = SignedState::Broken(fault),
        }
    }
}
