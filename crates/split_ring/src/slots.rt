//! What is in a slot that is out with a seat, read and written in its place.
ghost use Rattle.std.specs.Prelude.{◌≡◌, ◌+◌, ◌<◌, ◌≤◌, ◌^◌, ℕ, List, length};
ghost use Rattle.rp_base.specs.declared.kinds.End.TheVariants as side;
ghost use Rattle.rp_base.specs.declared.limits.TheConstants.{CAPACITY_MOST};
ghost use Rattle.ring_core.specs.RingSteps.{held_buffer, hands_without};
ghost use Rattle.link_words.specs.declared.rule.ReceiverSide.{ReceiverSide};
ghost use Rattle.link_words.specs.declared.rule.SenderSide.{SenderSide};
ghost use Rattle.link_words.specs.declared.rule.Slot.TheVariants.{Buffer, Receiver, Sender};
ghost use Rattle.link_words.specs.Steps.{accepted_side, handed_side};
ghost use Rattle.link_words.specs.Reclaims.{without_hands};
ghost use Rattle.split_ring.specs.Carried.{turned_by};

use lane_model::Desk;
use link_words::{DeskTable, LinkSeat, ReceiverState, SenderState, Slot};
use rp_base::{CallerNo, End, Message, Verdict};
use std::snapshot::Snapshot;

/// How many messages were accepted, by the sender's side state, which is given for the proofs alone.
pub(crate) fn accepted_in(slot: &Slot) -> (u64, Snapshot<SenderState>)
    requires { (x : SenderSide) × (slot.now ≡ Sender x) }
    ensures { (x : SenderSide) → slot.now ≡ Sender x → (result.0 ≡ x.accepted) × (result.1.value ≡ x) }
{
    match slot {
        Slot::Sender(side) => (side.accepted(), Snapshot::of(side)),
        _ => unreachable!(),
    }
}

/// The message is accepted, from this caller.
pub(crate) fn accept_in(slot: &mut Slot, caller: CallerNo, message: &Message)
    requires { (x : SenderSide) × (slot.old ≡ Sender x) × (x.accepted < x.room) }
    ensures { (x : SenderSide) → slot.old ≡ Sender x → slot.new ≡ Sender (accepted_side x caller message.now) }
{
    if let Slot::Sender(side) = slot {
        side.accept(caller, message);
    }
}

/// The message is in the buffer. It writes as many bytes as the message has.
pub(crate) fn fill(slot: &mut Slot, message: &Message)
    ensures { slot.new ≡ Buffer message.now }
{
    match slot {
        Slot::Buffer(buffer) => buffer.set(message.bytes(), &[]),
        _ => *slot = Slot::Buffer(message.copy()),
    }
}

/// The message in the buffer is read. It writes as many bytes as the message has.
pub(crate) fn read_message(slot: &Slot, message: &mut Message)
    requires { (x : List ℕ) × (slot.now ≡ Buffer x) }
    ensures { (x : List ℕ) → slot.now ≡ Buffer x → message.new ≡ x }
{
    if let Slot::Buffer(found) = slot {
        message.set(found.bytes(), &[]);
    }
}

/// How many messages were handed over, by the receiver's side state.
pub(crate) fn handed_in(slot: &Slot) -> u64
    requires { (x : ReceiverSide) × (slot.now ≡ Receiver x) }
    ensures { (x : ReceiverSide) → slot.now ≡ Receiver x → result ≡ x.handed }
{
    match slot {
        Slot::Receiver(side) => side.handed(),
        _ => 0,
    }
}

/// How many buffers are back, by the receiver's side state, and the buffer in which the message of this
/// number is in hand.
pub(crate) fn returned_in(slot: &Slot, number: u64) -> (u64, u32)
    requires { (x : ReceiverSide) × (slot.now ≡ Receiver x) }
    ensures { (x : ReceiverSide) → slot.now ≡ Receiver x → (result.0 ≡ x.returned) × (result.1 ≡ held_buffer x.hands number) }
{
    match slot {
        Slot::Receiver(side) => (side.returned(), side.buffer_of(number)),
        _ => (0, 0),
    }
}

/// The buffer of the message of this number is back.
pub(crate) fn give_back_in(slot: &mut Slot, number: u64)
    requires { (x : ReceiverSide) × (slot.old ≡ Receiver x) × (x.returned < 2 ^ 60) }
    ensures { (x : ReceiverSide) → slot.old ≡ Receiver x → slot.new ≡ Receiver (record x { returned = x.returned + 1; hands = hands_without x.hands number }) }
{
    if let Slot::Receiver(side) = slot {
        side.give_back(number);
    }
}

/// What this caller has in hand is in no hand any more.
pub(crate) fn put_aside_in(slot: &mut Slot, caller: CallerNo)
    requires { (x : ReceiverSide) × (slot.old ≡ Receiver x) }
    ensures { (x : ReceiverSide) → slot.old ≡ Receiver x → slot.new ≡ Receiver (without_hands x caller) }
{
    if let Slot::Receiver(side) = slot {
        side.put_aside(caller);
    }
}

/// The first slots that are out, so many of them, go after the others.
pub(crate) fn turn_by(seat: &mut LinkSeat, count: u8)
    ensures same { (seat.new.table_id ≡ seat.old.table_id) × (seat.new.id ≡ seat.old.id) }
    ensures turned { seat.new.me ≡ (seat.old.me.0, turned_by count seat.old.me.1) }
{
    for _ in 0..count {
        seat.turn();
    }
}
