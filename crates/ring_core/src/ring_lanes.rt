ghost use Rattle.std.specs.Prelude.{◌≡◌, ℕ, ◌+◌, ◌%◌, ◌<◌, ◌≤◌, true, Some, None, List, [], replicate, ◌++◌, ◌-◌, length, map, filter, not, ◌==◌, find, IfOk, IsTrue, vec_capacity, slice_set, slice_index_or};
ghost use Rattle.rp_base.specs.declared.limits.TheConstants.{BOOK_MOST, MESSAGE_MOST};
ghost use Rattle.rp_base.specs.Limits.{IsRingSize, ring_capacity};
ghost use Rattle.ring_core.specs.Rings.{sizes_of, entry_of, opened_returns, buffer_at, source_buffer, return_count, entry_length};
ghost use Rattle.ring_core.specs.RingSteps.{held_buffer, hands_without, hands_of_others, buffers_of};

use crate::states::{Hand, RingSizes};
use lane_model::{
    CallEnd, Desk, GiveStage, Holding, LaneBook, LaneForm, LaneRoom, ListLane, MANAGER, SendStage,
    Step, TakeStage, Turn, Work,
};
use rp_base::{CAPACITY_MOST, CallerNo, Da, Era, Inc, Message, NoMemory, ring_capacity};
use std::alloc::Global;
use std::marker::Model;
use vring_layout::{AvailableWords, RingWords, UsedWord, UsedWords};

/// A lane as two rings and numbered buffers. The sender publishes buffers in the forward ring, the
/// receiver gives them back in the return ring, and each end decides by the other's index.
#[derive(Drop)]
pub struct RingLane<D: Desk> {
    lane: ListLane<D>,
    sizes: RingSizes,
    forward_index: u16,
    return_index: u16,
    forward: Vec<UsedWord>,
    returns: Vec<UsedWord>,
    sending: u32,
    taking: u32,
    hands: Vec<Hand>,
    aside: Vec<u32>,
    buffers: Vec<Message>,
}

impl<D: Desk> Model for RingLane<D> {
    ghost use Rattle.ring_core.specs.declared.states.RingState.{RingState};

    ghost Value = { RingState D };

    ghost use Rattle.ring_core.specs.RingLanes.{state_of, IsRingInside};

    ghost view = { state_of };

    ghost invariant = { IsRingInside };
}

impl<D: Desk> RingLane<D> {
    ghost use Rattle.lane_model.specs.declared.stages.SendStage.TheVariants as send_stage;
    ghost use Rattle.ring_core.specs.RingLinks.{opened_ring_lane};
    ghost use Rattle.ring_core.specs.RingWords.{index_of, entry_in, words_of};
    ghost use Rattle.ring_core.specs.SoundRings.{IsSoundRings};
    ghost use Rattle.lane_model.specs.Sends.{sender_step};
    ghost use Rattle.lane_model.specs.Receives.{receiver_step};
    ghost use Rattle.lane_model.specs.Answers.{outcome_of};
    ghost use Rattle.ring_core.specs.RingSteps.{ring_form};
    ghost use Rattle.ring_core.specs.RingLanes.{stage_of, work_of};
    ghost use Rattle.rp_base.specs.declared.kinds.Era.{Era};
    ghost use Rattle.lane_model.specs.declared.calls.CallEnd.{CallEnd};
    ghost use Rattle.lane_model.specs.declared.stages.Turn.TheVariants as turn;
    ghost use Rattle.lane_model.specs.declared.stages.Receiving.{Receiving};
    ghost use Rattle.lane_model.specs.declared.stages.Work.TheVariants as work;
    ghost use Rattle.lane_model.specs.declared.stages.TakeStage.TheVariants as take_stage;
    ghost use Rattle.lane_model.specs.declared.stages.GiveStage.TheVariants as give_stage;
    ghost use Rattle.lane_model.specs.Lanes.{is_live_in, has_call, holder};
    ghost use Rattle.ring_core.specs.RingSteps.{by_call, send_leaves, receive_leaves};

    /// An empty lane whose rings have so many entries, with a book of so many messages. The device
    /// sends on it, or the driver. Takes all its room at once.
    pub fn make(
        alloc: Global,
        entries: u32,
        device_sends: bool,
        book: u32,
        desk: D,
    ) -> Result<RingLane<D>, NoMemory>
        requires entries { IsRingSize entries }
        requires book { book ≤ BOOK_MOST }
        ensures { IfOk result (λ lane. lane ≡ opened_ring_lane entries device_sends book desk) }
    {
        let sizes = ring_sizes(entries, device_sends);
        Ok(RingLane {
            lane: ListLane::make(alloc, sizes.capacity, book, desk)?,
            sizes,
            forward_index: 0,
            return_index: sizes.capacity - sizes.own,
            forward: empty_ring(alloc, sizes.entries)?,
            returns: stocked_returns(alloc, sizes)?,
            sending: 0,
            taking: 0,
            hands: Vec::with_capacity(alloc, CAPACITY_MOST as usize)?,
            aside: Vec::with_capacity(alloc, CAPACITY_MOST as usize)?,
            buffers: empty_buffers(alloc, sizes.capacity)?,
        })
    }

    /// The index of the return ring, or of the forward ring: how many entries were published, modulo
    /// 65,536. Its readers also learn that the rings are sound, which is what a lane of rings keeps.
    pub fn index(&self, returns: bool) -> u16
        ensures index { result ≡ index_of self.now.rings returns }
        ensures sound { IsSoundRings self.now }
    {
        if returns {
            self.return_index
        } else {
            self.forward_index
        }
    }

    /// An entry of the return ring, or of the forward ring. An entry of an available ring has the
    /// length 0.
    pub fn entry(&self, returns: bool, place: u32) -> UsedWord
        requires { place < self.now.rings.sizes.entries }
        ensures entry { result ≡ entry_in self.now.rings returns place }
        ensures sound { IsSoundRings self.now }
    {
        if returns {
            entry_in(&self.returns, place)
        } else {
            entry_in(&self.forward, place)
        }
    }

    /// The words of the lane, whose buffers begin at this address.
    ///
    /// Errors: only if memory runs out.
    pub fn words(&self, alloc: Global, base: Da) -> Result<RingWords, NoMemory>
        ensures words { IfOk result (λ words. words ≡ words_of self.now.rings base) }
        ensures sound { IsSoundRings self.now }
        ensures sizes { IfOk result (λ words. IsRingSize words.num × (words.capacity ≡ ring_capacity words.num)) }
        ensures long { IfOk result (λ words. (length words.avail ≡ words.num) × (length words.used ≡ words.num)) }
    {
        let device_writes = self.sizes.own == 0;
        let (avail, used) = if device_writes {
            (&self.returns, &self.forward)
        } else {
            (&self.forward, &self.returns)
        };
        Ok(RingWords {
            num: self.sizes.entries,
            capacity: self.sizes.capacity,
            base,
            device_writes,
            avail_idx: self.index(device_writes),
            used_idx: self.index(!device_writes),
            avail: AvailableWords::of(buffers_of(alloc, avail)?),
            used: UsedWords::of(used.to_vec(alloc)?),
        })
    }

    /// The sizes of the rings.
    pub fn sizes(&self) -> RingSizes
        ensures { result ≡ self.now.rings.sizes }
    {
        self.sizes
    }

    /// Who has the sender's turn.
    pub fn sender_holder(&self) -> Option<CallerNo>
        ensures { result ≡ holder self.now.lane.sender }
    {
        self.lane.sender_holder()
    }

    /// Who has the receiver's turn.
    pub fn receiver_holder(&self) -> Option<CallerNo>
        ensures { result ≡ holder self.now.lane.receiver }
    {
        match self.lane.receiver() {
            Turn::Free => None,
            Turn::Taken(caller, _) => Some(*caller),
            Turn::Leaving(caller, _) => Some(*caller),
            Turn::Manager => Some(MANAGER),
        }
    }

    /// The desk that goes with the receiver's turn.
    pub fn desk(&self) -> &D
        ensures { result.now ≡ self.now.lane.desk }
    {
        self.lane.desk()
    }

    /// How many buffers are back, as the sender finds by the index of the return ring.
    fn returned_seen(&self) -> u64
        ensures { result ≡ self.now.lane.lane.returned }
    {
        let accepted = self.lane.accepted();
        let coming = self
            .return_index
            .wrapping_add(self.sizes.own)
            .wrapping_sub((accepted % 65536) as u16);
        accepted + u64::from(coming) - u64::from(self.sizes.capacity)
    }

    /// How many messages were accepted, as the receiver finds by the index of the forward ring.
    fn accepted_seen(&self) -> u64
        ensures { result ≡ length self.now.lane.lane.accepted }
    {
        let handed = self.lane.handed();
        let waiting = self.forward_index.wrapping_sub((handed % 65536) as u16);
        handed + u64::from(waiting)
    }

    /// Step 3 of a send: looks for a buffer by the return index.
    fn look_for_room(&mut self) -> Step
        requires { stage_of self.old.lane.sender ≡ Some send_stage.Era }
        ensures left { (era : Era) → self.new ≡ (ring_form D.meaning).sent_on self.old era }
        ensures outcome { (era : Era) (end : CallEnd) → outcome_of result end ≡ (sender_step era self.old.lane).outcome }
    {
        let returned = self.returned_seen();
        self.lane.look_for_room(returned);
        Step::At(3)
    }

    /// The buffer that the next send takes: of the sender's own list, or of the return ring.
    fn source(&self) -> u32
        ensures { let rings = self.now.rings in result ≡ source_buffer rings.sizes.entries rings.sizes.own rings.returns (length self.now.lane.lane.accepted) }
    {
        let number = self.lane.accepted();
        let own = u64::from(self.sizes.own);
        if number < own {
            number as u32
        } else {
            buffer_at(&self.returns, self.sizes.entries, number - own)
        }
    }

    /// Step 4 of a send: reads which buffer it has.
    fn read_source(&mut self, era: Era, end: &mut CallEnd) -> Step
        requires { stage_of self.old.lane.sender ≡ Some send_stage.Look }
        ensures left { self.new ≡ (ring_form D.meaning).sent_on self.old era }
        ensures outcome { outcome_of result end.new ≡ (sender_step era self.old.lane).outcome }
    {
        self.sending = self.source();
        self.lane.advance_send(era, end)
    }

    /// Step 5 of a send: writes the message into the buffer, and stores the buffer's entry.
    fn store_message(&mut self, era: Era, end: &mut CallEnd) -> Step
        requires { stage_of self.old.lane.sender ≡ Some send_stage.Buffer }
        ensures left { self.new ≡ (ring_form D.meaning).sent_on self.old era }
        ensures outcome { outcome_of result end.new ≡ (sender_step era self.old.lane).outcome }
    {
        let accepted = self.lane.accepted();
        let message = self.lane.outgoing();
        let len = entry_length(self.sizes, message);
        fill(&mut self.buffers, self.sending, message);
        let entry = UsedWord {
            id: self.sending,
            len,
        };
        store_at(&mut self.forward, self.sizes.entries, accepted, entry);
        self.lane.advance_send(era, end)
    }

    /// Step 6 of a send: publishes the entry.
    fn publish_message(&mut self, era: Era, end: &mut CallEnd) -> Step
        requires { stage_of self.old.lane.sender ≡ Some send_stage.Entry }
        ensures left { self.new ≡ (ring_form D.meaning).sent_on self.old era }
        ensures outcome { outcome_of result end.new ≡ (sender_step era self.old.lane).outcome }
    {
        self.forward_index = self.forward_index.wrapping_add(1);
        self.lane.advance_send(era, end)
    }

    /// Step 3 of a take: looks for a message by the forward index.
    fn look_for_message(&mut self) -> Step
        requires { work_of self.old.lane.receiver ≡ Some (work.Take take_stage.Era) }
        ensures left { (era : Era) → self.new ≡ (ring_form D.meaning).received_on self.old era }
        ensures outcome { (era : Era) (end : CallEnd) → outcome_of result end ≡ (receiver_step D.meaning era self.old.lane).outcome }
    {
        let accepted = self.accepted_seen();
        self.lane.look_for_message(accepted);
        Step::At(3)
    }

    /// Step 4 of a take: reads which buffer has the next message.
    fn read_message(&mut self, era: Era, end: &mut CallEnd) -> Step
        requires { work_of self.old.lane.receiver ≡ Some (work.Take take_stage.Look) }
        ensures left { self.new ≡ (ring_form D.meaning).received_on self.old era }
        ensures outcome { outcome_of result end.new ≡ (receiver_step D.meaning era self.old.lane).outcome }
    {
        self.taking = buffer_at(&self.forward, self.sizes.entries, self.lane.handed());
        self.lane.advance_receive(era, end)
    }

    /// Step 5 of a take in a live era: the buffer that it has out is the caller's, and the desk judges
    /// the message in it.
    fn hand(&mut self, caller: CallerNo)
        requires work { work_of self.old.lane.receiver ≡ Some (work.Take take_stage.Buffer) }
        requires caller { holder self.old.lane.receiver ≡ Some caller }
        ensures { (era : Era) (r : Receiving) → self.old.lane.receiver ≡ turn.Taken caller r → is_live_in era r.follows ≡ true
            → self.new ≡ (ring_form D.meaning).received_on self.old era }
    {
        let number = self.lane.handed();
        self.lane.hand(&self.buffers[self.taking as usize]);
        self.hands.push_reserved(Hand {
            number,
            caller,
            buffer: self.taking,
        });
    }

    /// A step of a send in which no word of the rings is read or written.
    fn send_without_rings(&mut self, era: Era, end: &mut CallEnd) -> Step
        requires calling { (caller : ℕ) × (has_call self.old.lane.sender caller ≡ true) }
        requires rings { by_call self.old.lane.sender self.old.rings (λ caller call. send_leaves self.old.rings (length self.old.lane.lane.accepted) call.message call.stage) ≡ self.old.rings }
        ensures left { self.new ≡ (ring_form D.meaning).sent_on self.old era }
        ensures outcome { outcome_of result end.new ≡ (sender_step era self.old.lane).outcome }
    {
        self.lane.advance_send(era, end)
    }

    /// A step of a call that has the receiver's turn, in which no word of the rings is read or written.
    fn receive_without_rings(&mut self, era: Era, end: &mut CallEnd) -> Step
        requires calling { (caller : ℕ) × (has_call self.old.lane.receiver caller ≡ true) }
        requires rings { by_call self.old.lane.receiver self.old.rings (λ caller call. receive_leaves self.old (is_live_in era call.follows) caller call.work) ≡ self.old.rings }
        ensures left { self.new ≡ (ring_form D.meaning).received_on self.old era }
        ensures outcome { outcome_of result end.new ≡ (receiver_step D.meaning era self.old.lane).outcome }
    {
        self.lane.advance_receive(era, end)
    }

    /// Step 2 of a give: stores the entry of the buffer of this message.
    fn store_return(&mut self, number: u64, era: Era, end: &mut CallEnd) -> Step
        requires { work_of self.old.lane.receiver ≡ Some (work.Give number give_stage.Turn) }
        ensures left { self.new ≡ (ring_form D.meaning).received_on self.old era }
        ensures outcome { outcome_of result end.new ≡ (receiver_step D.meaning era self.old.lane).outcome }
    {
        let published = u64::from(self.sizes.capacity - self.sizes.own) + self.lane.returned();
        let entry = ring_entry(held_buffer(&self.hands, number));
        store_at(&mut self.returns, self.sizes.entries, published, entry);
        self.lane.advance_receive(era, end)
    }

    /// Step 3 of a give: publishes the entry.
    fn publish_return(&mut self, number: u64, era: Era, end: &mut CallEnd) -> Step
        requires { work_of self.old.lane.receiver ≡ Some (work.Give number give_stage.Entry) }
        ensures left { self.new ≡ (ring_form D.meaning).received_on self.old era }
        ensures outcome { outcome_of result end.new ≡ (receiver_step D.meaning era self.old.lane).outcome }
    {
        remove_hand(&mut self.hands, number);
        self.return_index = self.return_index.wrapping_add(1);
        self.lane.advance_receive(era, end)
    }
}

impl<D: Desk> LaneForm for RingLane<D> {
    ghost use Rattle.std.specs.Prelude.{refl};
    ghost use Rattle.ring_core.specs.RingSteps.{ring_form};

    type Desk = D;

    ghost form = { ring_form D.meaning };

    ghost is_form = { record {
      after_send_start = λ lane caller follows message. refl;
      after_receive_start = λ lane caller follows first. refl;
      sent_on = λ lane era. refl;
      received_on = λ lane era. refl;
      after_send_end = λ lane caller. refl;
      after_receive_end = λ lane caller. refl;
      link_after_reopen = λ lane. refl;
    } };

    fn is_sending(&self, caller: CallerNo) -> bool {
        self.lane.is_sending(caller)
    }

    fn is_receiving(&self, caller: CallerNo) -> bool {
        self.lane.is_receiving(caller)
    }

    fn holds(&self, number: u64, caller: CallerNo) -> bool {
        self.lane.holds(number, caller)
    }

    fn accepted(&self) -> u64 {
        self.lane.accepted()
    }

    fn handed(&self) -> u64 {
        self.lane.handed()
    }

    fn returned(&self) -> u64 {
        self.lane.returned()
    }

    fn message(&self, number: u64) -> Option<&[u8]> {
        self.lane.message(number)
    }

    fn begin_send(
        &mut self,
        caller: CallerNo,
        follows: Inc,
        head: &[u8],
        body: &[u8],
    ) -> Option<CallerNo> {
        self.lane.begin_send(caller, follows, head, body)
    }

    fn begin_receive(&mut self, caller: CallerNo, follows: Inc, first: Work) -> Option<CallerNo> {
        self.lane.begin_receive(caller, follows, first)
    }

    fn advance_send(&mut self, era: Era, end: &mut CallEnd) -> Step {
        match self.lane.send_stage() {
            Some(SendStage::Era) => self.look_for_room(),
            Some(SendStage::Look) => self.read_source(era, end),
            Some(SendStage::Buffer) => self.store_message(era, end),
            Some(SendStage::Entry) => self.publish_message(era, end),
            Some(SendStage::Turn) | None => self.send_without_rings(era, end),
        }
    }

    fn advance_receive(&mut self, era: Era, end: &mut CallEnd) -> Step {
        let (caller, follows, work) = match self.lane.receiver() {
            Turn::Taken(caller, receiving) => (*caller, receiving.follows, receiving.work),
            Turn::Free | Turn::Leaving(_, _) | Turn::Manager => {
                return self.receive_without_rings(era, end);
            }
        };
        match work {
            Work::Take(TakeStage::Era) => self.look_for_message(),
            Work::Take(TakeStage::Look) => self.read_message(era, end),
            Work::Take(TakeStage::Buffer) => {
                if era.inc == follows && era.is_live {
                    self.hand(caller);
                    Step::At(5)
                } else {
                    self.receive_without_rings(era, end)
                }
            }
            Work::Give(number, GiveStage::Turn) => self.store_return(number, era, end),
            Work::Give(number, GiveStage::Entry) => self.publish_return(number, era, end),
            Work::Take(TakeStage::Turn) | Work::Bind(_) | Work::Unbind(_) => {
                self.receive_without_rings(era, end)
            }
        }
    }

    fn book(&self) -> u32 {
        self.lane.book()
    }

    fn has_held(&self, caller: CallerNo) -> bool {
        self.lane.has_held(caller)
    }

    fn needed_holder(&self, caller: CallerNo) -> Option<CallerNo> {
        self.lane.needed_holder(caller)
    }

    fn turn_out(&self) -> Option<CallerNo> {
        self.lane.turn_out()
    }

    fn least_held(&self) -> Option<Holding> {
        self.lane.least_held()
    }

    fn end_send(&mut self, caller: CallerNo) {
        self.lane.end_send(caller);
    }

    fn end_receive(&mut self, caller: CallerNo) {
        put_aside(&self.hands, &mut self.aside, caller);
        remove_hands(&mut self.hands, caller);
        self.lane.end_receive(caller);
    }

    fn reopen(&mut self, room: LaneRoom) -> LaneBook {
        self.forward_index = 0;
        self.return_index = self.sizes.capacity - self.sizes.own;
        self.forward.clear();
        fill_up(&mut self.forward, self.sizes.entries);
        restock(&mut self.returns, self.sizes);
        self.sending = 0;
        self.taking = 0;
        self.hands.clear();
        self.aside.clear();
        self.lane.reopen(room)
    }

    fn send_at_once(
        &mut self,
        caller: CallerNo,
        _era: Era,
        head: &[u8],
        body: &[u8],
        end: &mut CallEnd,
    ) -> bool {
        let returned = self.returned_seen();
        if !self.lane.sends_at_once(returned) {
            return false;
        }
        let number = self.lane.accepted();
        let buffer = self.source();
        let message = &mut self.buffers[buffer as usize];
        message.set(head, body);
        self.lane.accept_at_once(caller, message);
        let entry = UsedWord {
            id: buffer,
            len: entry_length(self.sizes, message),
        };
        store_at(&mut self.forward, self.sizes.entries, number, entry);
        self.sending = buffer;
        self.forward_index = self.forward_index.wrapping_add(1);
        *end = CallEnd::Sent(number);
        true
    }

    fn take_at_once(&mut self, caller: CallerNo, _era: Era, end: &mut CallEnd) -> bool {
        let accepted = self.accepted_seen();
        if !self.lane.takes_at_once(accepted) {
            return false;
        }
        let number = self.lane.handed();
        let buffer = buffer_at(&self.forward, self.sizes.entries, number);
        self.lane
            .hand_at_once(caller, &self.buffers[buffer as usize], end);
        self.taking = buffer;
        self.hands.push_reserved(Hand {
            number,
            caller,
            buffer,
        });
        true
    }

    fn give_at_once(
        &mut self,
        number: u64,
        caller: CallerNo,
        _era: Era,
        end: &mut CallEnd,
    ) -> bool {
        if !self.lane.gives_at_once() {
            return false;
        }
        let published = u64::from(self.sizes.capacity - self.sizes.own) + self.lane.returned();
        let entry = ring_entry(held_buffer(&self.hands, number));
        store_at(&mut self.returns, self.sizes.entries, published, entry);
        remove_hand(&mut self.hands, number);
        self.return_index = self.return_index.wrapping_add(1);
        self.lane.return_at_once(number, caller);
        *end = CallEnd::Gave(number);
        true
    }
}

/// The sizes of rings of so many entries.
fn ring_sizes(entries: u32, device_sends: bool) -> RingSizes
    ensures { result ≡ sizes_of entries device_sends }
{
    let capacity = ring_capacity(entries);
    RingSizes {
        entries,
        capacity,
        own: if device_sends { 0 } else { capacity },
    }
}

/// An entry that holds nothing but the number of a buffer.
fn ring_entry(id: u32) -> UsedWord
    ensures { result ≡ entry_of id }
{
    UsedWord { id, len: 0 }
}

/// The buffer that the entry of this count names.
fn buffer_at(ring: &[UsedWord], entries: u32, count: u64) -> u32
    requires long { length ring.now ≡ entries }
    requires some { 1 ≤ entries }
    ensures { result ≡ buffer_at entries ring.now count }
{
    ring[(count % u64::from(entries)) as usize].id
}

/// The entry at this place.
fn entry_in(ring: &[UsedWord], place: u32) -> UsedWord
    requires { place < length ring.now }
    ensures { result ≡ slice_index_or ring.now place (entry_of 0) }
{
    ring[place as usize]
}

/// The buffers that the entries of a ring name, 16 bits each.
fn buffers_of(alloc: Global, ring: &[UsedWord]) -> Result<Vec<u16>, NoMemory>
    ensures { IfOk result (λ buffers. buffers.items ≡ map (λ entry. entry.id % 65536) ring.now) }
{
    let mut buffers = Vec::with_capacity(alloc, ring.len())?;
    for entry in ring {
        buffers.push((entry.id % 65536) as u16)?;
    }
    Ok(buffers)
}

/// Stores the entry of this count.
fn store_at(ring: &mut Vec<UsedWord>, entries: u32, count: u64, entry: UsedWord)
    requires long { length ring.old.items ≡ entries }
    requires some { 1 ≤ entries }
    ensures { ring.new.items ≡ slice_set ring.old.items (count % entries) entry }
{
    ring[(count % u64::from(entries)) as usize] = entry;
}

/// The length in the entry of a message.
fn entry_length(sizes: RingSizes, message: &Message) -> u32
    ensures { result ≡ entry_length sizes (length message.now) }
{
    if sizes.own == 0 {
        message.bytes().len() as u32
    } else {
        0
    }
}

/// Writes the bytes of a message into a buffer.
fn fill(buffers: &mut Vec<Message>, buffer: u32, message: &Message)
    requires { buffer < length buffers.old.items }
    ensures { buffers.new.items ≡ slice_set buffers.old.items buffer message.now }
{
    buffers[buffer as usize].set(message.bytes(), &[]);
}

/// Appends so many entries that hold nothing. Takes no memory.
fn fill_up(ring: &mut Vec<UsedWord>, count: u32)
    requires { length ring.old.items + count ≤ vec_capacity ring.old }
    ensures items { ring.new.items ≡ ring.old.items ++ replicate count (entry_of 0) }
    ensures room { vec_capacity ring.old ≤ vec_capacity ring.new }
{
    for _ in 0..count {
        ring.push_reserved(ring_entry(0));
    }
}

/// A ring in which nothing was stored.
fn empty_ring(alloc: Global, entries: u32) -> Result<Vec<UsedWord>, NoMemory>
    ensures { IfOk result (λ ring. ring.items ≡ replicate entries (entry_of 0)) }
{
    let mut ring = Vec::with_capacity(alloc, entries as usize)?;
    fill_up(&mut ring, entries);
    Ok(ring)
}

/// Makes the return ring that of an opening. Takes no memory.
fn restock(returns: &mut Vec<UsedWord>, sizes: RingSizes)
    requires own { sizes.own ≤ sizes.capacity }
    requires fits { sizes.capacity ≤ sizes.entries }
    requires room { sizes.entries ≤ vec_capacity returns.old }
    ensures items { returns.new.items ≡ opened_returns sizes }
{
    returns.clear();
    for id in sizes.own..sizes.capacity {
        returns.push_reserved(ring_entry(u32::from(id)));
    }
    fill_up(
        returns,
        sizes.entries - u32::from(sizes.capacity - sizes.own),
    );
}

/// The return ring at the opening.
fn stocked_returns(alloc: Global, sizes: RingSizes) -> Result<Vec<UsedWord>, NoMemory>
    requires own { sizes.own ≤ sizes.capacity }
    requires fits { sizes.capacity ≤ sizes.entries }
    ensures { IfOk result (λ returns. returns.items ≡ opened_returns sizes) }
{
    let mut returns = Vec::with_capacity(alloc, sizes.entries as usize)?;
    restock(&mut returns, sizes);
    Ok(returns)
}

/// Puts the buffers that this caller has in hand aside. Takes no memory.
fn put_aside(hands: &[Hand], aside: &mut Vec<u32>, caller: CallerNo)
    requires { length aside.old.items + length hands.now ≤ vec_capacity aside.old }
    ensures items { aside.new.items ≡ aside.old.items ++ buffers_of hands.now caller }
    ensures room { vec_capacity aside.old ≤ vec_capacity aside.new }
{
    for hand in hands {
        if hand.caller == caller {
            aside.push_reserved(hand.buffer);
        }
    }
}

/// Takes out the hands of this caller.
fn remove_hands(hands: &mut Vec<Hand>, caller: CallerNo)
    ensures rest { hands.new.items ≡ hands_of_others hands.old.items caller }
    ensures room { vec_capacity hands.new ≡ vec_capacity hands.old }
{
    hands.retain(|hand| !(hand.caller == caller));
}

/// So many buffers with no byte in them.
fn empty_buffers(alloc: Global, count: u16) -> Result<Vec<Message>, NoMemory>
    ensures { IfOk result (λ buffers. buffers.items ≡ replicate count []) }
{
    let mut buffers = Vec::with_capacity(alloc, usize::from(count))?;
    for _ in 0..count {
        buffers.push(Message::empty())?;
    }
    Ok(buffers)
}

/// The buffer in which the message of this number is held.
fn held_buffer(hands: &[Hand], number: u64) -> u32
    ensures { result ≡ held_buffer hands.now number }
{
    match hands.iter().find(|hand| hand.number == number) {
        Some(hand) => hand.buffer,
        None => 0,
    }
}

/// Takes out the hand that has the message of this number.
fn remove_hand(hands: &mut Vec<Hand>, number: u64)
    ensures rest { hands.new.items ≡ hands_without hands.old.items number }
    ensures room { vec_capacity hands.new ≡ vec_capacity hands.old }
{
    hands.retain(|hand| hand.number != number);
}
