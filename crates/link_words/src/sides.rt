//! What goes with a turn, in its slot.
ghost use Rattle.std.specs.Prelude.{◌≡◌, ◌+◌, ◌<◌, ◌≤◌, ◌^◌, ◌++◌, ◌∷◌, [], length, IfOk, vec_capacity};
ghost use Rattle.ring_core.specs.RingSteps.{held_buffer, hands_of_others, hands_without};
ghost use Rattle.rp_base.specs.declared.limits.TheConstants.{BOOK_MOST};
ghost use Rattle.link_words.specs.Fresh.{opened_sender};
ghost use Rattle.link_words.specs.Reopens.{lesser_hand, least_hand};
ghost use Rattle.link_words.specs.Steps.{accepted_side};
ghost use Rattle.std.specs.Fn.{FnOnceReturnsAt};
ghost use Rattle.rp_base.specs.declared.limits.TheConstants.{CAPACITY_MOST};

use crate::codes::DeskView;
use crate::desks::{DeskTable, open, shut};
use atomic_table::Badge;
use lane_model::{Book, Desk};
use ring_core::Hand;
use rp_base::{BindFault, CAPACITY_MOST, CallerNo, End, Endpoint, Message, NoMemory, Verdict};
use std::alloc::Global;
use std::marker::Model;
use std::mem;

/// The book of a lane: the messages that were accepted in this incarnation. It takes its room at once.
#[derive(Drop)]
pub struct SenderState {
    book: Book,
}

impl Model for SenderState {
    ghost use Rattle.std.specs.Prelude.{length};
    ghost use Rattle.link_words.specs.declared.rule.SenderSide.{SenderSide};

    ghost Value = { SenderSide };

    ghost view = { λ s. record { accepted = length s.book.entries; entries = s.book.entries; room = s.book.room } };
}

impl SenderState {
    /// Of a lane on which nothing was accepted, with room for so many messages.
    pub fn make(alloc: Global, book: u32) -> Result<SenderState, NoMemory>
        requires { book ≤ BOOK_MOST }
        ensures { IfOk result (λ side. side ≡ opened_sender book) }
    {
        Ok(SenderState {
            book: Book::with_room(alloc, book)?,
        })
    }

    /// How many messages were accepted.
    pub fn accepted(&self) -> u64
        ensures { result ≡ self.now.accepted }
    {
        self.book.len()
    }

    /// The next message is accepted, from this caller. It copies the message, and takes no memory.
    pub fn accept(&mut self, caller: CallerNo, message: &Message)
        requires { self.old.accepted < self.old.room }
        ensures { self.new ≡ accepted_side self.old caller message.now }
    {
        self.book.push(caller, message.bytes());
    }

    /// The book alone.
    pub fn into_book(self) -> Book
        ensures { result.entries ≡ self.entries }
    {
        let SenderState { book } = self;
        book
    }
}

/// The counts and the hands of a lane, to whom each message was handed, and the right to the desk of its receivers' end.
/// It takes its room at once, for as many hands as a lane has buffers and as many takers as its book has entries.
#[derive(Drop)]
pub struct ReceiverState {
    takers: Vec<CallerNo>,
    room: u32,
    returned: u64,
    hands: Vec<Hand>,
    end: End,
    desk: Badge<DeskView>,
}

impl Model for ReceiverState {
    ghost use Rattle.std.specs.Prelude.{◌≡◌, ◌≤◌, ◌∷◌, [], length, vec_capacity};
    ghost use Rattle.rp_base.specs.declared.limits.TheConstants.{CAPACITY_MOST};
    ghost use Rattle.link_words.specs.declared.rule.ReceiverSide.{ReceiverSide};
    ghost use Rattle.link_words.specs.DeskSeats.{code_in, home_view};

    ghost Value = { ReceiverSide };

    ghost view = { λ r. record { handed = length r.takers.items; takers = r.takers.items; room = r.room; returned = r.returned; hands = r.hands.items; desk = record { end = r.end; table = r.desk.table_id; code = code_in r.desk.views } } };

    ghost invariant = { λ r. (CAPACITY_MOST ≤ vec_capacity r.hands) × (r.room ≤ vec_capacity r.takers) × (r.desk.views ≡ home_view (code_in r.desk.views) ∷ []) };
}

impl ReceiverState {
    ghost use Rattle.link_words.specs.DeskSeats.{code_in, home_view};
    ghost use Rattle.link_words.specs.Fresh.{opened_receiver};

    /// Of a lane on which nothing was handed over, with room for so many takers and the seat of the desk's
    /// table.
    pub fn make(
        alloc: Global,
        book: u32,
        end: End,
        desk: Badge<DeskView>,
    ) -> Result<ReceiverState, NoMemory>
        requires { desk.views ≡ home_view (code_in desk.views) ∷ [] }
        ensures { IfOk result (λ side. side ≡ opened_receiver book (record { end = end; table = desk.table_id; code = code_in desk.views })) }
    {
        Ok(ReceiverState {
            takers: Vec::with_capacity(alloc, book as usize)?,
            room: book,
            returned: 0,
            hands: Vec::with_capacity(alloc, CAPACITY_MOST as usize)?,
            end,
            desk,
        })
    }

    /// The desk judges a message.
    pub fn deliver<D: Desk>(
        &mut self,
        desks: &DeskTable<D>,
        number: u64,
        message: &Message,
    ) -> Verdict
        requires { (self.old.desk.table ≡ desks.now.table_id) × (0 < desks.now.table_id.words) }
        ensures { (d : D) → self.old.desk.code ≡ D.row.coded.code d → (result ≡ D.meaning.verdict d number message.now)
            × (self.new ≡ record self.old { desk = record self.old.desk { code = D.row.coded.code (D.meaning.delivered d number message.now) } }) }
    {
        let mut seat = mem::replace(&mut self.desk, Badge::blank()).into_seat();
        open(desks, &mut seat);
        let verdict = seat.slot_mut(desks, 0).deliver(number, message);
        shut(desks, &mut seat);
        self.desk = seat.into_badge();
        verdict
    }

    /// The desk binds an endpoint, when `since` messages were handed over.
    pub fn bind<D: Desk>(
        &mut self,
        desks: &DeskTable<D>,
        address: u32,
        since: u64,
    ) -> Result<Endpoint, BindFault>
        requires { (self.old.desk.table ≡ desks.now.table_id) × (0 < desks.now.table_id.words) }
        ensures { (d : D) → self.old.desk.code ≡ D.row.coded.code d → (result ≡ D.meaning.bind_answer d address since)
            × (self.new ≡ record self.old { desk = record self.old.desk { code = D.row.coded.code (D.meaning.bound d address since) } }) }
    {
        let mut seat = mem::replace(&mut self.desk, Badge::blank()).into_seat();
        open(desks, &mut seat);
        let answer = seat.slot_mut(desks, 0).bind(address, since);
        shut(desks, &mut seat);
        self.desk = seat.into_badge();
        answer
    }

    /// The desk unbinds the endpoint at this address.
    pub fn unbind<D: Desk>(
        &mut self,
        desks: &DeskTable<D>,
        address: u32,
    ) -> Result<Endpoint, BindFault>
        requires { (self.old.desk.table ≡ desks.now.table_id) × (0 < desks.now.table_id.words) }
        ensures { (d : D) → self.old.desk.code ≡ D.row.coded.code d → (result ≡ D.meaning.unbind_answer d address)
            × (self.new ≡ record self.old { desk = record self.old.desk { code = D.row.coded.code (D.meaning.unbound d address) } }) }
    {
        let mut seat = mem::replace(&mut self.desk, Badge::blank()).into_seat();
        open(desks, &mut seat);
        let answer = seat.slot_mut(desks, 0).unbind(address);
        shut(desks, &mut seat);
        self.desk = seat.into_badge();
        answer
    }

    /// What is seen of the desk, which stays as it is.
    pub fn look<D: Desk, T, F: FnOnce(&D) -> T>(&mut self, desks: &DeskTable<D>, look: F) -> T
        requires desk { (self.old.desk.table ≡ desks.now.table_id) × (0 < desks.now.table_id.words) }
        requires look { F.IsAlwaysCallable look }
        ensures same { self.new ≡ self.old }
        ensures seen { (d : D) → self.old.desk.code ≡ D.row.coded.code d → FnOnceReturnsAt F.FnOnce look d result }
    {
        let mut seat = mem::replace(&mut self.desk, Badge::blank()).into_seat();
        open(desks, &mut seat);
        let seen = look(seat.slot_mut(desks, 0));
        shut(desks, &mut seat);
        self.desk = seat.into_badge();
        seen
    }

    /// A new incarnation begins: the desk is reset, and nothing is handed over. It takes the room for so many takers that is
    /// given, and hands the takers back that it had.
    pub fn reopen<D: Desk>(
        &mut self,
        desks: &DeskTable<D>,
        room: u32,
        takers: Vec<CallerNo>,
    ) -> Vec<CallerNo>
        requires desk { (self.old.desk.table ≡ desks.now.table_id) × (0 < desks.now.table_id.words) }
        requires room { (takers.items ≡ []) × (room ≤ vec_capacity takers) }
        ensures new { (d : D) → self.old.desk.code ≡ D.row.coded.code d → self.new ≡ opened_receiver room (record self.old.desk { code = D.row.coded.code (D.meaning.fresh d) }) }
        ensures takers { result.items ≡ self.old.takers }
    {
        self.reset_desk(desks);
        self.restart(room, takers)
    }

    /// Nothing is handed over, and there is room for other takers.
    fn restart(&mut self, room: u32, takers: Vec<CallerNo>) -> Vec<CallerNo>
        requires { (takers.items ≡ []) × (room ≤ vec_capacity takers) }
        ensures new { self.new ≡ opened_receiver room self.old.desk }
        ensures takers { result.items ≡ self.old.takers }
    {
        self.hands.clear();
        self.returned = 0;
        self.room = room;
        mem::replace(&mut self.takers, takers)
    }

    /// The desk is as in a new incarnation.
    fn reset_desk<D: Desk>(&mut self, desks: &DeskTable<D>)
        requires { (self.old.desk.table ≡ desks.now.table_id) × (0 < desks.now.table_id.words) }
        ensures new { (d : D) → self.old.desk.code ≡ D.row.coded.code d → self.new ≡ record self.old { desk = record self.old.desk { code = D.row.coded.code (D.meaning.fresh d) } } }
        ensures takers { self.new.takers ≡ self.old.takers }
    {
        let mut seat = mem::replace(&mut self.desk, Badge::blank()).into_seat();
        open(desks, &mut seat);
        seat.slot_mut(desks, 0).reset();
        shut(desks, &mut seat);
        self.desk = seat.into_badge();
    }

    /// Who holds the message of the least number, if anybody holds one, and the number.
    pub fn least_hand(&self) -> Option<Hand>
        ensures { result ≡ least_hand self.now.hands }
    {
        least_hand(&self.hands)
    }

    /// The end whose desk it has the right to.
    pub fn end(&self) -> End
        ensures { result ≡ self.now.desk.end }
    {
        self.end
    }

    /// How many messages were handed over.
    pub fn handed(&self) -> u64
        ensures { result ≡ self.now.handed }
    {
        self.takers.len() as u64
    }

    /// How many buffers were given back.
    pub fn returned(&self) -> u64
        ensures { result ≡ self.now.returned }
    {
        self.returned
    }

    /// The buffer in which the message of this number is in hand.
    pub fn buffer_of(&self, number: u64) -> u32
        ensures { result ≡ held_buffer self.now.hands number }
    {
        held_buffer(&self.hands, number)
    }

    /// The next message is in the hands of this caller, in this buffer.
    pub fn hand_over(&mut self, caller: CallerNo, buffer: u32)
        requires hands { length self.old.hands < CAPACITY_MOST }
        requires room { self.old.handed < self.old.room }
        ensures { self.new ≡ record self.old { handed = self.old.handed + 1; takers = self.old.takers ++ caller ∷ []; hands = self.old.hands ++ record { number = self.old.handed; caller = caller; buffer = buffer } ∷ [] } }
    {
        self.hands.push_reserved(Hand {
            number: self.takers.len() as u64,
            caller,
            buffer,
        });
        self.takers.push_reserved(caller);
    }

    /// The buffer of the message of this number is back.
    pub fn give_back(&mut self, number: u64)
        requires { self.old.returned < 2 ^ 60 }
        ensures { self.new ≡ record self.old { returned = self.old.returned + 1; hands = hands_without self.old.hands number } }
    {
        remove_hand(&mut self.hands, number);
        self.returned += 1;
    }

    /// What this caller has in hand is in no hand any more.
    pub fn put_aside(&mut self, caller: CallerNo)
        ensures { self.new ≡ record self.old { hands = hands_of_others self.old.hands caller } }
    {
        remove_hands_of(&mut self.hands, caller);
    }
}

/// The hand of the least number.
fn least_hand(hands: &[Hand]) -> Option<Hand>
    ensures { result ≡ least_hand hands.now }
{
    let mut least = None;
    for hand in hands {
        least = lesser_hand(least, *hand);
    }
    least
}

/// The hand of the lesser number.
fn lesser_hand(least: Option<Hand>, hand: Hand) -> Option<Hand>
    ensures { result ≡ lesser_hand least hand }
{
    match least {
        None => Some(hand),
        Some(found) => {
            if hand.number < found.number {
                Some(hand)
            } else {
                Some(found)
            }
        }
    }
}

/// The buffer in which the message of this number is in hand.
fn held_buffer(hands: &[Hand], number: u64) -> u32
    ensures { result ≡ held_buffer hands.now number }
{
    match hands.iter().find(|hand| hand.number == number) {
        Some(hand) => hand.buffer,
        None => 0,
    }
}

/// Takes out the hand that has the message of this number.
fn remove_hand(hands: &mut Vec<Hand>, number: u64)
    ensures rest { hands.new.items ≡ hands_without hands.old.items number }
    ensures room { vec_capacity hands.new ≡ vec_capacity hands.old }
{
    hands.retain(|hand| hand.number != number);
}

/// Takes out the hands of this caller.
fn remove_hands_of(hands: &mut Vec<Hand>, caller: CallerNo)
    ensures rest { hands.new.items ≡ hands_of_others hands.old.items caller }
    ensures room { vec_capacity hands.new ≡ vec_capacity hands.old }
{
    hands.retain(|hand| hand.caller != caller);
}
