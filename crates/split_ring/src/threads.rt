//! What may cross threads.
use crate::callers::{Caller, Manager};
use crate::calls::RingCall;
use crate::links::{OwnedDesk, OwnedTable, SharedLink};
use lane_model::{Desk, Held};
use link_words::Slot;

fn send<T: Send>() {}

fn sync<T: Sync>() {}

fn slot_is_send() {
    send::<Slot>();
}

fn caller_is_send() {
    send::<Caller>();
    send::<Manager>();
}

fn held_is_send() {
    send::<Held>();
}

fn call_is_send<D: Desk + Send>() {
    send::<RingCall<D>>();
}

fn words_are_shared<D: Desk>() {
    sync::<OwnedTable<D>>();
}

fn desk_is_shared<D: Desk + Send>() {
    sync::<OwnedDesk<D>>();
}

fn link_is_shared<D: Desk + Send>() {
    send::<SharedLink<D>>();
    sync::<SharedLink<D>>();
}
