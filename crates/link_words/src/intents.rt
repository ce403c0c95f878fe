//! What a caller wishes, as its first step is given it.
ghost use Rattle.std.specs.Prelude.{◌≡◌, ◌≤◌, length};
ghost use Rattle.lane_model.specs.declared.calls.Wish.TheVariants as wish;
ghost use Rattle.link_words.specs.Layouts.{place_in};
ghost use Rattle.link_words.specs.Steps.{turn_word_for};
ghost use Rattle.rp_base.specs.declared.limits.TheConstants.{MESSAGE_MOST};

use crate::places::{other, receiver_place, sender_place};
use rp_base::{End, Message};
use std::marker::Model;
use std::snapshot::Snapshot;

/// What a caller wishes. The message that it sends is for the proofs alone.
#[derive(Drop)]
enum IntentKind {
    Send(Snapshot<Message>),
    Take,
    Give(u64),
    Bind(u32),
    Unbind(u32),
}

/// What a caller wishes, without a copy of the message that it sends. Contracts see it as the wish.
#[derive(Drop)]
pub struct Intent {
    kind: IntentKind,
}

impl Model for Intent {
    ghost use Rattle.lane_model.specs.declared.calls.Wish.{Wish};
    ghost use Rattle.link_words.specs.Intents.{wish_with};

    ghost Value = { Wish };

    ghost view = { λ i. wish_with i.kind };
}

impl Intent {
    /// To send this message to the other end.
    #[inline(always)]
    pub fn send(message: &Message) -> Intent
        ensures wish { result ≡ wish.Send message.now }
        ensures short { length message.now ≤ MESSAGE_MOST }
    {
        let _bytes = message.bytes();
        Intent {
            kind: IntentKind::Send(Snapshot::of(message)),
        }
    }

    /// To be handed the next message of the other end.
    #[inline(always)]
    pub fn take() -> Intent
        ensures { result ≡ wish.Take }
    {
        Intent {
            kind: IntentKind::Take,
        }
    }

    /// To give back the buffer of the message of this number.
    #[inline(always)]
    pub fn give(number: u64) -> Intent
        ensures { result ≡ wish.Give number }
    {
        Intent {
            kind: IntentKind::Give(number),
        }
    }

    /// To bind an endpoint at an address of this end.
    #[inline(always)]
    pub fn bind(address: u32) -> Intent
        ensures { result ≡ wish.Bind address }
    {
        Intent {
            kind: IntentKind::Bind(address),
        }
    }

    /// To unbind the endpoint at an address of this end.
    #[inline(always)]
    pub fn unbind(address: u32) -> Intent
        ensures { result ≡ wish.Unbind address }
    {
        Intent {
            kind: IntentKind::Unbind(address),
        }
    }

    /// The place of the word of the turn that a caller of this end needs for it.
    #[inline(always)]
    pub(crate) fn place(&self, end: End) -> usize
        ensures { result ≡ place_in (turn_word_for end self.now) }
    {
        match &self.kind {
            IntentKind::Send(_) => sender_place(other(end)),
            IntentKind::Take => receiver_place(end),
            IntentKind::Give(_) => receiver_place(end),
            IntentKind::Bind(_) => receiver_place(end),
            IntentKind::Unbind(_) => receiver_place(end),
        }
    }
}
