ghost use Rattle.std.specs.Prelude.{◌≡◌, None};
ghost use Rattle.std.specs.Option.{option_or};
ghost use Rattle.managed_link.specs.Views.{if_other};

use rp_base::CallerNo;

/// What is known of a lane beside its words: how many messages were accepted, handed over and given back, and who has its turns.
#[derive(Clone, Copy)]
pub(crate) struct LaneView {
    pub accepted: u64,
    pub handed: u64,
    pub returned: u64,
    pub sender: Option<CallerNo>,
    pub receiver: Option<CallerNo>,
}

impl LaneView {
    /// That of a new lane.
    pub fn new() -> LaneView
        ensures { result ≡ record { accepted = 0; handed = 0; returned = 0; sender = None; receiver = None } }
    {
        LaneView {
            accepted: 0,
            handed: 0,
            returned: 0,
            sender: None,
            receiver: None,
        }
    }
}

impl LaneView {
    /// The sender's turn is free where this caller has it.
    pub fn free_sender(&mut self, caller: CallerNo)
        ensures { self.new ≡ record self.old { sender = if_other self.old.sender caller } }
    {
        if self.sender == Some(caller) {
            self.sender = None;
        }
    }

    /// The receiver's turn is free where this caller has it.
    pub fn free_receiver(&mut self, caller: CallerNo)
        ensures { self.new ≡ record self.old { receiver = if_other self.old.receiver caller } }
    {
        if self.receiver == Some(caller) {
            self.receiver = None;
        }
    }

    /// Who has a turn, the sender's first.
    pub fn turn_out(&self) -> Option<CallerNo>
        ensures { result ≡ option_or self.now.sender self.now.receiver }
    {
        match self.sender {
            Some(holder) => Some(holder),
            None => self.receiver,
        }
    }
}
