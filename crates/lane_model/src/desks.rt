ghost use Rattle.std.specs.Prelude.{◌≡◌};
ghost use Rattle.lane_model.specs.Desks.{DeskMeaning, AreDeskLaws};

use rp_base::{BindFault, Endpoint, Message, Verdict};

/// What goes with a receiver's turn: it judges each message that is handed over, and keeps the
/// endpoints of its end. None of its calls takes memory.
pub trait Desk: Drop {
    /// What each call answers and leaves, as functions of the desk.
    ghost meaning: { DeskMeaning Self };

    /// Judges the message of this number, which is handed over now.
    fn deliver(&mut self, number: u64, message: &Message) -> Verdict
        ensures verdict { result ≡ meaning.verdict self.old number message.now }
        ensures left { self.new ≡ meaning.delivered self.old number message.now };

    /// Binds an endpoint, when `since` messages have been handed over.
    fn bind(&mut self, address: u32, since: u64) -> Result<Endpoint, BindFault>
        ensures answer { result ≡ meaning.bind_answer self.old address since }
        ensures left { self.new ≡ meaning.bound self.old address since };

    /// Unbinds the endpoint at this address.
    fn unbind(&mut self, address: u32) -> Result<Endpoint, BindFault>
        ensures answer { result ≡ meaning.unbind_answer self.old address }
        ensures left { self.new ≡ meaning.unbound self.old address };

    /// Begins a new incarnation, with no endpoint.
    fn reset(&mut self)
        ensures left { self.new ≡ meaning.fresh self.old };

    /// The desk is one whose endpoints are handed what is due to them.
    ghost laws: { AreDeskLaws meaning };
}
