ghost use Rattle.std.specs.Prelude.{◌≡◌, Some};
ghost use Rattle.lane_model.specs.Links.{LinkState};
ghost use Rattle.lane_model.specs.Answers.{MayAsk, steps_to_answer};

use crate::calls::{Answer, Ask, Progress};
use crate::desks::Desk;

/// A link between two processors, whichever way it is kept. A form may say its state or not; where
/// it does, `advance` is exact by the lane machine.
pub trait Link {
    ghost use Rattle.std.specs.Prelude.{◌≡◌, ℕ, Option, Some, None, IfSome};
    ghost use Rattle.lane_model.specs.declared.calls.Ask.{Ask};
    ghost use Rattle.lane_model.specs.Links.{LinkState};
    ghost use Rattle.lane_model.specs.Answers.{MayAsk, asked_step};

    /// What a caller shows to make its calls.
    type Pass;

    /// A call from its beginning to its end.
    type Call: Drop;

    /// What goes with the receivers' turns.
    type Desk: Desk;

    /// The state of the link, where the form says it.
    ghost state: { Self → Option (LinkState Self.Desk) };

    /// The number of the caller who shows a pass.
    ghost number: { Self.Pass → ℕ };

    /// The incarnation that a call follows.
    ghost follows: { Self.Call → ℕ };

    /// What a call asks, until its first step.
    ghost asked: { Self.Call → Option Ask };

    /// Whether this is the next step of a call of this pass.
    ghost may: { Self → Self.Pass → Self.Call → Type 0 };

    /// Begins a call, which has done no step yet.
    fn begin(&self, ask: Ask) -> Self::Call
        ensures { IfSome (state self.now) (λ link. (follows result ≡ link.era.inc) × (asked result ≡ Some ask)) };

    /// Takes one step of a call: one load, store or exchange of a word that both ends share, with
    /// what belongs to it.
    fn advance(&mut self, pass: &mut Self::Pass, call: &mut Self::Call) -> Progress
        requires { may self.old pass.old call.old }
        ensures step { IfSome (state self.old) (λ link.
            let step = asked_step Self.Desk.meaning link (number pass.old) (follows call.old) (asked call.old) in
            (state self.new ≡ Some step.state) × (result ≡ step.progress)) }
        ensures call { IfSome (state self.old) (λ _. (follows call.new ≡ follows call.old) × (asked call.new ≡ None)) }
        ensures pass { IfSome (state self.old) (λ _. pass.new ≡ pass.old) };

    /// Where the form says its state, that state says which step is the next.
    ghost leads: { (link : Self) (pass : Self.Pass) (call : Self.Call) (told : LinkState Self.Desk)
        → state link ≡ Some told → MayAsk told (number pass) (asked call) → may link pass call };
}

/// Makes a whole call through a link that says its state.
pub fn make_call<L: Link>(link: &mut L, pass: &mut L::Pass, ask: Ask) -> Answer
    requires { (told : LinkState L.Desk) × (L.state link.old ≡ Some told) × MayAsk told (L.number pass.old) (Some ask) }
    ensures { (told : LinkState L.Desk) → L.state link.old ≡ Some told → (left : LinkState L.Desk) × (L.state link.new ≡ Some left)
        × (steps_to_answer 7 L.Desk.meaning told (L.number pass.old) told.era.inc (Some ask) ≡ Some (record { state = left; answer = result })) }
{
    let mut call = link.begin(ask);
    for _ in 0..7u8 {
        match link.advance(pass, &mut call) {
            Progress::At(_) => {}
            Progress::Done(answer) => return answer,
        }
    }
    unreachable!()
}
