ghost use Rattle.std.specs.Prelude.{◌≡◌, ℕ, ◌<◌, ◌≤◌, IfOk, IfSome, None, OnErr};
ghost use Rattle.rp_base.specs.declared.limits.TheConstants.{CALLERS_MOST, STEPS_MOST};
ghost use Rattle.lane_model.specs.Links.{LinkState};
ghost use Rattle.channel_bus.specs.Sides.{EndState};
ghost use Rattle.link_bench.specs.Benches.{HoldsReachTaken, IsSendable, link_in, ready_fault};
ghost use Rattle.link_bench.specs.Turns.{IsCutPump};
ghost use Rattle.link_bench.specs.Acts.{HasActResult, HoldsAnswerTaken, IsCutAct, IsFitAct, IsFitWish, bare_act, bare_wish, call_act, free_act, link_act, misfit, own_caller, own_in, pump_act, pump_refusal, side_refusal, step_act, walk_act, wish_of};

use crate::bench_crashes::Reclaim;
use crate::benches::{Bench, BenchFault, Reach};
use crate::step_counts::StepCount;
use crate::turns::{TurnEnd, message_of};
use crate::watchers::Watcher;
use lane_model::Wish;
use rp_base::{CallerNo, End, NoMemory, PAYLOAD_MOST};

/// Whether a call is made whole, or begun and no step of it done.
#[derive(Clone, Copy)]
pub enum How {
    Whole,
    Begun,
}

/// What a call is to do. The bytes that it names are a `P`: borrowed ones in code.
#[derive(Clone, Copy)]
pub enum CallWish<P> {
    /// To send a payload between two addresses.
    Send {
        source: u32,
        destination: u32,
        payload: P,
    },
    /// To send a message as it is, its header included.
    Raw {
        message: P,
    },
    /// To take a message.
    Take,
    /// To give the buffer of a message back.
    Give {
        number: u64,
    },
    /// To bind an endpoint at an address.
    Bind {
        address: u32,
    },
    /// To unbind the endpoint at an address.
    Unbind {
        address: u32,
    },
}

/// What is done on a link for its callers.
#[derive(Clone, Copy)]
pub enum LinkAct<P> {
    /// A caller is made at an end.
    Caller {
        end: End,
    },
    /// A call of a caller.
    Call {
        caller: CallerNo,
        how: How,
        wish: CallWish<P>,
    },
    /// One step of the call that a caller is in, and `more` further ones.
    Step {
        caller: CallerNo,
        more: u64,
    },
    /// So many turns of a send, its take and its give.
    Pump {
        sender: CallerNo,
        receiver: CallerNo,
        count: u64,
    },
    /// A caller of a closed link loses its call, what it holds and its number.
    Reclaim {
        caller: CallerNo,
    },
}

/// What comes of an act.
#[derive(Clone, Copy)]
pub enum ActAnswer {
    /// A new caller has this number.
    Caller(CallerNo, End),
    /// All numbers of callers are in use.
    CallersFull,
    /// Nothing is done for this caller.
    Refused(CallerNo, BenchFault),
    /// The payload of this caller's send has so many bytes, more than fit a buffer.
    TooLong(CallerNo, u64),
    /// This receiver is on the sender's end.
    WrongSide(CallerNo),
    /// A call of this caller is begun.
    Begun(CallerNo),
    /// A call of this caller came so far.
    Reached(CallerNo, Reach),
    /// So many turns were whole, and the last one ended so.
    Pumped(u64, TurnEnd),
    /// A reclaim of this caller ended so.
    Reclaimed(CallerNo, Reclaim),
}

impl Bench {
    /// Does an act on the link, the first `own` of whose callers are not there to others. The watcher
    /// sees the end of each call, that of a turn's take before its give, and `steps` counts the steps.
    ///
    /// Errors: only if memory runs out, where the watcher needs it before a call, before steps or before a
    /// turn. Bench and watcher are then as they were, or, of a pump, as so many of its turns leave both.
    #[tactic(auto, unfolding(crate::specs::Acts::link_act))]
    pub fn act<W: Watcher>(
        &mut self,
        own: CallerNo,
        watcher: &mut W,
        act: &LinkAct<&[u8]>,
        steps: &mut StepCount,
    ) -> Result<ActAnswer, NoMemory>
        requires fit { IsFitAct (bare_act (λ bytes. bytes.now) act.now) }
        ensures acted { IfOk result (HasActResult (link_act W.sees own self.old (W.state watcher.old) steps.old (bare_act (λ bytes. bytes.now) act.now)) self.new (W.state watcher.new) steps.new) }
        ensures taken { IfOk result (HoldsAnswerTaken (link_in self.new)) }
        ensures cut { OnErr result (IsCutAct (link_act W.sees own self.old (W.state watcher.old) steps.old) (bare_act (λ bytes. bytes.now) act.now) self.old (W.state watcher.old) self.new (W.state watcher.new)) }
    {
        if let Some(caller) = self.own_in(own, act) {
            return Ok(ActAnswer::Refused(caller, BenchFault::NoCaller));
        }
        self.free_act(watcher, act, steps)
    }

    /// The link's own caller for which an act asks something.
    fn own_in(&self, own: CallerNo, act: &LinkAct<&[u8]>) -> Option<CallerNo>
        ensures { result ≡ own_in self.now own (bare_act (λ bytes. bytes.now) act.now) }
    {
        match act {
            LinkAct::Caller { .. } => None,
            LinkAct::Call { caller, .. }
            | LinkAct::Step { caller, .. }
            | LinkAct::Reclaim { caller } => own_caller(own, *caller),
            LinkAct::Pump {
                sender,
                receiver,
                ..
            } => match own_caller(own, *sender) {
                None if self.end_of(*sender).is_some() => own_caller(own, *receiver),
                found => found,
            },
        }
    }

    /// Does an act that asks nothing for a caller of the link's own.
    ///
    /// Errors: only if memory runs out, where the watcher needs it. Bench and watcher are then as they were,
    /// or, of a pump, as so many of its turns leave both.
    fn free_act<W: Watcher>(
        &mut self,
        watcher: &mut W,
        act: &LinkAct<&[u8]>,
        steps: &mut StepCount,
    ) -> Result<ActAnswer, NoMemory>
        requires fit { IsFitAct (bare_act (λ bytes. bytes.now) act.now) }
        ensures acted { IfOk result (HasActResult (free_act W.sees self.old (W.state watcher.old) steps.old (bare_act (λ bytes. bytes.now) act.now)) self.new (W.state watcher.new) steps.new) }
        ensures taken { IfOk result (HoldsAnswerTaken (link_in self.new)) }
        ensures cut { OnErr result (IsCutAct (free_act W.sees self.old (W.state watcher.old) steps.old) (bare_act (λ bytes. bytes.now) act.now) self.old (W.state watcher.old) self.new (W.state watcher.new)) }
    {
        match act {
            LinkAct::Caller { end } => match self.caller(*end) {
                Some(caller) => Ok(ActAnswer::Caller(caller, *end)),
                None => Ok(ActAnswer::CallersFull),
            },
            LinkAct::Call { caller, how, wish } => {
                self.call_act(watcher, *caller, *how, wish, steps)
            }
            LinkAct::Step { caller, more } => self.step_act(watcher, *caller, *more, steps),
            LinkAct::Pump {
                sender,
                receiver,
                count,
            } => self.pump_act(watcher, *sender, *receiver, *count, steps),
            LinkAct::Reclaim { caller } => match self.reclaim(*caller) {
                Ok(came) => Ok(ActAnswer::Reclaimed(*caller, came)),
                Err(fault) => Ok(ActAnswer::Refused(*caller, fault)),
            },
        }
    }

    /// A call of a caller, whole or only begun.
    ///
    /// Errors: only if memory runs out, where the watcher needs it before a whole call. Nothing of the call
    /// is done: bench and watcher are as they were.
    #[tactic(auto, unfolding(crate::specs::Acts::call_act))]
    fn call_act<W: Watcher>(
        &mut self,
        watcher: &mut W,
        caller: CallerNo,
        how: How,
        wish: &CallWish<&[u8]>,
        steps: &mut StepCount,
    ) -> Result<ActAnswer, NoMemory>
        requires caller { caller < CALLERS_MOST }
        requires fit { IsFitWish (bare_wish (λ bytes. bytes.now) wish.now) }
        ensures acted { IfOk result (HasActResult (call_act W.sees self.old (W.state watcher.old) steps.old caller how (bare_wish (λ bytes. bytes.now) wish.now)) self.new (W.state watcher.new) steps.new) }
        ensures taken { IfOk result (HoldsAnswerTaken (link_in self.new)) }
        ensures unchanged { OnErr result (self.new ≡ self.old) }
        ensures unseen { OnErr result (W.state watcher.new ≡ W.state watcher.old) }
    {
        if let Some(fault) = self.ready_fault(caller) {
            return Ok(ActAnswer::Refused(caller, fault));
        }
        if let Some(answer) = self.misfit(caller, wish) {
            return Ok(answer);
        }
        let wished = wish_of(wish);
        match how {
            How::Whole => {
                watcher.make_room()?;
                let mut reach = Reach::Limit;
                self.call(caller, &wished, steps, &mut reach);
                Ok(self.reach(watcher, caller, reach, steps))
            }
            How::Begun => {
                self.put_call(caller, wished);
                Ok(ActAnswer::Begun(caller))
            }
        }
    }

    /// Why a caller that is in use and in no call can't make a call.
    fn misfit(&self, caller: CallerNo, wish: &CallWish<&[u8]>) -> Option<ActAnswer>
        ensures { result ≡ misfit self.now caller (bare_wish (λ bytes. bytes.now) wish.now) }
    {
        match wish {
            CallWish::Send { payload, .. } if payload.len() > PAYLOAD_MOST => {
                Some(ActAnswer::TooLong(caller, payload.len() as u64))
            }
            CallWish::Give { number } if !self.is_holding(caller, *number) => {
                Some(ActAnswer::Refused(caller, BenchFault::NotHeld(*number)))
            }
            _ => None,
        }
    }

    /// One step of the call that a caller is in, and `more` further ones.
    ///
    /// Errors: only if memory runs out, where the watcher needs it before the steps. None of them is done:
    /// bench and watcher are as they were.
    #[tactic(auto, unfolding(crate::specs::Acts::step_act))]
    fn step_act<W: Watcher>(
        &mut self,
        watcher: &mut W,
        caller: CallerNo,
        more: u64,
        steps: &mut StepCount,
    ) -> Result<ActAnswer, NoMemory>
        requires caller { caller < CALLERS_MOST }
        requires more { more < STEPS_MOST }
        ensures acted { IfOk result (HasActResult (step_act W.sees self.old (W.state watcher.old) steps.old caller more) self.new (W.state watcher.new) steps.new) }
        ensures taken { IfOk result (HoldsAnswerTaken (link_in self.new)) }
        ensures unchanged { OnErr result (self.new ≡ self.old) }
        ensures unseen { OnErr result (W.state watcher.new ≡ W.state watcher.old) }
    {
        if let Some(fault) = self.step_fault(caller) {
            return Ok(ActAnswer::Refused(caller, fault));
        }
        watcher.make_room()?;
        let mut reach = Reach::Limit;
        self.advance(caller, more, steps, &mut reach);
        Ok(self.reach(watcher, caller, reach, steps))
    }

    /// A call of a caller came so far, at this count of steps, and the watcher, which has room for it, sees
    /// its end.
    fn reach<W: Watcher>(
        &self,
        watcher: &mut W,
        caller: CallerNo,
        reach: Reach,
        steps: &StepCount,
    ) -> ActAnswer
        requires room { W.HasRoom watcher.old }
        requires taken { HoldsReachTaken (link_in self.now) caller reach }
        ensures acted { HasActResult (walk_act W.sees (W.state watcher.old) caller (record { bench = self.now; steps = steps.now; reach = reach })) self.now (W.state watcher.new) steps.now result }
        ensures taken { HoldsAnswerTaken (link_in self.now) result }
    {
        self.see_reach(watcher, caller, &reach);
        ActAnswer::Reached(caller, reach)
    }

    /// So many turns of two callers on two ends, where both are in use and neither is in a call.
    ///
    /// Errors: only if memory runs out, before a turn, where the watcher needs it: bench and watcher are then
    /// as so many turns leave both, or fewer.
    #[tactic(auto, unfolding(crate::specs::Acts::pump_act))]
    fn pump_act<W: Watcher>(
        &mut self,
        watcher: &mut W,
        sender: CallerNo,
        receiver: CallerNo,
        count: u64,
        steps: &mut StepCount,
    ) -> Result<ActAnswer, NoMemory>
        requires sender { sender < CALLERS_MOST }
        requires receiver { receiver < CALLERS_MOST }
        requires count { count ≤ STEPS_MOST }
        ensures acted { IfOk result (HasActResult (pump_act W.sees self.old (W.state watcher.old) steps.old sender receiver count) self.new (W.state watcher.new) steps.new) }
        ensures taken { IfOk result (HoldsAnswerTaken (link_in self.new)) }
        ensures cut { let left = λ (done : ℕ). pump_act W.sees self.old (W.state watcher.old) steps.old sender receiver done in
            OnErr result (IsCutPump (λ done. (left done).bench) (λ done. (left done).watcher) count self.new (W.state watcher.new)) }
    {
        if let Some(answer) = self.pump_refusal(sender, receiver) {
            return Ok(answer);
        }
        let mut ended = TurnEnd::Whole;
        let done = self.turns(watcher, sender, receiver, count, steps, &mut ended)?;
        Ok(ActAnswer::Pumped(done, ended))
    }

    /// Why two callers make no turns.
    #[tactic(auto, unfolding(crate::specs::Acts::pump_refusal))]
    fn pump_refusal(&self, sender: CallerNo, receiver: CallerNo) -> Option<ActAnswer>
        requires sender { sender < CALLERS_MOST }
        requires receiver { receiver < CALLERS_MOST }
        ensures refusal { result ≡ pump_refusal self.now sender receiver }
        ensures taken { IfSome result (HoldsAnswerTaken (link_in self.now)) }
    {
        if self.end_of(sender).is_none() {
            return Some(ActAnswer::Refused(sender, BenchFault::NoCaller));
        }
        if self.end_of(receiver).is_none() {
            return Some(ActAnswer::Refused(receiver, BenchFault::NoCaller));
        }
        if self.is_in_call(sender) {
            return Some(ActAnswer::Refused(sender, BenchFault::InCall));
        }
        if self.is_in_call(receiver) {
            return Some(ActAnswer::Refused(receiver, BenchFault::InCall));
        }
        side_refusal(self.end_of(sender), self.end_of(receiver), receiver)
    }
}

/// Two callers on one end make no turns.
fn side_refusal(one: Option<End>, other: Option<End>, receiver: CallerNo) -> Option<ActAnswer>
    ensures refusal { result ≡ side_refusal one other receiver }
    ensures taken { (link : LinkState EndState) → IfSome result (HoldsAnswerTaken link) }
{
    match (one, other) {
        (Some(End::Host), Some(End::Host)) | (Some(End::Remote), Some(End::Remote)) => {
            Some(ActAnswer::WrongSide(receiver))
        }
        _ => None,
    }
}

/// A caller below the number of a link's own.
fn own_caller(own: CallerNo, caller: CallerNo) -> Option<CallerNo>
    ensures { result ≡ own_caller own caller }
{
    if caller < own { Some(caller) } else { None }
}

/// What a call wishes of a link, with a copy of the bytes that it names.
fn wish_of(wish: &CallWish<&[u8]>) -> Wish
    requires { IsSendable (wish_of (bare_wish (λ bytes. bytes.now) wish.now)) }
    ensures { result ≡ wish_of (bare_wish (λ bytes. bytes.now) wish.now) }
{
    match wish {
        CallWish::Send {
            source,
            destination,
            payload,
        } => {
            let head = rpmsg_header::head(*source, *destination, payload.len() as u16);
            Wish::Send(message_of(&head, payload))
        }
        CallWish::Raw { message } => Wish::Send(message_of(&[], message)),
        CallWish::Take => Wish::Take,
        CallWish::Give { number } => Wish::Give(*number),
        CallWish::Bind { address } => Wish::Bind(*address),
        CallWish::Unbind { address } => Wish::Unbind(*address),
    }
}
