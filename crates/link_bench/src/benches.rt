ghost use Rattle.std.specs.Prelude.{◌≡◌, ◌<◌, ◌≤◌, length, true, false, IfOk, IfErr, IfNone, IfSome, Some, None};
ghost use Rattle.rp_base.specs.declared.limits.TheConstants.{CALLERS_MOST, BOOK_MOST, MESSAGE_MOST, STEPS_MOST};
ghost use Rattle.lane_model.specs.Links.{end_of, free_number};
ghost use Rattle.channel_bus.specs.Sides.{side_meaning};
ghost use Rattle.lane_model.specs.Desks.{IsFreshDesk};
ghost use Rattle.lane_model.specs.Conditions.{IsConfig, MayStep, is_calling, is_holding};
ghost use Rattle.lane_model.specs.Soundness.{SoundLink};
ghost use Rattle.managed_link.specs.Managed.{message_for};
ghost use Rattle.link_bench.specs.Benches.{AreFitCalls, HoldsReachTaken, IsSendable, advance_walk, begin_fault, call_walk, counts_of, is_in_call, link_in, new_bench_of, no_begun_calls, ready_fault, start_walk, with_begun_call, with_new_caller};

use crate::step_counts::StepCount;
use crate::steps::{call_steps, later_steps};
use crate::whole_steps::whole_steps;
use channel_bus::Side;
use lane_model::{CallEnd, LinkConfig, Wish};
use managed_link::ManagedLink;
use rp_base::{CALLERS_MOST, CallerNo, End, Inc, NoMemory};
use std::alloc::Global;
use std::marker::Model;

/// A call that is begun and has done no step: the incarnation that it follows, and what it wants.
#[derive(Drop)]
pub struct BegunCall {
    pub follows: Inc,
    pub wish: Wish,
}

/// How far a call came.
#[derive(Clone, Copy)]
pub enum Reach {
    /// Its step of this number is done, and it goes on.
    At(u8),
    /// It has ended.
    Ended(CallEnd),
    /// The run has no step left.
    Limit,
}

/// Why a bench does nothing for a caller.
#[derive(Clone, Copy)]
pub enum BenchFault {
    /// The caller isn't in use.
    NoCaller,
    /// The caller is in a call.
    InCall,
    /// The caller is in no call.
    NoCall,
    /// The caller doesn't hold the buffer of the message of this number.
    NotHeld(u64),
}

/// A link with the calls that are begun. It keeps what each caller holds, by the message's number.
#[derive(Drop)]
pub struct Bench {
    pub(crate) link: ManagedLink,
    pub(crate) begun: Vec<Option<BegunCall>>,
}

impl Model for Bench {
    ghost use Rattle.rp_base.specs.declared.limits.TheConstants.{CALLERS_MOST};
    ghost use Rattle.link_bench.specs.Benches.{BenchState};

    ghost Value = { BenchState };

    ghost use Rattle.std.specs.Prelude.{◌≡◌, length};
    ghost use Rattle.link_bench.specs.Benches.{AreFitCalls, lists_of};

    ghost view = { λ b. record { rings = b.link; begun = b.begun.items } };

    ghost invariant = { λ b. (length b.begun.items ≡ CALLERS_MOST) × AreFitCalls (lists_of b.link) b.begun.items };
}

impl Bench {
    /// A bench over a new link of these ends, with no caller. It takes the link's room at once.
    pub fn new(
        alloc: Global,
        config: LinkConfig,
        host: Side,
        remote: Side,
    ) -> Result<Bench, NoMemory>
        requires config { IsConfig config }
        requires host { IsFreshDesk side_meaning host }
        requires remote { IsFreshDesk side_meaning remote }
        ensures { IfOk result (λ bench. bench ≡ new_bench_of config host remote) }
    {
        Ok(Bench {
            link: ManagedLink::make(alloc, config, host, remote)?,
            begun: no_begun_calls(alloc)?,
        })
    }

    /// A new caller at this end, under the least free number, or none exactly where all are in use.
    pub fn caller(&mut self, end: End) -> Option<CallerNo>
        ensures number { result ≡ free_number (link_in self.old).callers }
        ensures left { self.new ≡ with_new_caller self.old end (free_number (link_in self.old).callers) }
    {
        self.link.caller(end)
    }

    /// The end of the caller of this number, where it is in use.
    pub fn end_of(&self, caller: CallerNo) -> Option<End>
        ensures end { result ≡ end_of (link_in self.now).callers caller }
        ensures within { IfSome result (λ _. caller < CALLERS_MOST) }
    {
        self.link.end_of(caller)
    }

    /// Whether a caller has begun a call that has not ended.
    #[inline(always)]
    pub fn is_in_call(&self, caller: CallerNo) -> bool
        ensures { result ≡ is_in_call self.now caller }
    {
        matches!(self.begun.get(usize::from(caller)), Some(Some(_))) || self.link.is_calling(caller)
    }

    /// The same of a number that is known to be below 64.
    #[inline(always)]
    pub fn is_caller_busy(&self, caller: CallerNo) -> bool
        requires { caller < CALLERS_MOST }
        ensures { result ≡ is_in_call self.now caller }
    {
        self.begun[usize::from(caller)].is_some() || self.link.is_calling(caller)
    }

    /// Whether a caller holds the buffer of the message of this number.
    pub fn is_holding(&self, caller: CallerNo, number: u64) -> bool
        ensures { result ≡ is_holding (link_in self.now) caller number }
    {
        self.link.is_holding(caller, number)
    }

    /// Why this caller can't begin a call, if it can't: it isn't in use, or it is in a call.
    pub fn ready_fault(&self, caller: CallerNo) -> Option<BenchFault>
        ensures fault { result ≡ ready_fault self.now caller }
        ensures within { IfNone result (caller < CALLERS_MOST) }
    {
        match self.end_of(caller) {
            None => Some(BenchFault::NoCaller),
            Some(_) if self.is_in_call(caller) => Some(BenchFault::InCall),
            Some(_) => None,
        }
    }

    /// Why this caller can't begin this call, if it can't: it isn't in use, it is in a call, or it
    /// doesn't hold the buffer that it is to give back.
    pub fn begin_fault(&self, caller: CallerNo, wished: &Wish) -> Option<BenchFault>
        ensures fault { result ≡ begin_fault self.now caller wished.now }
        ensures within { IfNone result (caller < CALLERS_MOST) }
    {
        if let Some(fault) = self.ready_fault(caller) {
            return Some(fault);
        }
        match wished {
            Wish::Give(number) if !self.is_holding(caller, *number) => {
                Some(BenchFault::NotHeld(*number))
            }
            _ => None,
        }
    }

    /// Begins a call, which follows the incarnation that the link is in, and does no step of it.
    ///
    /// Errors: as [`Bench::begin_fault`] answers. The bench is as it was then.
    pub fn begin(&mut self, caller: CallerNo, wished: Wish) -> Result<(), BenchFault>
        ensures fault { IfErr result (λ why. begin_fault self.old caller wished ≡ Some why) }
        ensures refused { IfErr result (λ _. self.new ≡ self.old) }
        ensures none { IfOk result (λ _. begin_fault self.old caller wished ≡ None) }
        ensures begun { IfOk result (λ _. self.new
            ≡ with_begun_call self.old caller (Some (record { follows = (link_in self.old).era.inc; wish = wished }))) }
    {
        if let Some(fault) = self.begin_fault(caller, &wished) {
            return Err(fault);
        }
        self.put_call(caller, wished);
        Ok(())
    }

    /// Begins a call of a caller that may begin it.
    pub fn put_call(&mut self, caller: CallerNo, wished: Wish)
        requires caller { caller < CALLERS_MOST }
        requires ready { begin_fault self.old caller wished ≡ None }
        ensures { self.new ≡ with_begun_call self.old caller (Some (record { follows = (link_in self.old).era.inc; wish = wished })) }
    {
        show_sendable(&wished);
        self.begun[usize::from(caller)] = Some(BegunCall {
            follows: self.link.era().inc,
            wish: wished,
        });
    }

    /// Does one step of the call that a caller is in, and `more` further ones, but no more than the
    /// call has and the run may still take; `steps` counts them, and `reach` says how far the call came.
    #[inline(always)]
    pub fn advance(&mut self, caller: CallerNo, more: u64, steps: &mut StepCount, reach: &mut Reach)
        requires caller { caller < CALLERS_MOST }
        requires calling { is_in_call self.old caller ≡ true }
        requires more { more < STEPS_MOST }
        ensures bench { self.new ≡ (advance_walk self.old more steps.old caller).bench }
        ensures steps { steps.new ≡ (advance_walk self.old more steps.old caller).steps }
        ensures reach { reach.new ≡ (advance_walk self.old more steps.old caller).reach }
        ensures taken { HoldsReachTaken (link_in self.new) caller reach.new }
    {
        let place = usize::from(caller);
        if let Some(call) = &self.begun[place] {
            if steps.is_spent() {
                *reach = Reach::Limit;
                return;
            }
            call_steps(
                &mut self.link,
                caller,
                call.follows,
                &call.wish,
                more,
                steps,
                reach,
            );
            self.begun[place] = None;
            return;
        }
        later_steps(&mut self.link, caller, more + 1, 0, steps, reach);
    }

    /// Makes a whole call of a caller that may begin it; `steps` counts its steps, and `reach` says how
    /// far it came.
    pub fn call(
        &mut self,
        caller: CallerNo,
        wished: &Wish,
        steps: &mut StepCount,
        reach: &mut Reach,
    )
        requires ready { begin_fault self.old caller wished.now ≡ None }
        ensures bench { self.new ≡ (call_walk self.old steps.old caller wished.now).bench }
        ensures steps { steps.new ≡ (call_walk self.old steps.old caller wished.now).steps }
        ensures reach { reach.new ≡ (call_walk self.old steps.old caller wished.now).reach }
        ensures taken { HoldsReachTaken (link_in self.new) caller reach.new }
    {
        show_sendable(wished);
        let follows = self.link.era().inc;
        whole_steps(&mut self.link, caller, follows, wished, steps, reach);
    }

    /// Does the first step of a call of a caller that may begin it; `steps` counts it, and `reach` says
    /// how far the call came. That step may be done.
    pub fn start(
        &mut self,
        caller: CallerNo,
        wished: &Wish,
        steps: &mut StepCount,
        reach: &mut Reach,
    )
        requires ready { begin_fault self.old caller wished.now ≡ None }
        ensures bench { self.new ≡ (start_walk self.old steps.old caller wished.now).bench }
        ensures steps { steps.new ≡ (start_walk self.old steps.old caller wished.now).steps }
        ensures reach { reach.new ≡ (start_walk self.old steps.old caller wished.now).reach }
        ensures may { MayStep (link_in self.old) caller (Some wished.now) }
        ensures taken { HoldsReachTaken (link_in self.new) caller reach.new }
    {
        show_sendable(wished);
        let follows = self.link.era().inc;
        call_steps(&mut self.link, caller, follows, wished, 0, steps, reach);
    }

    /// The link of a bench is sound, and the first step of each call that is begun may be done.
    #[inline(always)]
    pub fn show_sound(&self)
        ensures sound { SoundLink (link_in self.now) }
        ensures fit { AreFitCalls (link_in self.now) self.now.begun }
    {
        self.link.show_sound();
    }

    /// The message of this number, which a caller that is in no call holds.
    pub fn taken_message(&self, caller: CallerNo, number: u64) -> &[u8]
        requires holding { is_holding (link_in self.now) caller number ≡ true }
        requires rests { is_calling (link_in self.now) caller ≡ false }
        ensures message { result.now ≡ message_for (link_in self.now) (end_of (link_in self.now).callers caller) number }
        ensures short { length result.now ≤ MESSAGE_MOST }
    {
        self.link.held_message(caller, number)
    }

    /// How many messages were accepted, handed over and given back on a lane: 0 to the host, 1 to the
    /// remote. No more are accepted than the largest book has room for.
    pub fn counts(&self, lane: u8) -> (u64, u64, u64)
        requires { lane < 2 }
        ensures counts { result ≡ counts_of self.now lane }
        ensures few { result.0 ≤ BOOK_MOST }
    {
        match lane {
            0 => self.link.counts(End::Host),
            _ => self.link.counts(End::Remote),
        }
    }
}

/// No call for each number of a caller.
fn no_begun_calls(alloc: Global) -> Result<Vec<Option<BegunCall>>, NoMemory>
    ensures { IfOk result (λ begun. begun.items ≡ no_begun_calls) }
{
    let mut begun = Vec::with_capacity(alloc, CALLERS_MOST)?;
    for _ in 0..CALLERS_MOST {
        begun.push(None)?;
    }
    Ok(begun)
}

/// A message fits a buffer, as its type says.
fn show_sendable(wished: &Wish)
    ensures { IsSendable wished.now }
{
    if let Wish::Send(message) = wished {
        let _bytes = message.bytes();
    }
}
