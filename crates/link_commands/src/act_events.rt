ghost use Rattle.std.specs.Prelude.{◌≡◌, ◌++◌, IfOk, OnOk};
ghost use Rattle.journal.specs.Lines.{transcript};
ghost use Rattle.link_commands.specs.CallEvents.{reach_events};
ghost use Rattle.link_commands.specs.Effects.{answer_ending, answer_events, limit_stop, reclaim_event, turn_ending, turn_events};
ghost use Rattle.link_bench.specs.Acts.{HoldsAnswerTaken};
ghost use Rattle.link_bench.specs.Benches.{HoldsReachTaken, link_in};
ghost use Rattle.link_bench.specs.Turns.{HoldsEndTaken};

use crate::Stop;
use crate::call_events::{end_event, fault_event};
use crate::event_fields::event;
use journal::Event;
use link_bench::{ActAnswer, Bench, Reach, Reclaim, TurnEnd};
use rp_base::{CallerNo, Era, Name, NoMemory};
use run_log::RunLog;

/// Writes what came of an act on the link of this name, which is as the act left it, and answers why
/// the run stops with it, if it does.
///
/// Errors: only if memory runs out.
pub fn tell_answer(
    name: Name,
    bench: &Bench,
    answer: ActAnswer,
    log: &mut RunLog,
) -> Result<Option<Stop>, NoMemory>
    requires { HoldsAnswerTaken (link_in bench.now) answer }
    ensures told { OnOk result (log.new ≡ record log.old { lines = log.old.lines ++ transcript (answer_events name (link_in bench.now) answer) }) }
    ensures ending { IfOk result (λ ending. ending ≡ answer_ending answer) }
{
    let event = match answer {
        ActAnswer::Reached(caller, reach) => return tell_reach(name, bench, caller, reach, log),
        ActAnswer::Pumped(done, ended) => return tell_turns(name, bench, done, ended, log),
        ActAnswer::Caller(caller, end) => event!(Caller, name, [caller], end),
        ActAnswer::CallersFull => Event::CallersFull { name },
        ActAnswer::Refused(caller, fault) => fault_event(name, caller, fault),
        ActAnswer::TooLong(caller, len) => event!(TooLong, name, [caller], len),
        ActAnswer::WrongSide(caller) => event!(WrongSide, name, [caller]),
        ActAnswer::Begun(caller) => event!(Begun, name, [caller]),
        ActAnswer::Reclaimed(caller, came) => reclaim_event(name, caller, came),
    };
    log.tell(&event)?;
    Ok(None)
}

/// Writes how far a call came of a caller of the link of this name, and answers why the run stops with it,
/// if it does.
///
/// Errors: only if memory runs out.
pub fn tell_reach(
    name: Name,
    bench: &Bench,
    caller: CallerNo,
    reach: Reach,
    log: &mut RunLog,
) -> Result<Option<Stop>, NoMemory>
    requires { HoldsReachTaken (link_in bench.now) caller reach }
    ensures told { OnOk result (log.new ≡ record log.old { lines = log.old.lines ++ transcript (reach_events name (link_in bench.now) caller reach) }) }
    ensures ending { IfOk result (λ ending. ending ≡ limit_stop reach) }
{
    let event = match reach {
        Reach::At(step) => event!(At, name, [caller, step]),
        Reach::Ended(end) => end_event(log.alloc(), name, bench, caller, end)?,
        Reach::Limit => return Ok(Some(Stop::StepLimit)),
    };
    log.tell(&event)?;
    Ok(None)
}

/// Writes how the last turn ended, if it wasn't whole, and how many were.
fn tell_turns(
    name: Name,
    bench: &Bench,
    turns: u64,
    ended: TurnEnd,
    log: &mut RunLog,
) -> Result<Option<Stop>, NoMemory>
    requires { HoldsEndTaken (link_in bench.now) ended }
    ensures told { OnOk result (log.new ≡ record log.old { lines = log.old.lines ++ transcript (turn_events name (link_in bench.now) turns ended) }) }
    ensures ending { IfOk result (λ ending. ending ≡ turn_ending ended) }
{
    match ended {
        TurnEnd::Whole => {}
        TurnEnd::Fault(caller, fault) => log.tell(&fault_event(name, caller, fault))?,
        TurnEnd::Reached(caller, Reach::At(step)) => {
            log.tell(&event!(At, name, [caller, step]))?
        }
        TurnEnd::Reached(caller, Reach::Ended(end)) => {
            log.tell(&end_event(log.alloc(), name, bench, caller, end)?)?
        }
        TurnEnd::Reached(_, Reach::Limit) => return Ok(Some(Stop::StepLimit)),
    }
    log.tell(&Event::Pumped { name, turns })?;
    Ok(None)
}

/// How a reclaim ended.
fn reclaim_event(name: Name, caller: CallerNo, came: Reclaim) -> Event
    ensures { result ≡ reclaim_event name caller came }
{
    match came {
        Reclaim::Done => event!(Reclaimed, name, [caller]),
        Reclaim::StillOpen(Era { inc, .. }) => event!(StillOpen, name, [inc]),
        Reclaim::Busy(holder) => event!(BusyTurn, name, [holder]),
    }
}
