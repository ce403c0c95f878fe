ghost use Rattle.std.specs.Prelude.{◌≡◌, IfOk};
ghost use Rattle.link_commands.specs.CallEvents.{end_event, fault_event, refused_event, took_event};
ghost use Rattle.link_bench.specs.Benches.{HoldsTaken, link_in};

use crate::event_fields::event;
use journal::Event;
use lane_model::CallEnd;
use link_bench::{Bench, BenchFault};
use rp_base::{BindFault, CallerNo, Data, Name, NoMemory, Verdict};
use std::alloc::Global;

/// What is written of a refusal of a bench.
pub(crate) fn fault_event(name: Name, caller: CallerNo, fault: BenchFault) -> Event
    ensures { result ≡ fault_event name caller fault }
{
    match fault {
        BenchFault::NoCaller => event!(NoCaller, name, [caller]),
        BenchFault::InCall => event!(InCall, name, [caller]),
        BenchFault::NoCall => event!(NoCall, name, [caller]),
        BenchFault::NotHeld(number) => event!(NotHeld, name, [caller], number),
    }
}

/// What is written of the end of a call of a caller of this link.
pub(crate) fn end_event(
    alloc: Global,
    name: Name,
    bench: &Bench,
    caller: CallerNo,
    end: CallEnd,
) -> Result<Event, NoMemory>
    requires { HoldsTaken (link_in bench.now) caller end }
    ensures { IfOk result (λ event. event ≡ end_event name (link_in bench.now) caller end) }
{
    Ok(match end {
        CallEnd::Sent(number) => event!(Sent, name, [caller], number),
        CallEnd::Took(number, verdict) => {
            let message = bench.taken_message(caller, number);
            return took_event(alloc, name, caller, number, message, verdict);
        }
        CallEnd::Gave(number) => event!(Gave, name, [caller], number),
        CallEnd::Bound(endpoint) => event!(Bound, name, [caller], endpoint),
        CallEnd::Unbound(endpoint) => event!(Unbound, name, [caller], endpoint),
        CallEnd::Busy(holder) => event!(Busy, name, [caller, holder]),
        CallEnd::Dead(era) => event!(Dead, name, [caller], era),
        CallEnd::NoBuffer(accepted, returned) => {
            event!(NoBuffer, name, [caller], accepted, returned)
        }
        CallEnd::BookFull(accepted) => event!(BookFull, name, [caller], accepted),
        CallEnd::Empty(accepted) => event!(Empty, name, [caller], accepted),
        CallEnd::Refused(fault) => refused_event(name, caller, fault),
    })
}

/// What is written of the end of a take.
fn took_event(
    alloc: Global,
    name: Name,
    caller: CallerNo,
    number: u64,
    message: &[u8],
    verdict: Verdict,
) -> Result<Event, NoMemory>
    ensures { IfOk result (λ event. event ≡ took_event name caller number message.now verdict) }
{
    Ok(match verdict {
        Verdict::To(endpoint) => {
            let header = rpmsg_header::fields(message);
            let payload = Data::copy_of(alloc, header.payload)?;
            let source = header.src;
            event!(
                TookFromTo,
                name,
                [caller, source],
                number,
                endpoint,
                payload
            )
        }
        Verdict::Dropped(destination) => {
            let header = rpmsg_header::fields(message);
            let payload = Data::copy_of(alloc, header.payload)?;
            let source = header.src;
            event!(
                TookFromDropped,
                name,
                [caller, source, destination],
                number,
                payload
            )
        }
        Verdict::Malformed => event!(TookMalformed, name, [caller], number),
        Verdict::Service(kind, channel, address, _) => {
            event!(TookNs, name, [caller, address], number, kind, channel)
        }
        Verdict::ServiceMalformed => event!(TookNsMalformed, name, [caller], number),
    })
}

fn refused_event(name: Name, caller: CallerNo, fault: BindFault) -> Event
    ensures { result ≡ refused_event name caller fault }
{
    match fault {
        BindFault::AddressTaken(address) => event!(AddressTaken, name, [caller, address]),
        BindFault::EndpointsFull => event!(EndpointsFull, name, [caller]),
        BindFault::NotBound(address) => event!(NotBound, name, [caller, address]),
    }
}
