ghost use Rattle.std.specs.Prelude.{if◌then◌else◌, None, Some, ◌≡◌, ◌<◌, ◌≤◌, ◌+◌, length};
ghost use Rattle.std.specs.VecDeque.{deque_len, deque_capacity};
ghost use Rattle.rp_base.specs.declared.limits.TheConstants.{MESSAGE_MOST};
ghost use Rattle.lane_model.specs.declared.calls.CallEnd.TheVariants as ended;
ghost use Rattle.core_actors.specs.Actors.{actors_view};
ghost use Rattle.link_bench.specs.Benches.{HoldsReachTaken, HoldsTaken, link_in};
ghost use Rattle.core_actors.specs.ActorEnds.{actors_after_drivers, actors_after_end, after_endpoint, after_verdict, endpoint_answer, host_after_call, is_tried_again, message_of, taken_number, verdict_answer, worker_after_call};
ghost use Rattle.core_actors.specs.ActorSteps.{host_after_step, host_at_step_as, worker_after_step};

use crate::actors::{Actors, HOST_CALLER, WORKER_CALLER, make_room};
use host_driver::Drivers;
use lane_model::{CallEnd, Wish};
use link_bench::{Bench, Reach, Watcher};
use rp_base::{CallerNo, End, Endpoint, Message, Name, NoMemory, NsKind, Verdict};

impl Watcher for Actors {
    ghost use Rattle.std.specs.Prelude.{◌<◌};
    ghost use Rattle.std.specs.VecDeque.{deque_capacity, deque_len};
    ghost use Rattle.core_actors.specs.Actors.{ActorsState, actors_view};
    ghost use Rattle.core_actors.specs.ActorEnds.{actors_after_end};

    ghost State = { ActorsState };

    ghost state = { actors_view };

    ghost sees = { actors_after_end };

    ghost HasRoom = { λ actors. deque_len actors.host_calls < deque_capacity actors.host_calls };

    fn make_room(&mut self) -> Result<(), NoMemory> {
        make_room(&mut self.host_calls, 1)
    }

    fn see(&mut self, bench: &Bench, caller: CallerNo, end: &CallEnd) {
        self.see_call(bench, caller, end);
    }
}

impl Actors {
    /// Has the host actor begin a take where it is in no call and has none to make.
    pub(crate) fn begin_host(&mut self, is_in_call: bool)
        ensures view { actors_view self.new ≡ host_at_step_as is_in_call (actors_view self.old) }
        ensures calls { self.new.host_calls ≡ self.old.host_calls }
    {
        if !is_in_call {
            self.is_taking = self.host_calls.is_empty();
        }
    }

    /// Has the host actor see how far its call came, on the link that it is made on.
    pub(crate) fn reach_host(&mut self, bench: &Bench, reach: &Reach)
        requires taken { HoldsReachTaken (link_in bench.now) 0 reach.now }
        requires room { deque_len self.old.host_calls + 2 ≤ deque_capacity self.old.host_calls }
        ensures { actors_view self.new ≡ host_after_step (actors_view self.old) bench.now reach.now }
    {
        if let Reach::Ended(end) = reach {
            self.end_host(bench, end);
        }
    }

    /// Has the host actor and its drivers see the end of its call on this link.
    #[inline(never)]
    fn end_host(&mut self, bench: &Bench, end: &CallEnd)
        requires taken { HoldsTaken (link_in bench.now) 0 end.now }
        requires room { deque_len self.old.host_calls + 2 ≤ deque_capacity self.old.host_calls }
        ensures { actors_view self.new ≡ actors_after_drivers (host_after_call (actors_view self.old) end.now) (message_of bench.now 0 end.now) end.now }
    {
        self.end_host_call(end);
        self.see_end(message_of(bench, HOST_CALLER, end), end);
    }

    /// Has the host actor see the end of its call.
    fn end_host_call(&mut self, end: &CallEnd)
        requires { deque_len self.old.host_calls + 2 ≤ deque_capacity self.old.host_calls }
        ensures view { actors_view self.new ≡ host_after_call (actors_view self.old) end.now }
        ensures room { deque_len self.new.host_calls < deque_capacity self.new.host_calls }
    {
        if !self.is_taking && !is_tried_again(end) {
            self.host_calls.pop_front();
        }
        self.is_taking = false;
        if let Some(number) = taken_number(end) {
            self.host_calls.push_back_reserved(Wish::Give(number));
        }
    }

    /// Has the drivers see the end of a call of a caller of this link, where it is one of the host, and
    /// there is room for what a driver may send.
    pub(crate) fn see_call(&mut self, bench: &Bench, caller: CallerNo, end: &CallEnd)
        requires taken { HoldsTaken (link_in bench.now) caller end.now }
        requires room { deque_len self.old.host_calls < deque_capacity self.old.host_calls }
        ensures { actors_view self.new ≡ actors_after_end bench.now caller end.now (actors_view self.old) }
    {
        match bench.end_of(caller) {
            Some(End::Host) => self.see_end(message_of(bench, caller, end), end),
            Some(End::Remote) | None => {}
        }
    }

    /// Has the drivers see the end of a call of a host caller, which was handed this message. What a
    /// driver sends is the last of the host actor's calls.
    fn see_end(&mut self, message: &[u8], end: &CallEnd)
        requires short { length message.now ≤ MESSAGE_MOST }
        requires room { deque_len self.old.host_calls < deque_capacity self.old.host_calls }
        ensures { actors_view self.new ≡ actors_after_drivers (actors_view self.old) message.now end.now }
    {
        match end {
            CallEnd::Took(_, verdict) => self.see_take(message, verdict),
            CallEnd::Unbound(endpoint) => self.drivers.destroyed(*endpoint),
            _ => {}
        }
    }

    /// Has the drivers see a message of any number that a host caller was handed with this verdict.
    #[inline(never)]
    fn see_take(&mut self, message: &[u8], verdict: &Verdict)
        requires short { length message.now ≤ MESSAGE_MOST }
        requires room { deque_len self.old.host_calls < deque_capacity self.old.host_calls }
        ensures { actors_view self.new ≡ actors_after_drivers (actors_view self.old) message.now (ended.Took 0 verdict.now) }
    {
        let mut answer = Message::empty();
        if answers(&mut self.drivers, message, verdict, &mut answer) {
            self.host_calls.push_back_reserved(Wish::Send(answer));
        }
    }

    /// Has the worker see how far its call came, on the link that it is made on.
    pub(crate) fn reach_worker(&mut self, bench: &Bench, reach: &Reach)
        requires taken { HoldsReachTaken (link_in bench.now) 1 reach.now }
        requires room { deque_len self.old.worker_calls < deque_capacity self.old.worker_calls }
        ensures { actors_view self.new ≡ worker_after_step (actors_view self.old) bench.now reach.now }
    {
        if let Reach::Ended(end) = reach {
            self.end_worker(message_of(bench, WORKER_CALLER, end), end);
        }
    }

    /// Has the worker see the end of its call, which was handed this message.
    #[inline(never)]
    fn end_worker(&mut self, message: &[u8], end: &CallEnd)
        requires short { length message.now ≤ MESSAGE_MOST }
        requires room { deque_len self.old.worker_calls < deque_capacity self.old.worker_calls }
        ensures { actors_view self.new ≡ worker_after_call (actors_view self.old) message.now end.now }
    {
        if !is_tried_again(end) {
            self.worker_calls.pop_front();
        }
        if let Some(number) = taken_number(end) {
            self.worker.took(&whole(message));
            self.worker_calls.push_front_reserved(Wish::Give(number));
        }
    }
}

/// The message that a caller of a bench was handed by a call that ended so, or no byte.
fn message_of<'a>(bench: &'a Bench, caller: CallerNo, end: &CallEnd) -> &'a [u8]
    requires { HoldsTaken (link_in bench.now) caller end.now }
    ensures message { result.now ≡ message_of bench.now caller end.now }
    ensures short { length result.now ≤ MESSAGE_MOST }
{
    match taken_number(end) {
        Some(number) => bench.taken_message(caller, number),
        None => &[],
    }
}

/// Whether a call that ended so is made again.
fn is_tried_again(end: &CallEnd) -> bool
    ensures { result ≡ is_tried_again end.now }
{
    matches!(
        end,
        CallEnd::Busy(_) | CallEnd::NoBuffer(_, _) | CallEnd::Empty(_)
    )
}

/// The number of the message that a call was handed.
fn taken_number(end: &CallEnd) -> Option<u64>
    ensures { result ≡ taken_number end.now }
{
    match end {
        CallEnd::Took(number, _) => Some(*number),
        _ => None,
    }
}

/// Whether the drivers send something for a message that a host caller was handed with this verdict. The
/// answer is what they send then.
fn answers(drivers: &mut Drivers, message: &[u8], verdict: &Verdict, answer: &mut Message) -> bool
    requires { length message.now ≤ MESSAGE_MOST }
    ensures answer { (if result then Some answer.new else None) ≡ verdict_answer drivers.old message.now verdict.now }
    ensures left { drivers.new ≡ after_verdict drivers.old verdict.now }
{
    match verdict {
        Verdict::To(endpoint) => drivers.reply(*endpoint, message, answer),
        Verdict::Service(kind, name, address, Some(endpoint)) => {
            match endpoint_answer(drivers, *kind, name, *address, *endpoint) {
                Some(sent) => {
                    *answer = sent;
                    true
                }
                None => false,
            }
        }
        Verdict::Service(_, _, _, None)
        | Verdict::Dropped(_)
        | Verdict::Malformed
        | Verdict::ServiceMalformed => false,
    }
}

/// What the drivers send where a service message of this kind bound or unbound an endpoint.
fn endpoint_answer(
    drivers: &mut Drivers,
    kind: NsKind,
    name: &Name,
    address: u32,
    endpoint: Endpoint,
) -> Option<Message>
    ensures answer { result ≡ endpoint_answer drivers.old kind name.now address endpoint }
    ensures left { drivers.new ≡ after_endpoint drivers.old kind name.now address endpoint }
{
    match kind {
        NsKind::Created => drivers.created(name, endpoint, address),
        NsKind::Destroyed => {
            drivers.destroyed(endpoint);
            None
        }
        NsKind::Duplicate | NsKind::Unknown | NsKind::ChannelsFull => None,
    }
}

/// The message of these bytes.
fn whole(bytes: &[u8]) -> Message
    requires { length bytes.now ≤ MESSAGE_MOST }
    ensures { result ≡ bytes.now }
{
    let mut message = Message::empty();
    message.set(bytes, &[]);
    message
}
