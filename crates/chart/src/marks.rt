ghost use Rattle.std.specs.Prelude.{◌≡◌};
ghost use Rattle.chart.specs.Marks.{teller_of, deed_of, said_by};

use journal::Event;
use rp_base::{End, Name};

/// Which link or core a line is about, and which of its callers, if one.
#[derive(Clone, Copy)]
pub(crate) struct Teller {
    pub(crate) name: Name,
    pub(crate) caller: Option<u64>,
}

/// What a line says that a chart shows by more than its text.
#[derive(Clone, Copy)]
pub(crate) enum Deed {
    /// An incarnation begins.
    Opens(u64),
    /// An incarnation ends.
    Closes,
    /// A core crashes.
    Crashes,
    /// A caller is made: its number and its end.
    Joins(u64, End),
    /// A message was sent: its number.
    Sent(u64),
    /// A message was taken: its number, and whether nothing was bound at its address.
    Took(u64, bool),
    /// Anything else.
    Other,
}

/// A line of a link or a core.
#[derive(Clone, Copy)]
pub(crate) struct Said {
    pub(crate) teller: Teller,
    pub(crate) deed: Deed,
}

/// What an event says of a link or a core, if it is about one.
pub(crate) fn said_by(event: &Event) -> Option<Said>
    ensures { result ≡ said_by event.now }
{
    let teller = teller_of(event)?;
    Some(Said {
        teller,
        deed: deed_of(event),
    })
}

/// Whom an event is about.
fn teller_of(event: &Event) -> Option<Teller>
    ensures { result ≡ teller_of event.now }
{
    match event {
        Event::InCall { name, caller }
        | Event::NoCall { name, caller }
        | Event::NotHeld { name, caller, .. }
        | Event::TooLong { name, caller, .. }
        | Event::Begun { name, caller }
        | Event::At { name, caller, .. }
        | Event::Sent { name, caller, .. }
        | Event::Gave { name, caller, .. }
        | Event::Bound { name, caller, .. }
        | Event::Unbound { name, caller, .. }
        | Event::Busy { name, caller, .. }
        | Event::Dead { name, caller, .. }
        | Event::NoBuffer { name, caller, .. }
        | Event::BookFull { name, caller, .. }
        | Event::Empty { name, caller, .. }
        | Event::AddressTaken { name, caller, .. }
        | Event::EndpointsFull { name, caller }
        | Event::NotBound { name, caller, .. }
        | Event::TookFromTo { name, caller, .. }
        | Event::TookFromDropped { name, caller, .. }
        | Event::TookMalformed { name, caller, .. }
        | Event::TookNs { name, caller, .. }
        | Event::TookNsMalformed { name, caller, .. }
        | Event::WrongSide { name, caller } => Some(Teller {
            name: *name,
            caller: Some(*caller),
        }),
        Event::NoLink { name }
        | Event::Exists { name }
        | Event::Open { name, .. }
        | Event::Closed { name, .. }
        | Event::Already { name, .. }
        | Event::StillOpen { name, .. }
        | Event::StillHeld { name, .. }
        | Event::IncarnationsSpent { name }
        | Event::Reclaimed { name, .. }
        | Event::BusyTurn { name, .. }
        | Event::Caller { name, .. }
        | Event::CallersFull { name }
        | Event::NoCaller { name, .. }
        | Event::LaneAcceptedHandedReturned { name, .. }
        | Event::Pumped { name, .. }
        | Event::Ring { name, .. }
        | Event::Dump { name, .. }
        | Event::StillTurn { name, .. }
        | Event::Channel { name, .. }
        | Event::Offline { name }
        | Event::NotOffline { name }
        | Event::Region { name, .. }
        | Event::Driver { name, .. }
        | Event::DriverTaken { name, .. }
        | Event::DriversFull { name }
        | Event::Running { name, .. }
        | Event::Users { name, .. }
        | Event::Missing { name, .. }
        | Event::TooLarge { name, .. }
        | Event::Fault { name, .. }
        | Event::FaultAt { name, .. }
        | Event::Crashed { name, .. }
        | Event::AlreadyCrashed { name }
        | Event::Recovery { name, .. }
        | Event::State { name, .. }
        | Event::WorkerFault { name, .. }
        | Event::Idle { name }
        | Event::Paused { name }
        | Event::Stopped { name }
        | Event::NotRunning { name }
        | Event::NotLoaded { name }
        | Event::Table { name, .. }
        | Event::Trace { name, .. }
        | Event::NoTrace { name, .. }
        | Event::Mem { name, .. }
        | Event::Unmapped { name, .. }
        | Event::NotCrashed { name }
        | Event::DumpTooLarge { name, .. }
        | Event::DumpsFull { name }
        | Event::Detached { name }
        | Event::Attached { name, .. } => Some(Teller {
            name: *name,
            caller: None,
        }),
        Event::ObjectsFull
        | Event::Unknown { .. }
        | Event::Image { .. }
        | Event::ImageExists { .. } => None,
    }
}

/// What an event says that is shown by more than its text.
fn deed_of(event: &Event) -> Deed
    ensures { result ≡ deed_of event.now }
{
    match event {
        Event::Open { inc, .. } | Event::Running { inc, .. } | Event::Attached { inc, .. } =>
            Deed::Opens(*inc),
        Event::Closed { .. } => Deed::Closes,
        Event::Crashed { .. } => Deed::Crashes,
        Event::Caller { caller, end, .. } => Deed::Joins(*caller, *end),
        Event::Sent { number, .. } => Deed::Sent(*number),
        Event::TookFromTo { number, .. }
        | Event::TookMalformed { number, .. }
        | Event::TookNs { number, .. }
        | Event::TookNsMalformed { number, .. } => Deed::Took(*number, false),
        Event::TookFromDropped { number, .. } => Deed::Took(*number, true),
        _ => Deed::Other,
    }
}
