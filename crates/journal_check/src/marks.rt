ghost use Rattle.std.specs.Prelude.{◌≡◌};
ghost use Rattle.journal_check.specs.Marks.{mark_of};

use journal::Event;
use rp_base::{End, Endpoint, Name};

/// What became of a message that was taken.
#[derive(Clone, Copy, Drop)]
pub(crate) enum Fate {
    /// It was handed to an endpoint.
    To(Endpoint),
    /// Nothing was bound at its address.
    Dropped(u64),
    /// It was no message to an endpoint.
    Other,
}

/// What a line says that a rule speaks of. The first field of a call's end is its caller.
#[derive(Clone, Copy, Drop)]
pub(crate) enum What {
    /// The name is that of a core.
    Core,
    /// An incarnation begins.
    Opens(u64),
    /// An incarnation ends.
    Closes(u64),
    /// A caller was made at an end.
    Caller(u64, End),
    /// A message was sent: its number.
    Sent(u64, u64),
    /// A message was taken: its number and its fate.
    Took(u64, u64, Fate),
    /// An endpoint was bound.
    Bound(u64, Endpoint),
    /// An endpoint was unbound.
    Unbound(u64, Endpoint),
}

/// What a line says, and of which link or core.
#[derive(Clone, Copy, Drop)]
pub(crate) struct Mark {
    pub(crate) name: Name,
    pub(crate) what: What,
}

/// What an event says, if a rule speaks of it.
pub(crate) fn mark_of(event: &Event) -> Option<Mark>
    ensures { result ≡ mark_of event.now }
{
    let (name, what) = match event {
        Event::Offline { name } => (name, What::Core),
        Event::Open { name, inc } | Event::Running { name, inc } | Event::Attached { name, inc } =>
            (name, What::Opens(*inc)),
        Event::Closed { name, inc } => (name, What::Closes(*inc)),
        Event::Caller { name, caller, end } => (name, What::Caller(*caller, *end)),
        Event::Sent {
            name,
            caller,
            number,
        } => (name, What::Sent(*caller, *number)),
        Event::TookFromTo {
            name,
            caller,
            number,
            endpoint,
            ..
        } => (name, What::Took(*caller, *number, Fate::To(*endpoint))),
        Event::TookFromDropped {
            name,
            caller,
            number,
            destination,
            ..
        } => (
            name,
            What::Took(*caller, *number, Fate::Dropped(*destination)),
        ),
        Event::TookMalformed {
            name,
            caller,
            number,
        }
        | Event::TookNs {
            name,
            caller,
            number,
            ..
        }
        | Event::TookNsMalformed {
            name,
            caller,
            number,
        } => (name, What::Took(*caller, *number, Fate::Other)),
        Event::Bound {
            name,
            caller,
            endpoint,
        } => (name, What::Bound(*caller, *endpoint)),
        Event::Unbound {
            name,
            caller,
            endpoint,
        } => (name, What::Unbound(*caller, *endpoint)),
        _ => return None,
    };
    Some(Mark { name: *name, what })
}
