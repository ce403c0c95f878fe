ghost use Rattle.std.specs.Prelude.{◌≡◌};
ghost use Rattle.script_lang.specs.declared.commands.ParseFault.TheVariants as fault;

use crate::recipes::Recipe;
use rp_base::{CrashKind, Data, DriverKind, End, Name, RegionKind, Switch};
use std::alloc::{AllocError, AllocFailed, Global};
use word_kinds::Cause;

/// The regions of memory that a core begins with.
#[derive(Clone, Copy)]
pub enum RegionSet {
    /// The standard ones.
    Standard,
    /// None.
    Bare,
}

/// A command of a script. Its first field is the name of the link or the core that it works on, but
/// for [`Quiet`](Command::Quiet).
/// Numbers are at most 2^32 - 1, and those of callers less than [`CALLERS_MOST`](rp_base::CALLERS_MOST).
#[derive(Drop)]
pub enum Command {
    /// Makes a link: the entries of the ring to the host and of the ring to the remote, and how many
    /// messages each lane accepts.
    Link {
        name: Name,
        entries_to_host: u64,
        entries_to_remote: u64,
        book: u64,
    },
    /// Makes a link whose host end has the name service, with the same numbers.
    NsLink {
        name: Name,
        entries_to_host: u64,
        entries_to_remote: u64,
        book: u64,
    },
    /// Makes a caller at an end.
    Caller {
        name: Name,
        end: End,
    },
    /// A whole send: caller, source and destination address, payload.
    Send {
        name: Name,
        caller: u64,
        source: u64,
        destination: u64,
        payload: Data,
    },
    /// A whole send of a message as it is, its header included: caller, message.
    Raw {
        name: Name,
        caller: u64,
        message: Data,
    },
    /// A whole take: caller.
    Take {
        name: Name,
        caller: u64,
    },
    /// A whole give: caller, number of the message.
    Give {
        name: Name,
        caller: u64,
        number: u64,
    },
    /// A whole bind: caller, address, or 2^32 - 1 for any.
    Bind {
        name: Name,
        caller: u64,
        address: u64,
    },
    /// A whole unbind: caller, address.
    Unbind {
        name: Name,
        caller: u64,
        address: u64,
    },
    /// Begins a send and takes no step of it: caller, source and destination address, payload.
    BeginSend {
        name: Name,
        caller: u64,
        source: u64,
        destination: u64,
        payload: Data,
    },
    /// Begins a send of a message as it is: caller, message.
    BeginRaw {
        name: Name,
        caller: u64,
        message: Data,
    },
    /// Begins a take: caller.
    BeginTake {
        name: Name,
        caller: u64,
    },
    /// Begins a give: caller, number of the message.
    BeginGive {
        name: Name,
        caller: u64,
        number: u64,
    },
    /// Begins a bind: caller, address, or 2^32 - 1 for any.
    BeginBind {
        name: Name,
        caller: u64,
        address: u64,
    },
    /// Begins an unbind: caller, address.
    BeginUnbind {
        name: Name,
        caller: u64,
        address: u64,
    },
    /// Takes so many steps of a caller's call, fewer where it ends before: caller, steps.
    Step {
        name: Name,
        caller: u64,
        count: u64,
    },
    /// Takes all the steps of a caller's call that are left: caller.
    Finish {
        name: Name,
        caller: u64,
    },
    /// So many times a send, its take and its give: sender, receiver, turns.
    Pump {
        name: Name,
        sender: u64,
        receiver: u64,
        count: u64,
    },
    /// Says the counts of both lanes.
    Books {
        name: Name,
    },
    /// The bytes of a lane's ring.
    Ring {
        name: Name,
        lane: u64,
    },
    /// Says the channels that the host's end of the link knows.
    Channels {
        name: Name,
    },
    /// Closes the link.
    Close {
        name: Name,
    },
    /// Takes from a caller of a closed link its call and what it holds: caller.
    Reclaim {
        name: Name,
        caller: u64,
    },
    /// Opens a closed link again, in its next incarnation.
    Reopen {
        name: Name,
    },
    /// Makes a core: its first regions, and how many messages each lane of its link accepts.
    Core {
        name: Name,
        regions: RegionSet,
        book: u64,
    },
    /// Adds a region to a core: what it serves for, device address, physical address, length in
    /// bytes.
    Region {
        name: Name,
        kind: RegionKind,
        da: u64,
        pa: u64,
        len: u64,
    },
    /// Declares a driver of a core: the name of its channel, what it does.
    Driver {
        name: Name,
        channel: Name,
        kind: DriverKind,
    },
    /// Hands a core over from another party, which has loaded the image of this name.
    Handover {
        name: Name,
        image: Name,
    },
    /// Boots a core with the image of this name, attaches a detached one, or adds a user.
    Boot {
        name: Name,
        image: Name,
    },
    /// Takes a user away from a core, and shuts it down with the last.
    Shutdown {
        name: Name,
    },
    /// Takes a user away from an attached core, and detaches it with the last.
    Detach {
        name: Name,
    },
    /// The state of a core, its users and its incarnation.
    State {
        name: Name,
    },
    /// The resource table of a core as it was loaded.
    Table {
        name: Name,
    },
    /// The text of a trace buffer of a core: which of them, from 0.
    Trace {
        name: Name,
        trace: u64,
    },
    /// Bytes of a core's memory: device address, length from 1 to 256.
    Mem {
        name: Name,
        da: u64,
        len: u64,
    },
    /// Reports a crash of a core.
    Crash {
        name: Name,
        kind: CrashKind,
    },
    /// Recovers a crashed core.
    Recover {
        name: Name,
    },
    /// Whether a core that crashed may be recovered.
    Recovery {
        name: Name,
        switch: Switch,
    },
    /// Takes so many steps of the actors of a core: steps.
    Drive {
        name: Name,
        count: u64,
    },
    /// Keeps the dump of a crashed core as the image of a name.
    Dump {
        name: Name,
        image: Name,
    },
    /// Whether a drive writes no lines of its calls.
    Quiet {
        switch: Switch,
    },
    /// Makes an image of this name by a recipe.
    Image {
        name: Name,
        recipe: Recipe,
    },
}

/// A script: its commands in order.
#[derive(Drop)]
pub struct Script {
    pub commands: Vec<Command>,
}

/// Why a text was not parsed.
#[derive(Clone, Copy, Debug, PartialEq, Eq)]
pub enum ParseFault {
    /// It is no script: the number of the first bad line, from 1, or 0 where the text is too long.
    Refused(u32, Cause),
    /// Memory ran out.
    NoMemory,
}

impl From<AllocError> for ParseFault {
    ghost from_gives = { λ _ e. e ≡ fault.NoMemory };

    fn from(_error: AllocError) -> ParseFault {
        ParseFault::NoMemory
    }
}

impl<T: Drop> From<AllocFailed<T>> for ParseFault {
    ghost from_gives = { λ _ e. e ≡ fault.NoMemory };

    fn from(_error: AllocFailed<T>) -> ParseFault {
        ParseFault::NoMemory
    }
}
