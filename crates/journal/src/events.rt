use crate::tables::TableLine;
use rp_base::{
    CrashKind, Da, Data, DriverKind, End, Endpoint, Era, LifeState, Name, NsKind, Switch,
};

/// What a run writes: one line of the transcript. The first field of most is the name of the link or
/// the core, and the second of those of a call is the number of its caller.
#[derive(Drop)]
pub enum Event {
    /// There is no link or core of this name that the command could be for.
    Unknown {
        name: Name,
    },
    /// The core has no link.
    NoLink {
        name: Name,
    },
    /// A link or a core of this name is there already.
    Exists {
        name: Name,
    },
    /// There are as many links and cores as there may be.
    ObjectsFull,
    /// The link is live in this incarnation.
    Open {
        name: Name,
        inc: u64,
    },
    /// The link was closed: the incarnation that ended.
    Closed {
        name: Name,
        inc: u64,
    },
    /// The link was closed before, or is in another incarnation.
    Already {
        name: Name,
        era: Era,
    },
    /// The link is live in this incarnation, and must not be.
    StillOpen {
        name: Name,
        inc: u64,
    },
    /// A caller holds the buffer of this message: caller, number.
    StillHeld {
        name: Name,
        caller: u64,
        number: u64,
    },
    /// The link has had its last incarnation.
    IncarnationsSpent {
        name: Name,
    },
    /// What a caller held is taken back.
    Reclaimed {
        name: Name,
        caller: u64,
    },
    /// A turn that is needed is this caller's, or the manager's.
    BusyTurn {
        name: Name,
        holder: u64,
    },
    /// A caller was made: its number and its end.
    Caller {
        name: Name,
        caller: u64,
        end: End,
    },
    /// As many callers are in use as there may be.
    CallersFull {
        name: Name,
    },
    /// No caller of this number is in use.
    NoCaller {
        name: Name,
        caller: u64,
    },
    /// The caller has a call under way.
    InCall {
        name: Name,
        caller: u64,
    },
    /// The caller has no call under way.
    NoCall {
        name: Name,
        caller: u64,
    },
    /// The caller does not hold the buffer of this message.
    NotHeld {
        name: Name,
        caller: u64,
        number: u64,
    },
    /// The payload has too many bytes.
    TooLong {
        name: Name,
        caller: u64,
        len: u64,
    },
    /// A call was begun.
    Begun {
        name: Name,
        caller: u64,
    },
    /// A call goes on: the number of its last step.
    At {
        name: Name,
        caller: u64,
        step: u64,
    },
    /// A message was accepted: caller, number.
    Sent {
        name: Name,
        caller: u64,
        number: u64,
    },
    /// A buffer came back: caller, number of the message.
    Gave {
        name: Name,
        caller: u64,
        number: u64,
    },
    /// An endpoint was bound.
    Bound {
        name: Name,
        caller: u64,
        endpoint: Endpoint,
    },
    /// An endpoint was unbound.
    Unbound {
        name: Name,
        caller: u64,
        endpoint: Endpoint,
    },
    /// Another has the turn: caller, holder.
    Busy {
        name: Name,
        caller: u64,
        holder: u64,
    },
    /// The era is another, or closed.
    Dead {
        name: Name,
        caller: u64,
        era: Era,
    },
    /// Each buffer is out: caller, messages accepted, buffers returned.
    NoBuffer {
        name: Name,
        caller: u64,
        accepted: u64,
        returned: u64,
    },
    /// The book is full: caller, messages accepted.
    BookFull {
        name: Name,
        caller: u64,
        accepted: u64,
    },
    /// Each message was handed over: caller, messages accepted.
    Empty {
        name: Name,
        caller: u64,
        accepted: u64,
    },
    /// The address is bound already.
    AddressTaken {
        name: Name,
        caller: u64,
        address: u64,
    },
    /// There are as many endpoints as there may be.
    EndpointsFull {
        name: Name,
        caller: u64,
    },
    /// Nothing is bound at the address.
    NotBound {
        name: Name,
        caller: u64,
        address: u64,
    },
    /// A message went to an endpoint: caller, number, source address, endpoint, payload.
    TookFromTo {
        name: Name,
        caller: u64,
        number: u64,
        source: u64,
        endpoint: Endpoint,
        payload: Data,
    },
    /// A message went nowhere: caller, number, source and destination address, payload.
    TookFromDropped {
        name: Name,
        caller: u64,
        number: u64,
        source: u64,
        destination: u64,
        payload: Data,
    },
    /// A message without a whole header: caller, number.
    TookMalformed {
        name: Name,
        caller: u64,
        number: u64,
    },
    /// A name service message: caller, number, what it did, the channel's name and address.
    TookNs {
        name: Name,
        caller: u64,
        number: u64,
        kind: NsKind,
        channel: Name,
        address: u64,
    },
    /// A message to the name service that is none of its messages: caller, number.
    TookNsMalformed {
        name: Name,
        caller: u64,
        number: u64,
    },
    /// The counts of a lane: its number, messages accepted and handed over, buffers returned.
    LaneAcceptedHandedReturned {
        name: Name,
        lane: u64,
        accepted: u64,
        handed: u64,
        returned: u64,
    },
    /// A pump ended: the turns whose give was done.
    Pumped {
        name: Name,
        turns: u64,
    },
    /// An image was made: its bytes.
    Image {
        name: Name,
        len: u64,
    },
    /// An image of this name was made already.
    ImageExists {
        name: Name,
    },
    /// The ring of a lane: the lane, and how many bytes the ring has.
    Ring {
        name: Name,
        lane: u64,
        len: u64,
    },
    /// Up to sixteen bytes of a ring that aren't all zero: where they begin, and the bytes.
    Dump {
        name: Name,
        offset: u64,
        bytes: Data,
    },
    /// A turn of the link is out: its caller.
    StillTurn {
        name: Name,
        caller: u64,
    },
    /// The receiver of a pump is on the sender's end.
    WrongSide {
        name: Name,
        caller: u64,
    },
    /// A channel of the name service: its name and address, and the endpoint that was bound for it.
    Channel {
        name: Name,
        channel: Name,
        address: u64,
        endpoint: Option<Endpoint>,
    },
    /// The core has no power.
    Offline {
        name: Name,
    },
    /// The core has power, and must not have.
    NotOffline {
        name: Name,
    },
    /// A region was added: its place among the core's, from 0.
    Region {
        name: Name,
        region: u64,
    },
    /// A driver was declared: the name of its channels, and what it does.
    Driver {
        name: Name,
        channel: Name,
        kind: DriverKind,
    },
    /// A driver of this name is declared already.
    DriverTaken {
        name: Name,
        channel: Name,
    },
    /// There are as many drivers as there may be.
    DriversFull {
        name: Name,
    },
    /// The core runs, in this incarnation.
    Running {
        name: Name,
        inc: u64,
    },
    /// How many users the core has.
    Users {
        name: Name,
        users: u64,
    },
    /// There is no image of this name.
    Missing {
        name: Name,
        image: Name,
    },
    /// The image of this name is longer than it may be.
    TooLarge {
        name: Name,
        image: Name,
    },
    /// What was asked for is refused: the number of the fault.
    Fault {
        name: Name,
        fault: u64,
    },
    /// What was asked for is refused: the number of the fault, and of the segment, the entry or the
    /// caller that it is about.
    FaultAt {
        name: Name,
        fault: u64,
        index: u64,
    },
    /// The core crashed.
    Crashed {
        name: Name,
        kind: CrashKind,
    },
    /// The core had crashed before.
    AlreadyCrashed {
        name: Name,
    },
    /// Whether a core that crashed may be recovered.
    Recovery {
        name: Name,
        switch: Switch,
    },
    /// The state of the core, its users and its incarnation.
    State {
        name: Name,
        state: LifeState,
        users: u64,
        inc: u64,
    },
    /// The worker of the core did what it must not: the number of the fault.
    WorkerFault {
        name: Name,
        fault: u64,
    },
    /// A drive ended, since nothing was left to do.
    Idle {
        name: Name,
    },
    /// A drive ended with its count.
    Paused {
        name: Name,
    },
    /// A drive ended, since the core crashed.
    Stopped {
        name: Name,
    },
    /// The core is neither running nor attached.
    NotRunning {
        name: Name,
    },
    /// No image is loaded.
    NotLoaded {
        name: Name,
    },
    /// A line about the resource table.
    Table {
        name: Name,
        line: TableLine,
    },
    /// A trace: its place among the traces of the table, from 0, and its text.
    Trace {
        name: Name,
        trace: u64,
        text: Data,
    },
    /// There is no such trace.
    NoTrace {
        name: Name,
        trace: u64,
    },
    /// Bytes of the core's memory: where they begin, and the bytes.
    Mem {
        name: Name,
        da: Da,
        bytes: Data,
    },
    /// Not all of these bytes are in one memory block: where they begin, and how many.
    Unmapped {
        name: Name,
        da: Da,
        len: u64,
    },
    /// The core has not crashed, and must have.
    NotCrashed {
        name: Name,
    },
    /// The dump of the core's memory is longer than an image may be: its bytes.
    DumpTooLarge {
        name: Name,
        len: u64,
    },
    /// As many dumps were kept as a script may keep.
    DumpsFull {
        name: Name,
    },
    /// The core is in the hands of another party, and has no users.
    Detached {
        name: Name,
    },
    /// The core, which another party has started, is attached to, in this incarnation.
    Attached {
        name: Name,
        inc: u64,
    },
}
