use crate::names::Name;

/// One of the two processors that a link joins. The host boots the remote.
#[derive(Clone, Copy, Debug, PartialEq, Eq)]
pub enum End {
    Host,
    Remote,
}

/// The life that a link is in: its incarnation, from 1, and whether it is live.
#[derive(Clone, Copy, Debug, PartialEq, Eq)]
pub struct Era {
    pub inc: u32,
    pub is_live: bool,
}

/// An address with the number of its binding in this incarnation, from 1.
#[derive(Clone, Copy, Debug, PartialEq, Eq)]
pub struct Endpoint {
    pub address: u32,
    pub generation: u64,
}

/// An endpoint that is bound, and how many messages had been handed over when it was bound.
/// Contracts speak of it.
#[derive(Clone, Copy)]
pub struct BoundEndpoint {
    pub endpoint: Endpoint,
    pub since: u64,
}

/// What a name service message did (Linux `rpmsg/ns.h`).
#[derive(Clone, Copy, Debug, PartialEq, Eq)]
pub enum NsKind {
    /// A channel was made.
    Created,
    /// The channel to be made was there already.
    Duplicate,
    /// A channel was removed.
    Destroyed,
    /// The channel to be removed was not there.
    Unknown,
    /// There was no room for one more channel.
    ChannelsFull,
}

/// What became of a message that was handed over (Linux `virtio_rpmsg_bus.c`).
#[derive(Clone, Copy, Debug, PartialEq, Eq)]
pub enum Verdict {
    /// It goes to the endpoint that is bound at its destination.
    To(Endpoint),
    /// Nothing is bound at this destination.
    Dropped(u32),
    /// It has no whole header, or its header claims more bytes than there are.
    Malformed,
    /// The name service took it: what it did, the channel's name and address, and the endpoint
    /// that it bound or unbound.
    Service(NsKind, Name, u32, Option<Endpoint>),
    /// It went to the name service and is no name service message.
    ServiceMalformed,
}

/// Why an endpoint was not bound or unbound.
#[derive(Clone, Copy, Debug, PartialEq, Eq)]
pub enum BindFault {
    /// The address is bound already.
    AddressTaken(u32),
    /// There is no room for one more endpoint.
    EndpointsFull,
    /// Nothing is bound at the address.
    NotBound(u32),
}

/// What a crash report says (`enum rproc_crash_type` of `remoteproc.h`).
#[derive(Clone, Copy, Debug, PartialEq, Eq)]
pub enum CrashKind {
    Mmufault,
    Watchdog,
    Fatal,
}

/// The state of a core (the states of the Linux remoteproc documentation).
#[derive(Clone, Copy, Debug, PartialEq, Eq)]
pub enum LifeState {
    /// The core has no power.
    Offline,
    /// The core runs its firmware.
    Running,
    /// The core stopped by a fault, and waits to be recovered.
    Crashed,
    /// Another party started the core, and it has users here.
    Attached,
    /// Another party started the core, and it has no users here.
    Detached,
}

/// What the memory of a region serves for.
#[derive(Clone, Copy)]
pub enum RegionKind {
    /// It is always mapped (tightly coupled memory).
    Tcm,
    /// Blocks are placed in it, and only these are mapped.
    Pool,
}

/// What a driver does with a message.
#[derive(Clone, Copy)]
pub enum DriverKind {
    /// It takes the message and answers nothing.
    Sink,
    /// It sends the message back.
    Echo,
    /// It answers as the sample client of Linux does (`rpmsg_client_sample.c`).
    Sample,
}

/// Whether something is on.
#[derive(Clone, Copy)]
pub enum Switch {
    On,
    Off,
}
