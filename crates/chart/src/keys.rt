use rp_base::Name;

/// Where a lifeline is in its link or core: callers of the host to the left of its own, those of
/// the remote to the right.
#[derive(Clone, Copy, Debug, PartialEq, Eq, Hash)]
pub enum Side {
    /// A caller of the host.
    Host,
    /// The link or the core itself.
    Own,
    /// A caller of the remote.
    Remote,
}

/// A lifeline: of a caller of a link or a core, or, as caller 0, of the link or the core itself.
#[derive(Clone, Copy, Debug, PartialEq, Eq, Hash)]
pub struct Lifeline {
    pub name: Name,
    pub side: Side,
    pub caller: u64,
}

/// A caller by its link or core and its number.
#[derive(Clone, Copy, Debug, PartialEq, Eq, Hash)]
pub struct Caller {
    pub name: Name,
    pub number: u64,
}

/// A message: its link or core, its incarnation, its lane, 0 to the host and 1 to the remote, and
/// its number there.
#[derive(Clone, Copy, Debug, PartialEq, Eq, Hash)]
pub struct Message {
    pub name: Name,
    pub incarnation: u64,
    pub lane: u64,
    pub number: u64,
}

/// An end of the arrow of a message: where it was sent, or where it was taken.
#[derive(Clone, Copy, Debug, PartialEq, Eq, Hash)]
pub struct ArrowEnd {
    pub message: Message,
    pub is_sent: bool,
}
