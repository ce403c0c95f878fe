ghost use Rattle.std.specs.Prelude.{◌≡◌};
ghost use Rattle.script_lang.specs.Runnable.{IsRunnable};
ghost use Rattle.link_commands.specs.Acts.{IsFitLine, bare_line, config_of, line_of};

use lane_model::LinkConfig;
use link_bench::{CallWish, How, LinkAct};
use memory_pool::Region;
use rp_base::{CallerNo, CrashKind, Da, DriverKind, Name, Switch};
use script_lang::{Command, Recipe, RegionSet};

/// What a command is about. The recipe and the bytes that it names are an `R` and a `P`: borrowed ones
/// in code.
#[derive(Clone, Copy)]
pub enum Line<R, P> {
    /// An image that is made.
    Image { name: Name, recipe: R },
    /// Whether drives write no lines of their calls.
    Quiet { switch: Switch },
    /// A crashed core that is dumped: its name, and that of the image that its dump becomes.
    Dump { name: Name, image: Name },
    /// What is done under a name.
    On { name: Name, act: NamedAct<P> },
}

/// What is done under a name.
#[derive(Clone, Copy)]
pub enum NamedAct<P> {
    /// A link or a core of this name is made.
    Make(Making),
    /// An act on the link for its callers.
    Link(LinkAct<P>),
    /// An act on the link for its manager.
    Manage(ManagerAct),
    /// What the link shows.
    Show(LinkView),
    /// An act on the core.
    Core(CoreAct),
}

/// What is made under a name.
#[derive(Clone, Copy)]
pub enum Making {
    /// A link, whose host end has the name service or not.
    Link {
        config: LinkConfig,
        has_service: bool,
    },
    /// A core with these regions, each lane of whose link accepts so many messages.
    Core {
        regions: RegionSet,
        book: u32,
    },
}

/// What the manager of a link does.
#[derive(Clone, Copy)]
pub enum ManagerAct {
    /// The link is closed.
    Close,
    /// The closed link is opened in its next incarnation.
    Reopen,
}

/// What a link shows.
#[derive(Clone, Copy)]
pub enum LinkView {
    /// The counts of both lanes.
    Books,
    /// The bytes of a lane's ring.
    Ring { lane: u64 },
    /// The channels that the host's end knows.
    Channels,
}

/// What is done on a core.
#[derive(Clone, Copy)]
pub enum CoreAct {
    /// A region is added.
    Region(Region),
    /// A driver is declared for the channels of a name.
    Driver { channel: Name, kind: DriverKind },
    /// The core is started, for which it may need an image.
    Start(StartAct),
    /// A user goes, and the core is shut down with the last.
    Shutdown,
    /// A user of an attached core goes, and it is detached with the last.
    Detach,
    /// What the core shows.
    Show(CoreView),
    /// A crash is reported.
    Crash { kind: CrashKind },
    /// Whether the core may be recovered once it crashed.
    Recovery { switch: Switch },
    /// So many steps of the actors are made.
    Drive { count: u64 },
}

/// A start of a core that may need an image.
#[derive(Clone, Copy)]
pub enum StartAct {
    /// The core is booted with the image of a name, or gets a user more.
    Boot { image: Name },
    /// The core is handed over with the image of a name.
    Handover { image: Name },
    /// The crashed core is recovered with the image that was booted or handed over.
    Recover,
}

/// What a core shows.
#[derive(Clone, Copy)]
pub enum CoreView {
    /// The state, the users and the incarnation.
    State,
    /// The resource table.
    Table,
    /// The text of a trace buffer.
    Trace { trace: u64 },
    /// Bytes of the memory.
    Mem { da: Da, len: u32 },
}

/// An act under the name of a command.
macro_rules! under {
    ($name:ident, $act:expr) => {
        Line::On {
            name: *$name,
            act: $act,
        }
    };
}

/// The making of a link, whose host end has the name service or not.
macro_rules! new_link {
    ($name:ident, $to_host:ident, $to_remote:ident, $book:ident, $has_service:expr) => {{
        let config = config_of(*$to_host as u32, *$to_remote as u32, *$book as u32);
        let has_service = $has_service;
        under!($name, NamedAct::Make(Making::Link { config, has_service }))
    }};
}

/// A call of a caller, whole or begun.
macro_rules! call {
    ($how:ident, $name:ident, $caller:ident, $wish:expr) => {
        under!(
            $name,
            NamedAct::Link(LinkAct::Call {
                caller: *$caller as CallerNo,
                how: How::$how,
                wish: $wish,
            })
        )
    };
}

/// What a send wishes, by the fields of its command.
macro_rules! send {
    ($source:ident, $destination:ident, $payload:ident) => {
        CallWish::Send {
            source: *$source as u32,
            destination: *$destination as u32,
            payload: $payload.bytes(),
        }
    };
}

/// What a call of another kind wishes, by the fields of its command.
macro_rules! wish {
    (Raw, $message:ident) => {
        CallWish::Raw {
            message: $message.bytes(),
        }
    };
    (Give, $number:ident) => {
        CallWish::Give { number: *$number }
    };
    ($kind:ident, $address:ident) => {
        CallWish::$kind {
            address: *$address as u32,
        }
    };
}

/// An act on a core.
macro_rules! on_core {
    ($name:ident, $act:expr) => {
        under!($name, NamedAct::Core($act))
    };
}

/// What a command is about. The recipe and the bytes that it names stay with it.
pub fn line_of(command: &Command) -> Line<&Recipe, &[u8]>
    requires { IsRunnable command.now }
    ensures line { bare_line (λ recipe. recipe.now) (λ bytes. bytes.now) result ≡ line_of command.now }
    ensures fit { IsFitLine (bare_line (λ recipe. recipe.now) (λ bytes. bytes.now) result) }
{
    match command {
        Command::Image { name, recipe } => Line::Image {
            name: *name,
            recipe,
        },
        Command::Quiet { switch } => Line::Quiet { switch: *switch },
        Command::Dump { name, image } => Line::Dump {
            name: *name,
            image: *image,
        },
        Command::Link {
            name,
            entries_to_host,
            entries_to_remote,
            book,
        } => new_link!(name, entries_to_host, entries_to_remote, book, false),
        Command::NsLink {
            name,
            entries_to_host,
            entries_to_remote,
            book,
        } => new_link!(name, entries_to_host, entries_to_remote, book, true),
        Command::Core {
            name,
            regions,
            book,
        } => {
            let (regions, book) = (*regions, *book as u32);
            under!(name, NamedAct::Make(Making::Core { regions, book }))
        }
        Command::Caller { name, end } => under!(
            name,
            NamedAct::Link(LinkAct::Caller { end: *end })
        ),
        Command::Send {
            name,
            caller,
            source,
            destination,
            payload,
        } => call!(Whole, name, caller, send!(source, destination, payload)),
        Command::Raw {
            name,
            caller,
            message,
        } => call!(Whole, name, caller, wish!(Raw, message)),
        Command::Take { name, caller } => call!(Whole, name, caller, CallWish::Take),
        Command::Give {
            name,
            caller,
            number,
        } => call!(Whole, name, caller, wish!(Give, number)),
        Command::Bind {
            name,
            caller,
            address,
        } => call!(Whole, name, caller, wish!(Bind, address)),
        Command::Unbind {
            name,
            caller,
            address,
        } => call!(Whole, name, caller, wish!(Unbind, address)),
        Command::BeginSend {
            name,
            caller,
            source,
            destination,
            payload,
        } => call!(Begun, name, caller, send!(source, destination, payload)),
        Command::BeginRaw {
            name,
            caller,
            message,
        } => call!(Begun, name, caller, wish!(Raw, message)),
        Command::BeginTake { name, caller } => call!(Begun, name, caller, CallWish::Take),
        Command::BeginGive {
            name,
            caller,
            number,
        } => call!(Begun, name, caller, wish!(Give, number)),
        Command::BeginBind {
            name,
            caller,
            address,
        } => call!(Begun, name, caller, wish!(Bind, address)),
        Command::BeginUnbind {
            name,
            caller,
            address,
        } => call!(Begun, name, caller, wish!(Unbind, address)),
        Command::Step {
            name,
            caller,
            count,
        } => {
            let (caller, more) = (*caller as CallerNo, *count - 1);
            under!(name, NamedAct::Link(LinkAct::Step { caller, more }))
        }
        Command::Finish { name, caller } => {
            let (caller, more) = (*caller as CallerNo, 6);
            under!(name, NamedAct::Link(LinkAct::Step { caller, more }))
        }
        Command::Pump {
            name,
            sender,
            receiver,
            count,
        } => {
            let pump = LinkAct::Pump {
                sender: *sender as CallerNo,
                receiver: *receiver as CallerNo,
                count: *count,
            };
            under!(name, NamedAct::Link(pump))
        }
        Command::Reclaim { name, caller } => {
            let caller = *caller as CallerNo;
            under!(name, NamedAct::Link(LinkAct::Reclaim { caller }))
        }
        Command::Close { name } => under!(name, NamedAct::Manage(ManagerAct::Close)),
        Command::Reopen { name } => under!(name, NamedAct::Manage(ManagerAct::Reopen)),
        Command::Books { name } => under!(name, NamedAct::Show(LinkView::Books)),
        Command::Ring { name, lane } => under!(
            name,
            NamedAct::Show(LinkView::Ring { lane: *lane })
        ),
        Command::Channels { name } => under!(name, NamedAct::Show(LinkView::Channels)),
        Command::Region {
            name,
            kind,
            da,
            pa,
            len,
        } => {
            let region = Region {
                kind: *kind,
                da: *da as u32,
                pa: *pa as u32,
                len: *len as u32,
            };
            on_core!(name, CoreAct::Region(region))
        }
        Command::Driver {
            name,
            channel,
            kind,
        } => {
            let (channel, kind) = (*channel, *kind);
            on_core!(name, CoreAct::Driver { channel, kind })
        }
        Command::Boot { name, image } => {
            on_core!(name, CoreAct::Start(StartAct::Boot { image: *image }))
        }
        Command::Handover { name, image } => {
            on_core!(name, CoreAct::Start(StartAct::Handover { image: *image }))
        }
        Command::Recover { name } => on_core!(name, CoreAct::Start(StartAct::Recover)),
        Command::Shutdown { name } => on_core!(name, CoreAct::Shutdown),
        Command::Detach { name } => on_core!(name, CoreAct::Detach),
        Command::State { name } => on_core!(name, CoreAct::Show(CoreView::State)),
        Command::Table { name } => on_core!(name, CoreAct::Show(CoreView::Table)),
        Command::Trace { name, trace } => {
            on_core!(name, CoreAct::Show(CoreView::Trace { trace: *trace }))
        }
        Command::Mem { name, da, len } => {
            let (da, len) = (*da as u32, *len as u32);
            on_core!(name, CoreAct::Show(CoreView::Mem { da, len }))
        }
        Command::Crash { name, kind } => on_core!(name, CoreAct::Crash { kind: *kind }),
        Command::Recovery { name, switch } => {
            on_core!(name, CoreAct::Recovery { switch: *switch })
        }
        Command::Drive { name, count } => on_core!(name, CoreAct::Drive { count: *count }),
    }
}

/// What a script's link begins with: it is live in incarnation 1, and its buffers begin at address 0.
fn config_of(to_host: u32, to_remote: u32, book: u32) -> LinkConfig
    ensures { result ≡ config_of to_host to_remote book }
{
    LinkConfig {
        num0: to_host,
        num1: to_remote,
        book,
        first: 1,
        base: 0,
    }
}
