ghost use Rattle.std.specs.Prelude.{◌≡◌, ◌<◌, ◌≤◌, ◌+◌, None, Some, IfErr, IfOk, OnErr, OnOk};
ghost use Rattle.std.specs.Option.{option_or};
ghost use Rattle.host_driver.specs.Drivers.{driver_fault};
ghost use Rattle.host_driver.specs.declared.drivers.DriverFault.TheVariants as fault;
ghost use Rattle.std.specs.VecDeque.{deque_capacity, deque_len};
ghost use Rattle.core_actors.specs.Actors.{actors_view, driver_names, fresh_actors, new_actors, other_actor, with_driver};

use host_driver::{DriverFault, Drivers};
use lane_model::Wish;
use remote_core::Worker;
use rp_base::{CallerNo, Da, DriverKind, Name, NoMemory};
use std::alloc::Global;
use std::collections::VecDeque;

/// The caller of a core's link by which its drivers make calls.
pub const HOST_CALLER: CallerNo = 0;

/// The caller of a core's link by which its worker makes calls.
pub const WORKER_CALLER: CallerNo = 1;

/// Who makes calls on a core's link: the host's drivers, as [`HOST_CALLER`], or the remote's worker, as
/// [`WORKER_CALLER`].
#[derive(Clone, Copy)]
pub enum Actor {
    Host,
    Worker,
}

impl Actor {
    /// The one who is not this one.
    pub(crate) fn other(self) -> Actor
        ensures { result ≡ other_actor self }
    {
        match self {
            Actor::Host => Actor::Worker,
            Actor::Worker => Actor::Host,
        }
    }
}

/// The actors of a core.
#[derive(Drop)]
pub struct Actors {
    pub(crate) drivers: Drivers,
    pub(crate) worker: Worker,
    /// The calls that the host actor is yet to make, in order. One under way stays until it ends.
    pub(crate) host_calls: VecDeque<Wish>,
    /// The same of the worker.
    pub(crate) worker_calls: VecDeque<Wish>,
    /// Whether the host actor is in a take that is not among its calls.
    pub(crate) is_taking: bool,
    /// The one whose turn is next.
    pub(crate) next: Actor,
}

impl Actors {
    /// The actors of a core that was never booted, with these drivers.
    pub fn new(alloc: Global, kinds: Vec<(Name, DriverKind)>) -> Result<Actors, NoMemory>
        ensures { IfOk result (λ actors. actors_view actors ≡ new_actors kinds.items) }
    {
        Ok(Actors {
            drivers: Drivers::new(alloc, kinds)?,
            worker: Worker::new(0),
            host_calls: VecDeque::new(alloc),
            worker_calls: VecDeque::new(alloc),
            is_taking: false,
            next: Actor::Host,
        })
    }

    /// Has the actors begin anew, with a worker whose first record is at this device address.
    pub fn restart(&mut self, entry: Da)
        ensures { actors_view self.new ≡ fresh_actors (actors_view self.old) entry }
    {
        self.drivers.reset();
        self.worker = Worker::new(entry);
        self.host_calls.clear();
        self.worker_calls.clear();
        self.is_taking = false;
        self.next = Actor::Host;
    }

    /// Whose turn is next.
    pub fn next(&self) -> Actor
        ensures { result ≡ (actors_view self.now).next }
    {
        self.next
    }

    /// Declares a driver for the channels of a name, after the others.
    ///
    /// Errors: those of [`Drivers::add`]. The actors are as they were then.
    pub fn add_driver(
        &mut self,
        alloc: Global,
        name: Name,
        kind: DriverKind,
    ) -> Result<(), DriverFault>
        ensures added { OnOk result (actors_view self.new ≡ with_driver (actors_view self.old) (name, kind)) }
        ensures fits { OnOk result (driver_fault (actors_view self.old).drivers.kinds name ≡ None) }
        ensures refused { IfErr result (λ why. option_or (driver_fault (actors_view self.old).drivers.kinds name) (Some fault.NoMemory) ≡ Some why) }
        ensures unchanged { OnErr result (actors_view self.new ≡ actors_view self.old) }
    {
        self.drivers.add(alloc, name, kind)
    }

    /// The names of the declared drivers.
    ///
    /// Errors: only if memory runs out.
    pub fn driver_names(&self, alloc: Global) -> Result<Vec<Name>, NoMemory>
        ensures { IfOk result (λ names. names.items ≡ driver_names (actors_view self.now)) }
    {
        self.drivers.names(alloc)
    }
}

/// Makes room for so many more calls.
#[inline(always)]
pub(crate) fn make_room(calls: &mut VecDeque<Wish>, more: usize) -> Result<(), NoMemory>
    ensures items { calls.new.items ≡ calls.old.items }
    ensures room { OnOk result (deque_len calls.new + more ≤ deque_capacity calls.new) }
{
    if more <= calls.capacity() - calls.len() {
        return Ok(());
    }
    Ok(calls.reserve(more)?)
}
