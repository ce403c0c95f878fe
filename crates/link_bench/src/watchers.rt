use crate::benches::Bench;
use lane_model::CallEnd;
use rp_base::{CallerNo, NoMemory};

/// Who sees how the calls on a link end: nobody, or the actors of a core.
pub trait Watcher {
    ghost use Rattle.std.specs.Prelude.{◌≡◌, OnOk};
    ghost use Rattle.link_bench.specs.Benches.{HoldsTaken, link_in};
    ghost use Rattle.link_bench.specs.Watchers.{Seeing};

    /// What contracts tell apart of watchers.
    ghost State: { Type 0 };

    /// What they see of this one.
    ghost state: { Self → State };

    /// What it makes of the end of a call.
    ghost sees: { Seeing State };

    /// It has room for what it makes of the end of one call.
    ghost HasRoom: { Self → Type 0 };

    /// Makes room for what it makes of the end of one call.
    ///
    /// Errors: only if memory runs out.
    fn make_room(&mut self) -> Result<(), NoMemory>
        ensures room { OnOk result (HasRoom self.new) }
        ensures same { state self.new ≡ state self.old };

    /// Sees the end of a call of a caller, on the bench that the call left.
    fn see(&mut self, bench: &Bench, caller: CallerNo, end: &CallEnd)
        requires room { HasRoom self.old }
        requires taken { HoldsTaken (link_in bench.now) caller end.now }
        ensures { state self.new ≡ sees bench.now caller end.now (state self.old) };
}

/// A watcher that sees nothing.
#[derive(Drop)]
pub struct Nobody;

impl Watcher for Nobody {
    ghost use Rattle.link_bench.specs.Watchers.{nobody_sees};

    ghost State = { Unit {0} };

    ghost state = { λ _. tt };

    ghost sees = { nobody_sees };

    ghost HasRoom = { λ _. Unit {0} };

    fn make_room(&mut self) -> Result<(), NoMemory> {
        Ok(())
    }

    fn see(&mut self, _bench: &Bench, _caller: CallerNo, _end: &CallEnd) {}
}
