ghost use Rattle.std.specs.Prelude.{◌≡◌, ◌≤◌, ◌++◌, [], ◌∷◌, length, None, Some, is_some, not, OnOk, OnErr, IfOk, IfErr, option_map};
ghost use Rattle.std.specs.Option.{option_copied, option_or};
ghost use Rattle.rp_base.specs.declared.limits.TheConstants.{BOOK_MOST};
ghost use Rattle.crash_recover.specs.Cores.{IsKeptCore, IsReadyCore, add_fault, core_memory, core_trace, driver_add_fault, load_view, new_core, with_driver};
ghost use Rattle.proc_state.specs.Lives.{is_offline};
ghost use Rattle.crash_recover.specs.declared.core_faults.AddFault.TheVariants as add;

use crate::core_faults::AddFault;
use core_actors::Actors;
use fw_load::Loaded;
use link_bench::Bench;
use memory_pool::{Region, Regions};
use proc_state::Life;
use rp_base::{Da, DriverKind, LifeState, Name, NoMemory};
use std::alloc::Global;
use std::marker::Model;

/// A remote core: its regions, its life, while it isn't offline the name of its image and what that
/// became in its memory, and while it has users its link, where the image has a device for RPMsg. Its
/// actors are the drivers of the host and the worker of the remote.
#[derive(Drop)]
pub struct Core {
    pub(crate) regions: Regions,
    pub(crate) book: u32,
    pub(crate) life: Life,
    pub(crate) image: Option<Name>,
    pub(crate) loaded: Option<Loaded>,
    pub(crate) bench: Option<Bench>,
    pub(crate) actors: Actors,
}

impl Model for Core {
    ghost use Rattle.std.specs.Prelude.{option_map};
    ghost use Rattle.core_actors.specs.Actors.{actors_view};
    ghost use Rattle.crash_recover.specs.Cores.{CoreState, SoundCore, load_view};

    ghost Value = { CoreState };

    ghost view = { λ a. record {
      regions = a.regions;
      book = a.book;
      life = a.life;
      image = a.image;
      loaded = option_map load_view a.loaded;
      bench = a.bench;
      actors = actors_view a.actors;
    } };

    ghost invariant = { λ a. SoundCore a.regions a.book a.life a.image a.loaded a.bench (actors_view a.actors) };
}

impl Core {
    /// A core with these regions and drivers that was never booted. Each lane of its link is to
    /// accept `book` messages in one incarnation, 1 to 262,144. Of two drivers of one name the first
    /// counts.
    ///
    /// Errors: only if memory runs out.
    pub fn new(
        alloc: Global,
        regions: Regions,
        drivers: Vec<(Name, DriverKind)>,
        book: u32,
    ) -> Result<Core, NoMemory>
        requires some { 1 ≤ book }
        requires most { book ≤ BOOK_MOST }
        ensures { IfOk result (λ core. core ≡ new_core regions drivers.items book) }
    {
        Ok(Core {
            regions,
            book,
            life: Life::new(),
            image: None,
            loaded: None,
            bench: None,
            actors: Actors::new(alloc, drivers)?,
        })
    }

    /// Adds a region after the others, and answers its number.
    ///
    /// Errors: [`AddFault::NotOffline`], then [`AddFault::Region`] where the region doesn't fit
    /// beside the others, then [`AddFault::NoMemory`]. The core is as it was then.
    pub fn add_region(&mut self, alloc: Global, region: Region) -> Result<u16, AddFault>
        ensures number { IfOk result (λ index. index ≡ length self.old.regions) }
        ensures added { OnOk result (self.new ≡ record self.old { regions = self.old.regions ++ region ∷ [] }) }
        ensures fits { OnOk result (add_fault self.old region ≡ None) }
        ensures refused { IfErr result (λ why. option_or (add_fault self.old region) (Some add.NoMemory) ≡ Some why) }
        ensures unchanged { OnErr result (self.new ≡ self.old) }
    {
        if self.life.state() != LifeState::Offline {
            return Err(AddFault::NotOffline);
        }
        Ok(self.regions.add(alloc, region)?)
    }

    /// Declares a driver for the channels of a name, after the others.
    ///
    /// Errors: [`AddFault::NotOffline`], then [`AddFault::DriverTaken`], [`AddFault::DriversFull`] and
    /// [`AddFault::NoMemory`]. The core is as it was then.
    pub fn add_driver(
        &mut self,
        alloc: Global,
        name: Name,
        kind: DriverKind,
    ) -> Result<(), AddFault>
        ensures added { OnOk result (self.new ≡ with_driver self.old (name, kind)) }
        ensures fits { OnOk result (driver_add_fault self.old name ≡ None) }
        ensures refused { IfErr result (λ why. option_or (driver_add_fault self.old name) (Some add.NoMemory) ≡ Some why) }
        ensures unchanged { OnErr result (self.new ≡ self.old) }
    {
        if self.life.state() != LifeState::Offline {
            return Err(AddFault::NotOffline);
        }
        Ok(self.actors.add_driver(alloc, name, kind)?)
    }

    /// The life of the core.
    pub fn life(&self) -> &Life
        ensures { result.now ≡ self.now.life }
    {
        &self.life
    }

    /// Sets whether a crashed core may be recovered.
    pub fn set_recovery(&mut self, on: bool)
        ensures { self.new ≡ record self.old { life = record self.old.life { recovery = on } } }
    {
        self.life.set_recovery(on);
    }

    /// The name of the image that was booted or handed over, or none exactly where the core is offline.
    pub fn image(&self) -> Option<&Name>
        ensures name { option_copied result ≡ self.now.image }
        ensures there { is_some result ≡ not (is_offline self.now.life.state) }
    {
        self.image.as_ref()
    }

    /// What the image became. There is nothing exactly where the core is offline.
    pub fn loaded(&self) -> Option<&Loaded>
        ensures load { option_map load_view (option_copied result) ≡ self.now.loaded }
        ensures there { is_some result ≡ not (is_offline self.now.life.state) }
    {
        self.loaded.as_ref()
    }

    /// The link of the core, or none where the core has no users or its image no device for RPMsg. The
    /// core's own callers are in use on it, 0 at the host and 1 at the remote, and it is in the incarnation
    /// of the core's life, live exactly while the core is up. It is ready for the core's actors: neither
    /// has begun a call without a step of it, and while the core is up they hold what their calls give back.
    pub fn link(&self) -> Option<&Bench>
        ensures link { option_copied result ≡ self.now.bench }
        ensures unlinked { self.now.life.users ≡ 0 → result ≡ None }
        ensures kept { IsKeptCore self.now }
        ensures ready { IsReadyCore self.now }
    {
        self.bench.as_ref()
    }

    /// The `len` bytes at the device address `da`, of which there is at least one. There are none
    /// exactly where the core is offline, or no single block of memory holds them all.
    pub fn memory(&self, da: Da, len: u32) -> Option<&[u8]>
        requires { 1 ≤ len }
        ensures { option_copied result ≡ core_memory self.now da len }
    {
        let Some(loaded) = &self.loaded else {
            return None;
        };
        let _ = self.regions.as_slice();
        match loaded.map.memory_at(da, len) {
            Some(at) => Some(loaded.memory.bytes(at, len)),
            None => None,
        }
    }

    /// The bytes of the trace of a number, from 0. There are none exactly where the core is offline,
    /// or there is no such trace, or it is not in memory.
    pub fn trace(&self, index: u16) -> Option<&[u8]>
        ensures { option_copied result ≡ core_trace self.now index }
    {
        let loaded = self.loaded.as_ref()?;
        let trace = loaded.traces.get(usize::from(index))?;
        let at = trace.at?;
        Some(loaded.memory.bytes(at, trace.len))
    }
}
