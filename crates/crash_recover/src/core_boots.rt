ghost use Rattle.std.specs.Prelude.{◌≡◌, ◌≢◌, ◌≤◌, ℕ, true, false, length, Some, None, Ok, Err, OnOk, OnErr, IfOk, IfSome, IsErrOf, option_map};
ghost use Rattle.std.specs.Result.{result_err, result_map_both};
ghost use Rattle.rp_base.specs.declared.limits.TheConstants.{NAME_MOST};
ghost use Rattle.rp_base.specs.Texts.{text_before_zero};
ghost use Rattle.rp_io.specs.Causes.{Rose};
ghost use Rattle.rp_io.specs.Images.{ImageAnswer, IsToldUnder};
ghost use Rattle.rp_io.specs.declared.faults.FetchFault.TheVariants as fetch;
ghost use Rattle.lane_model.specs.Conditions.{IsConfig};
ghost use Rattle.proc_state.specs.Lives.{is_offline, is_up, life_after_boot, life_after_handover};
ghost use Rattle.core_actors.specs.Actors.{driver_names};
ghost use Rattle.crash_recover.specs.Cores.{IsSoundLoad, load_view, loaded_rings};
ghost use Rattle.crash_recover.specs.CoreBoots.{BeginsBoot, DidWith, as_unit, boot_of, config_of, core_bench, core_fault_of_start, handover_of, image_fault, in_short, load_in, loaded_entry, needs_image, power_of, started_core, with_load};
ghost use Rattle.crash_recover.specs.declared.core_answers.Start.TheVariants as start;
ghost use Rattle.crash_recover.specs.declared.core_faults.CoreFault.TheVariants as fault;

use crate::core_answers::{Boot, Start};
use crate::core_faults::{CoreFault, StartFault};
use crate::cores::Core;
use channel_bus::Side;
use fw_load::{LoadFault, Loaded, RingPair, load};
use lane_model::LinkConfig;
use link_bench::Bench;
use proc_state::{Life, LifeFault, Power};
use rp_base::{Da, End, Inc, LifeState, Name, NoMemory};
use rp_io::{FirmwareStore, NoImage, bytes_of, look_up};
use std::alloc::Global;

impl Core {
    /// Boots the core with the image that a store has under a name: [`Core::begin_boot`], and
    /// [`Core::boot_image`] where that needs an image. The store is only asked then.
    ///
    /// Errors: the refusals of both, [`CoreFault::Fetch`] also where the store failed, and
    /// [`CoreFault::NoMemory`]. The core is as it was then.
    pub fn boot<F: FirmwareStore>(
        &mut self,
        alloc: Global,
        name: &str,
        store: &mut F,
    ) -> Result<Power, CoreFault>
        requires short { length name.now ≤ NAME_MOST }
        requires nonzero { text_before_zero name.now ≡ name.now }
        ensures booted { result ≢ Err fault.NoMemory → result ≢ Err (fault.Fetch fetch.Failed)
            → DidWith (λ (found : ImageAnswer). needs_image self.old ≡ true → IsToldUnder (F.images store.old) name.now found)
            (λ (found : ImageAnswer). in_short power_of core_fault_of_start (boot_of self.old name.now found)) self.new result }
        ensures unchanged { OnErr result (self.new ≡ self.old) }
        ensures unasked { needs_image self.old ≡ false → store.new ≡ store.old }
        ensures kept { F.images store.new ≡ F.images store.old }
        ensures later { F.faults store.old ≤ F.faults store.new }
        ensures asked { IsErrOf result (fault.Fetch fetch.Failed) → needs_image self.old ≡ true }
        ensures failed { IsErrOf result (fault.Fetch fetch.Failed) → Rose (F.faults store.old) (F.faults store.new) }
        ensures same { result ≢ Err (fault.Fetch fetch.Failed) → F.faults store.new ≡ F.faults store.old }
    {
        match self.begin_boot(alloc)? {
            Boot::Done(answer) => power_of(answer),
            Boot::NeedsImage(life) => {
                let found = look_up(alloc, store, name)?;
                let answer = self.boot_image(alloc, life, name_of(name), bytes_of(&found))?;
                power_of(answer)
            }
        }
    }

    /// Boots the core as far as it can be without an image: a core with users counts one more, and a
    /// detached one is attached, with a link where its image has a device for RPMsg; it keeps its
    /// memory and its image's name. An offline core with an incarnation left needs an image:
    /// [`Core::boot_image`] goes on.
    ///
    /// It is refused by [`StartFault::Life`] where the users or the incarnations can't be counted on.
    /// Where memory runs out, which an attach alone answers, the core is as it was.
    pub fn begin_boot(&mut self, alloc: Global) -> Result<Boot, NoMemory>
        ensures begun { IfOk result (BeginsBoot self.old self.new) }
        ensures unneeded { OnErr result (needs_image self.old ≡ false) }
        ensures unchanged { OnErr result (self.new ≡ self.old) }
        ensures attached { self.new.loaded ≡ self.old.loaded }
    {
        let mut life = self.life.copy();
        match life.boot() {
            Err(fault) => Ok(Boot::Done(Err(StartFault::Life(fault)))),
            Ok(Power::Counted(users)) => {
                self.life = life;
                Ok(Boot::Done(Ok(Start::Users(users))))
            }
            Ok(Power::First) => match self.life.state() {
                LifeState::Offline => Ok(Boot::NeedsImage(life)),
                LifeState::Running
                | LifeState::Crashed
                | LifeState::Attached
                | LifeState::Detached => Ok(Boot::Done(Ok(self.attach(alloc, life)?))),
            },
        }
    }

    /// Goes on with a boot that needs an image, with one that was found under this name, or wasn't:
    /// the core loads it and runs in this life, with a link where the image has a device for RPMsg.
    ///
    /// It is refused by [`StartFault::NoImage`] where no image was found, and by [`StartFault::Load`] as
    /// [`load`] answers. The core is as it was then, and where memory runs out.
    #[tactic(auto, unfolding(crate::specs::CoreBoots::boot_of))]
    pub fn boot_image(
        &mut self,
        alloc: Global,
        life: Life,
        name: Name,
        found: Result<&[u8], NoImage>,
    ) -> Result<Result<Start, StartFault>, NoMemory>
        requires needed { needs_image self.old ≡ true }
        requires life { life ≡ (life_after_boot self.old.life).life }
        ensures answer { IfOk result (λ answer. answer ≡ (boot_of self.old name (result_map_both (λ image. image.now) (λ why. why) found.entry)).answer) }
        ensures left { OnOk result (self.new ≡ (boot_of self.old name (result_map_both (λ image. image.now) (λ why. why) found.entry)).core) }
        ensures refused { IfOk result (λ answer. OnErr answer (self.new ≡ self.old)) }
        ensures unchanged { OnErr result (self.new ≡ self.old) }
    {
        match self.load_or_fault(alloc, found)? {
            Ok(loaded) => Ok(Ok(self.run_image(alloc, life, name, loaded)?)),
            Err(fault) => Ok(Err(fault)),
        }
    }

    /// Starts an offline core in this life with an image that is loaded.
    fn run_image(
        &mut self,
        alloc: Global,
        life: Life,
        name: Name,
        loaded: Loaded,
    ) -> Result<Start, NoMemory>
        requires loaded { is_offline life.state ≡ false }
        requires up { is_up life.state ≡ true }
        requires users { 1 ≤ life.users }
        requires first { 1 ≤ life.incarnation }
        requires sound { IsSoundLoad self.old.regions loaded }
        requires config { (inc : ℕ) → 1 ≤ inc → IfSome loaded.rings (λ rings. IsConfig (config_of rings self.old.book inc)) }
        ensures answer { IfOk result (λ did. did ≡ start.Running life.incarnation) }
        ensures left { OnOk result (self.new ≡ started_core life (with_load self.old name (load_view loaded))) }
        ensures unchanged { OnErr result (self.new ≡ self.old) }
    {
        let inc = life.incarnation();
        let bench = self.link_over(alloc, &loaded.rings, inc)?;
        self.actors.restart(loaded.entry);
        self.life = life;
        self.image = Some(name);
        self.loaded = Some(loaded);
        self.bench = bench;
        Ok(Start::Running(inc))
    }

    /// Starts a detached core in this life, over what it has loaded.
    fn attach(&mut self, alloc: Global, life: Life) -> Result<Start, NoMemory>
        requires loaded { is_offline self.old.life.state ≡ false }
        requires stays { is_offline life.state ≡ false }
        requires up { is_up life.state ≡ true }
        requires users { 1 ≤ life.users }
        requires first { 1 ≤ life.incarnation }
        ensures answer { IfOk result (λ did. did ≡ start.Attached life.incarnation) }
        ensures left { OnOk result (self.new ≡ started_core life self.old) }
        ensures unchanged { OnErr result (self.new ≡ self.old) }
    {
        let inc = life.incarnation();
        let bench = self.link_again(alloc, inc)?;
        let entry = self.entry();
        self.actors.restart(entry);
        self.life = life;
        self.bench = bench;
        Ok(Start::Attached(inc))
    }

    /// The life to which a handover brings the core: another party has loaded its image and started
    /// it. [`Core::handover_image`] goes on.
    ///
    /// Errors: [`LifeFault::NotOffline`] exactly where the core isn't offline.
    pub fn handover_life(&self) -> Result<Life, LifeFault>
        ensures life { IfOk result (λ life. life ≡ (life_after_handover self.now.life).life) }
        ensures answer { result_map_both (λ _. tt) (λ why. why) result ≡ (life_after_handover self.now.life).answer }
    {
        let mut life = self.life.copy();
        life.handover()?;
        Ok(life)
    }

    /// Hands the core over, in this life, with an image that was found under this name, or wasn't:
    /// the core is detached.
    ///
    /// It is refused as [`Core::boot_image`]. The core is as it was then, and where memory runs out.
    #[tactic(auto, unfolding(crate::specs::CoreBoots::handover_of))]
    pub fn handover_image(
        &mut self,
        alloc: Global,
        life: Life,
        name: Name,
        found: Result<&[u8], NoImage>,
    ) -> Result<Result<Start, StartFault>, NoMemory>
        requires may { (life_after_handover self.old.life).answer ≡ Ok tt }
        requires life { life ≡ (life_after_handover self.old.life).life }
        ensures answer { IfOk result (λ answer. answer ≡ (handover_of self.old name (result_map_both (λ image. image.now) (λ why. why) found.entry)).answer) }
        ensures left { OnOk result (self.new ≡ (handover_of self.old name (result_map_both (λ image. image.now) (λ why. why) found.entry)).core) }
        ensures refused { IfOk result (λ answer. OnErr answer (self.new ≡ self.old)) }
        ensures unchanged { OnErr result (self.new ≡ self.old) }
    {
        match self.load_or_fault(alloc, found)? {
            Ok(loaded) => {
                self.life = life;
                self.image = Some(name);
                self.loaded = Some(loaded);
                Ok(Ok(Start::Detached))
            }
            Err(fault) => Ok(Err(fault)),
        }
    }

    /// Hands the core over with the image that a store has under a name: [`Core::handover_life`] and
    /// [`Core::handover_image`]. The store is only asked where the core is offline.
    ///
    /// Errors: the refusals of both, [`CoreFault::Fetch`] also where the store failed, and
    /// [`CoreFault::NoMemory`]. The core is as it was then.
    pub fn handover<F: FirmwareStore>(
        &mut self,
        alloc: Global,
        name: &str,
        store: &mut F,
    ) -> Result<(), CoreFault>
        requires short { length name.now ≤ NAME_MOST }
        requires nonzero { text_before_zero name.now ≡ name.now }
        ensures done { result ≢ Err fault.NoMemory → result ≢ Err (fault.Fetch fetch.Failed)
            → DidWith (λ (found : ImageAnswer). is_offline self.old.life.state ≡ true → IsToldUnder (F.images store.old) name.now found)
            (λ (found : ImageAnswer). in_short as_unit core_fault_of_start (handover_of self.old name.now found)) self.new result }
        ensures unchanged { OnErr result (self.new ≡ self.old) }
        ensures unasked { is_offline self.old.life.state ≡ false → store.new ≡ store.old }
        ensures kept { F.images store.new ≡ F.images store.old }
        ensures later { F.faults store.old ≤ F.faults store.new }
        ensures asked { IsErrOf result (fault.Fetch fetch.Failed) → is_offline self.old.life.state ≡ true }
        ensures failed { IsErrOf result (fault.Fetch fetch.Failed) → Rose (F.faults store.old) (F.faults store.new) }
        ensures same { result ≢ Err (fault.Fetch fetch.Failed) → F.faults store.new ≡ F.faults store.old }
    {
        let life = self.handover_life()?;
        let found = look_up(alloc, store, name)?;
        let answer = self.handover_image(alloc, life, name_of(name), bytes_of(&found))?;
        unit_of(answer)
    }

    /// What an image that was found becomes in the memory of the core.
    pub(crate) fn load_or_fault(
        &self,
        alloc: Global,
        found: Result<&[u8], NoImage>,
    ) -> Result<Result<Loaded, StartFault>, NoMemory>
        ensures refused { IfOk result (λ answer. result_err answer ≡ image_fault self.now (result_map_both (λ image. image.now) (λ why. why) found.entry)) }
        ensures loaded { IfOk result (λ answer. IfOk answer (λ loaded. load_view loaded ≡ load_in self.now (result_map_both (λ image. image.now) (λ why. why) found.entry))) }
        ensures sound { IfOk result (λ answer. IfOk answer (IsSoundLoad self.now.regions)) }
        ensures config { IfOk result (λ answer. IfOk answer (λ loaded. (inc : ℕ) → 1 ≤ inc → IfSome loaded.rings (λ rings. IsConfig (config_of rings self.now.book inc)))) }
    {
        match found {
            Ok(image) => self.load_image(alloc, image),
            Err(why) => Ok(Err(StartFault::NoImage(why))),
        }
    }

    /// What an image becomes in the memory of the core.
    fn load_image(
        &self,
        alloc: Global,
        image: &[u8],
    ) -> Result<Result<Loaded, StartFault>, NoMemory>
        ensures refused { IfOk result (λ answer. result_err answer ≡ image_fault self.now (Ok image.now)) }
        ensures loaded { IfOk result (λ answer. IfOk answer (λ loaded. load_view loaded ≡ load_in self.now (Ok image.now))) }
        ensures sound { IfOk result (λ answer. IfOk answer (IsSoundLoad self.now.regions)) }
        ensures config { IfOk result (λ answer. IfOk answer (λ loaded. (inc : ℕ) → 1 ≤ inc → IfSome loaded.rings (λ rings. IsConfig (config_of rings self.now.book inc)))) }
    {
        match load(alloc, image, &self.regions) {
            Ok(loaded) => Ok(Ok(loaded)),
            Err(LoadFault::NoMemory) => Err(NoMemory),
            Err(fault) => Ok(Err(StartFault::Load(fault))),
        }
    }

    /// The link over these rings in an incarnation, with the core's drivers, where there are rings.
    fn link_over(
        &self,
        alloc: Global,
        rings: &Option<RingPair>,
        inc: Inc,
    ) -> Result<Option<Bench>, NoMemory>
        requires { IfSome rings.now (λ rings. IsConfig (config_of rings self.now.book inc)) }
        ensures { IfOk result (λ bench. bench ≡ option_map (core_bench (driver_names self.now.actors) self.now.book inc) rings.now) }
    {
        match rings {
            Some(rings) => {
                let names = self.actors.driver_names(alloc)?;
                Ok(Some(core_bench(alloc, rings, names, self.book, inc)?))
            }
            None => Ok(None),
        }
    }

    /// The link over the rings of what is loaded, in an incarnation.
    fn link_again(&self, alloc: Global, inc: Inc) -> Result<Option<Bench>, NoMemory>
        requires { 1 ≤ inc }
        ensures { IfOk result (λ bench. bench ≡ option_map (core_bench (driver_names self.now.actors) self.now.book inc) (loaded_rings self.now.loaded)) }
    {
        match &self.loaded {
            Some(loaded) => self.link_over(alloc, &loaded.rings, inc),
            None => Ok(None),
        }
    }

    /// Where the first record is of what is loaded.
    fn entry(&self) -> Da
        ensures { result ≡ loaded_entry self.now.loaded }
    {
        match &self.loaded {
            Some(loaded) => loaded.entry,
            None => 0,
        }
    }
}

/// The answer of a start in short: whether it started the core, or counted a user.
fn power_of(answer: Result<Start, StartFault>) -> Result<Power, CoreFault>
    ensures answer { result ≡ result_map_both power_of core_fault_of_start answer }
    ensures told { result ≢ Err (fault.Fetch fetch.Failed) }
{
    Ok(answer?.power())
}

/// The answer of a start of which no more is given than that it was done.
pub(crate) fn unit_of(answer: Result<Start, StartFault>) -> Result<(), CoreFault>
    ensures answer { result ≡ result_map_both as_unit core_fault_of_start answer }
    ensures told { result ≢ Err (fault.Fetch fetch.Failed) }
    ensures memory { result ≢ Err fault.NoMemory }
{
    answer?;
    Ok(())
}

/// The name that a text is.
fn name_of(text: &str) -> Name
    requires short { length text.now ≤ NAME_MOST }
    requires nonzero { text_before_zero text.now ≡ text.now }
    ensures { result ≡ text.now }
{
    let Some(name) = Name::of(text.as_bytes()) else {
        unreachable!()
    };
    name
}

/// The link over a device's rings, with a caller at each end. The load has its buffers' addresses.
fn core_bench(
    alloc: Global,
    rings: &RingPair,
    names: Vec<Name>,
    book: u32,
    first: Inc,
) -> Result<Bench, NoMemory>
    requires { IsConfig (config_of rings.now book first) }
    ensures { IfOk result (λ bench. bench ≡ core_bench names.items book first rings.now) }
{
    let host = Side::new(alloc, rings.service, names)?;
    let remote = Side::new(alloc, false, Vec::new(alloc))?;
    let config = LinkConfig {
        num0: rings.to_host.num,
        num1: rings.to_remote.num,
        book,
        first,
        base: 0,
    };
    let mut bench = Bench::new(alloc, config, host, remote)?;
    bench.caller(End::Host);
    bench.caller(End::Remote);
    Ok(bench)
}
