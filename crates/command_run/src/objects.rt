ghost use Rattle.std.specs.Prelude.{◌≡◌, ◌<◌, ◌++◌, ℕ, List, Option, Some, None, Err, [], IfOk, IfErr, IfNone, OnOk, IfSome, false, true, length};
ghost use Rattle.std.specs.Option.{option_copied};
ghost use Rattle.std.specs.Result.{result_map_both};
ghost use Rattle.lane_model.specs.Conditions.{IsConfig};
ghost use Rattle.script_lang.specs.Runnable.{IsBook, IsRunnable};
ghost use Rattle.link_commands.specs.Acts.{IsFitLine, IsFitNamed, bare_line, bare_named_act, line_of};
ghost use Rattle.rp_io.specs.declared.faults.NoImage.TheVariants as no_image;
ghost use Rattle.journal.specs.Lines.{transcript};
ghost use Rattle.script_lang.specs.declared.commands.Command.{Command};
ghost use Rattle.link_commands.specs.declared.acts.CoreAct.TheVariants as core;
ghost use Rattle.link_commands.specs.declared.acts.NamedAct.TheVariants as under;
ghost use Rattle.command_run.specs.Outcomes.{CutsRun, HandsRunEffect, HasRunEffect};
ghost use Rattle.command_run.specs.Runs.{core_made_effect, core_place, is_full, regions_of, core_under, find_core, act_asks, core_act, effect_of, has_image, image_effect, image_place, line_effect, made_effect, name_effect, new_run, place_of, quiet_effect, unnamed_effect};
ghost use Rattle.command_run.specs.Lookups.{bench_under, core_state_under, find_link, is_bare, link_bench_under, without_core, without_link};
ghost use Rattle.command_run.specs.CoreLives.{image_bytes};
ghost use Rattle.command_run.specs.Faults.{store_command_fault};
ghost use Rattle.command_run.specs.Fetches.{EndsCut, IfSinkFailed, KeepsDriven, RunsTold};

use crate::cores::{NamedCore, is_on};
use crate::faults::OutputFault;
use crate::fetches::image_bytes;
use channel_bus::Side;
use crash_recover::{Bench, Core};
use journal::Event;
use lane_model::LinkConfig;
use link_commands::{CoreAct, Line, Making, NamedAct, NamedBench, StartAct, Stop, line_of};
use memory_pool::Regions;
use rp_base::{Name, NoMemory, OBJECTS_MOST, Switch};
use rp_io::{FirmwareStore, Sink, StoreFault};
use run_log::RunLog;
use script_lang::{Command, Recipe, RegionSet};
use std::alloc::Global;
use std::marker::Model;

/// What a script made: its links, its cores and its images, each in the order in which they were made;
/// and whether its drives are quiet.
#[derive(Drop)]
pub struct Objects {
    pub(crate) alloc: Global,
    pub(crate) links: Vec<NamedBench>,
    pub(crate) cores: Vec<NamedCore>,
    pub(crate) images: Vec<ScriptImage>,
    pub(crate) is_quiet: bool,
}

impl Model for Objects {
    ghost use Rattle.command_run.specs.Runs.{ObjectsState};

    ghost Value = { ObjectsState };

    ghost view = { λ o. record { links = o.links.items; cores = o.cores.items; images = o.images.items; is_quiet = o.is_quiet } };
}

impl Objects {
    /// Nothing is made, and drives are not quiet.
    pub fn new(alloc: Global) -> Objects
        ensures { result ≡ new_run.objects }
    {
        Objects {
            alloc,
            links: Vec::new(alloc),
            cores: Vec::new(alloc),
            images: Vec::new(alloc),
            is_quiet: false,
        }
    }

    /// The same, with the room of as many links and cores as there may be.
    ///
    /// Errors: out of memory.
    pub fn with_room(alloc: Global) -> Result<Objects, NoMemory>
        ensures { IfOk result (λ objects. objects ≡ new_run.objects) }
    {
        Ok(Objects {
            alloc,
            links: Vec::with_capacity(alloc, OBJECTS_MOST)?,
            cores: Vec::with_capacity(alloc, OBJECTS_MOST)?,
            images: Vec::new(alloc),
            is_quiet: false,
        })
    }

    /// Whether there is no link and no core.
    pub fn is_bare(&self) -> bool
        ensures { result ≡ is_bare self.now }
    {
        self.links.len() + self.cores.len() == 0
    }

    /// Forgets the images, and has drives write their lines again. Where no link and no core was made,
    /// nothing is.
    pub fn forget_images(&mut self)
        requires { is_bare self.old ≡ true }
        ensures { self.new ≡ new_run.objects }
    {
        self.images.clear();
        self.is_quiet = false;
    }

    /// The link of this name, or that of the core of this name.
    pub fn bench(&self, name: &[u8]) -> Option<&Bench>
        ensures { option_copied result ≡ bench_under self.now name.now }
    {
        match find_link(self.links.as_slice(), name) {
            Some(named) => Some(&named.bench),
            None => find_core(self.cores.as_slice(), name)?.core.link(),
        }
    }

    /// The bytes of the image of this name that a run of the script made, by a recipe or a dump.
    pub fn image(&self, name: &[u8]) -> Option<&[u8]>
        ensures { option_copied result ≡ image_bytes self.now.images name.now }
    {
        image_bytes(self.images.as_slice(), name)
    }

    /// Takes the link of this name out.
    pub fn take_link(&mut self, name: &[u8]) -> Option<Bench>
        ensures taken { result ≡ link_bench_under self.old name.now }
        ensures left { self.new ≡ without_link self.old name.now }
    {
        let place = place_of(self.links.as_slice(), name)?;
        Some(self.links.remove(place).bench)
    }

    /// Takes the core of this name out.
    pub fn take_core(&mut self, name: &[u8]) -> Option<Core>
        ensures taken { result ≡ core_state_under self.old name.now }
        ensures left { self.new ≡ without_core self.old name.now }
    {
        let place = core_place(self.cores.as_slice(), name)?;
        Some(self.cores.remove(place).core)
    }

    /// Runs one command over no store, writes its events, and answers why the run stops in its midst, if
    /// it does.
    ///
    /// Errors: out of memory, which may leave anything of the command undone.
    #[tactic(auto, unfolding(crate::specs::Runs::effect_of))]
    pub fn run(&mut self, command: &Command, log: &mut RunLog) -> Result<Option<Stop>, NoMemory>
        requires { IsRunnable command.now }
        ensures { IfOk result (λ ending. HasRunEffect (effect_of (Err no_image.Missing) (record { objects = self.old; steps = log.old.steps }) command.now) self.new log.old log.new ending) }
    {
        // The kit's borrow checker knows the type of an act only where a match names it.
        match line_of(command) {
            Line::On { name, act } => self.run_on_name(name, &act, log),
            line => self.run_line(&line, log),
        }
    }

    /// The same of what a command is about.
    ///
    /// Errors: out of memory, which may leave anything of the command undone.
    pub(crate) fn run_line(
        &mut self,
        line: &Line<&Recipe, &[u8]>,
        log: &mut RunLog,
    ) -> Result<Option<Stop>, NoMemory>
        requires fit { IsFitLine (bare_line (λ recipe. recipe.now) (λ bytes. bytes.now) line.now) }
        ensures { IfOk result (λ ending. HasRunEffect (line_effect (Err no_image.Missing) (record { objects = self.old; steps = log.old.steps }) (bare_line (λ recipe. recipe.now) (λ bytes. bytes.now) line.now)) self.new log.old log.new ending) }
    {
        match line {
            Line::Image { name, recipe } => self.make_image(*name, recipe, log),
            Line::Quiet { switch } => self.set_quiet(*switch, log),
            Line::Dump { name, image } => self.dump(*name, *image, log),
            Line::On { name, act } => self.run_on_name(*name, act, log),
        }
    }

    /// Has drives write no lines of their calls from now on, or write them.
    #[tactic(auto, unfolding(crate::specs::Runs::quiet_effect))]
    fn set_quiet(&mut self, switch: Switch, log: &mut RunLog) -> Result<Option<Stop>, NoMemory>
        ensures { IfOk result (λ ending. HasRunEffect (quiet_effect (record { objects = self.old; steps = log.old.steps }) switch) self.new log.old log.new ending) }
    {
        self.is_quiet = is_on(switch);
        Ok(None)
    }

    /// The core of this name, which no link has.
    pub fn core_under(&self, name: &[u8]) -> Option<&NamedCore>
        ensures { option_copied result ≡ core_under self.now name.now }
    {
        match place_of(self.links.as_slice(), name) {
            Some(_) => None,
            None => find_core(self.cores.as_slice(), name),
        }
    }

    /// Does what is asked under a name: on its link, or else on its core.
    fn run_on_name(
        &mut self,
        name: Name,
        act: &NamedAct<&[u8]>,
        log: &mut RunLog,
    ) -> Result<Option<Stop>, NoMemory>
        requires fit { IsFitNamed (bare_named_act (λ bytes. bytes.now) act.now) }
        ensures { IfOk result (λ ending. HasRunEffect (name_effect (Err no_image.Missing) (record { objects = self.old; steps = log.old.steps }) name (bare_named_act (λ bytes. bytes.now) act.now)) self.new log.old log.new ending) }
    {
        match place_of(self.links.as_slice(), name.bytes()) {
            Some(place) => self.links[place].run(act, log),
            None => match core_place(self.cores.as_slice(), name.bytes()) {
                Some(place) => {
                    let images = self.images.as_slice();
                    self.cores[place].run(act, images, self.is_quiet, log)
                }
                None => self.run_on_new_name(name, act, log),
            },
        }
    }

    /// Drives the core of this name, and hands on what is written as it goes. Under the name of a link, or
    /// of nothing, that there is no such core is all that is written.
    pub(crate) fn drive<K: Sink>(
        &mut self,
        name: Name,
        count: u64,
        log: &mut RunLog,
        out: &mut K,
    ) -> Result<Option<Stop>, OutputFault>
        ensures effect { IfOk result (λ ending. HandsRunEffect (name_effect (Err no_image.Missing) (record { objects = self.old; steps = log.old.steps }) name (under.Core (core.Drive count)))
            self.new log.old log.new (K.written out.old) (K.written out.new) ending) }
        ensures same { OnOk result (K.faults out.new ≡ K.faults out.old) }
        ensures cut { IfErr result (λ why. EndsCut why (log.old.lines ++ transcript (name_effect (Err no_image.Missing) (record { objects = self.old; steps = log.old.steps }) name (under.Core (core.Drive count))).events)
            (K.written out.old) (K.written out.new) (K.faults out.old) (K.faults out.new)) }
        ensures paused { IfErr result (λ why. IfSinkFailed why (CutsRun (λ done. name_effect (Err no_image.Missing) (record { objects = self.old; steps = log.old.steps }) name (under.Core (core.Drive done)))
            count self.new log.old.lines (K.written out.old) (K.written out.new))) }
        ensures less { IfOk result (λ _. KeepsDriven (record { objects = self.old; steps = log.old.steps }) name count log.old log.new.lines) }
    {
        match self.place_without_link(name.bytes()) {
            Some(place) => {
                let is_quiet = self.is_quiet;
                self.cores[place].drive_handing(count, is_quiet, log, out)
            }
            None => {
                let act = NamedAct::Core(CoreAct::Drive { count });
                Ok(self.run_on_name(name, &act, log)?)
            }
        }
    }

    /// Starts the core of this name. Under the name of a link, or of nothing, that there is no such core
    /// is all that is written.
    pub(crate) fn start<F: FirmwareStore>(
        &mut self,
        name: Name,
        start: StartAct,
        store: &mut F,
        log: &mut RunLog,
    ) -> Result<Option<Stop>, StoreFault>
        ensures told { (command : Command) (written : Option (List ℕ)) (faults : ℕ) → core_act (line_of command) ≡ Some (name, core.Start start)
            → RunsTold (result_map_both (λ ending. ending) store_command_fault result) (F.images store.old) (record { objects = self.old; steps = log.old.steps }) command self.new log.old log.new written written faults faults (F.faults store.old) (F.faults store.new) }
        ensures kept { F.images store.new ≡ F.images store.old }
        ensures unasked { act_asks self.old (Some (name, core.Start start)) ≡ None → store.new ≡ store.old }
    {
        match self.place_without_link(name.bytes()) {
            Some(place) => {
                let images = self.images.as_slice();
                self.cores[place].start(start, images, store, log)
            }
            None => {
                let act = NamedAct::Core(CoreAct::Start(start));
                Ok(self.run_on_name(name, &act, log)?)
            }
        }
    }

    /// The place of the core of this name, which no link has.
    fn place_without_link(&self, name: &[u8]) -> Option<usize>
        ensures core { IfSome result (λ place. Some place ≡ core_place self.now.cores name.now) }
        ensures link { IfSome result (λ _. None ≡ place_of self.now.links name.now) }
        ensures none { IfNone result (core_under self.now name.now ≡ None) }
        ensures within { IfSome result (λ place. place < length self.now.cores) }
    {
        match place_of(self.links.as_slice(), name) {
            Some(_) => None,
            None => core_place(self.cores.as_slice(), name),
        }
    }

    /// Does what is asked under a name that no link and no core has.
    #[tactic(auto, unfolding(crate::specs::Runs::unnamed_effect))]
    fn run_on_new_name(
        &mut self,
        name: Name,
        act: &NamedAct<&[u8]>,
        log: &mut RunLog,
    ) -> Result<Option<Stop>, NoMemory>
        requires fit { IsFitNamed (bare_named_act (λ bytes. bytes.now) act.now) }
        ensures { IfOk result (λ ending. HasRunEffect (unnamed_effect (record { objects = self.old; steps = log.old.steps }) name (bare_named_act (λ bytes. bytes.now) act.now)) self.new log.old log.new ending) }
    {
        match act {
            NamedAct::Make(
                Making::Link {
                    config,
                    has_service,
                },
            ) => self.make_link(name, *config, *has_service, log),
            NamedAct::Make(Making::Core { regions, book }) => {
                self.make_core(name, *regions, *book, log)
            }
            NamedAct::Link(_) | NamedAct::Manage(_) | NamedAct::Show(_) | NamedAct::Core(_) => {
                log.tell(&Event::Unknown { name })?;
                Ok(None)
            }
        }
    }

    /// Makes a link of a new name, unless there are as many as there may be. Where `has_service` is
    /// set, its host end has the name service.
    #[tactic(auto, unfolding(crate::specs::Runs::made_effect))]
    fn make_link(
        &mut self,
        name: Name,
        config: LinkConfig,
        has_service: bool,
        log: &mut RunLog,
    ) -> Result<Option<Stop>, NoMemory>
        requires config { IsConfig config }
        ensures { IfOk result (λ ending. HasRunEffect (made_effect (record { objects = self.old; steps = log.old.steps }) name config has_service) self.new log.old log.new ending) }
    {
        if self.is_full() {
            log.tell(&Event::ObjectsFull)?;
            return Ok(None);
        }
        let host = Side::new(self.alloc, has_service, Vec::new(self.alloc))?;
        let remote = Side::new(self.alloc, false, Vec::new(self.alloc))?;
        let bench = Bench::new(self.alloc, config, host, remote)?;
        self.links.push(NamedBench { name, bench })?;
        log.tell(&Event::Open { name, inc: 1 })?;
        Ok(None)
    }

    /// Makes a core of a new name, unless there are as many objects as there may be.
    #[tactic(auto, unfolding(crate::specs::Runs::core_made_effect))]
    fn make_core(
        &mut self,
        name: Name,
        regions: RegionSet,
        book: u32,
        log: &mut RunLog,
    ) -> Result<Option<Stop>, NoMemory>
        requires book { IsBook book }
        ensures { IfOk result (λ ending. HasRunEffect (core_made_effect (record { objects = self.old; steps = log.old.steps }) name regions book) self.new log.old log.new ending) }
    {
        if self.is_full() {
            log.tell(&Event::ObjectsFull)?;
            return Ok(None);
        }
        let regions = regions_of(self.alloc, regions)?;
        let core = Core::new(self.alloc, regions, Vec::new(self.alloc), book)?;
        self.cores.push(NamedCore { name, core })?;
        log.tell(&Event::Offline { name })?;
        Ok(None)
    }

    /// Whether there are as many links and cores as there may be.
    fn is_full(&self) -> bool
        ensures { result ≡ is_full self.now }
    {
        self.links.len() + self.cores.len() >= OBJECTS_MOST
    }

    /// Makes an image of a new name by its recipe.
    #[tactic(auto, unfolding(crate::specs::Runs::image_effect))]
    fn make_image(
        &mut self,
        name: Name,
        recipe: &Recipe,
        log: &mut RunLog,
    ) -> Result<Option<Stop>, NoMemory>
        ensures { IfOk result (λ ending. HasRunEffect (image_effect (record { objects = self.old; steps = log.old.steps }) name recipe.now) self.new log.old log.new ending) }
    {
        if has_image(self.images.as_slice(), name.bytes()) {
            log.tell(&Event::ImageExists { name })?;
            return Ok(None);
        }
        let bytes = image_maker::build(self.alloc, recipe)?;
        let len = bytes.len() as u64;
        self.images.push(ScriptImage {
            name,
            bytes,
            is_dump: false,
        })?;
        log.tell(&Event::Image { name, len })?;
        Ok(None)
    }
}

/// An image that a script made, under its name: by a recipe, or as the dump of a core.
#[derive(Drop)]
pub struct ScriptImage {
    pub(crate) name: Name,
    pub(crate) bytes: Vec<u8>,
    pub(crate) is_dump: bool,
}

impl Model for ScriptImage {
    ghost use Rattle.command_run.specs.NamedImages.{ImageState};

    ghost Value = { ImageState };

    ghost view = { λ i. record { name = i.name; bytes = i.bytes.items; is_dump = i.is_dump } };
}

/// The regions that a core begins with.
fn regions_of(alloc: Global, set: RegionSet) -> Result<Regions, NoMemory>
    ensures { IfOk result (λ regions. regions ≡ regions_of set) }
{
    match set {
        RegionSet::Standard => Regions::standard(alloc),
        RegionSet::Bare => Regions::new(alloc),
    }
}

/// Whether an image of this name was made.
pub(crate) fn has_image(images: &[ScriptImage], name: &[u8]) -> bool
    ensures { result ≡ has_image images.now name.now }
{
    image_place(images, name).is_some()
}

/// The place of the image of this name.
fn image_place(images: &[ScriptImage], name: &[u8]) -> Option<usize>
    ensures { result ≡ image_place images.now name.now }
{
    images.iter().position(|image| image.name.bytes() == name)
}

/// The place of the link of this name.
fn place_of(links: &[NamedBench], name: &[u8]) -> Option<usize>
    ensures place { result ≡ place_of links.now name.now }
    ensures within { IfSome result (λ place. place < length links.now) }
{
    links.iter().position(|named| named.name.bytes() == name)
}

/// The link of this name.
fn find_link<'a>(links: &'a [NamedBench], name: &[u8]) -> Option<&'a NamedBench>
    ensures { option_copied result ≡ find_link links.now name.now }
{
    links.iter().find(|named| named.name.bytes() == name)
}

/// The core of this name.
fn find_core<'a>(cores: &'a [NamedCore], name: &[u8]) -> Option<&'a NamedCore>
    ensures { option_copied result ≡ find_core cores.now name.now }
{
    cores.iter().find(|named| named.name.bytes() == name)
}

/// The place of the core of this name.
fn core_place(cores: &[NamedCore], name: &[u8]) -> Option<usize>
    ensures place { result ≡ core_place cores.now name.now }
    ensures within { IfSome result (λ place. place < length cores.now) }
{
    cores.iter().position(|named| named.name.bytes() == name)
}
