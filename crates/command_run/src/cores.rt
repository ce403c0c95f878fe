ghost use Rattle.std.specs.Prelude.{◌≡◌, ◌≢◌, Err, IfOk, OnOk};
ghost use Rattle.rp_io.specs.declared.faults.NoImage.TheVariants as no_image;
ghost use Rattle.crash_recover.specs.declared.core_faults.AddFault.TheVariants as add_fault;
ghost use Rattle.link_commands.specs.Acts.{IsFitCore, IsFitNamed, bare_named_act};
ghost use Rattle.command_run.specs.Outcomes.{HasCoreEffect};
ghost use Rattle.command_run.specs.CoreEffects.{core_tells, core_tells_all};
ghost use Rattle.command_run.specs.CoreCommands.{add_fault_events, core_act_effect, core_effect, driver_effect, is_on, recovery_effect, region_effect};

use crate::ScriptImage;
use crate::core_lives::fault_at;
use crash_recover::{AddFault, Core};
use journal::Event;
use link_commands::{CoreAct, NamedAct, Stop, event};
use memory_pool::Region;
use rp_base::{DriverKind, Name, NoMemory, Switch};
use run_log::RunLog;
use std::marker::Model;

/// A core of a script, with its name.
#[derive(Drop)]
pub struct NamedCore {
    pub name: Name,
    pub core: Core,
}

impl Model for NamedCore {
    ghost use Rattle.command_run.specs.NamedCores.{NamedCoreState};

    ghost Value = { NamedCoreState };

    ghost view = { λ n. record { name = n.name; core = n.core } };
}

impl NamedCore {
    /// Does what is asked under the name of this core, over the images that the script made and no
    /// store, and whether drives are quiet: writes what came of it, and answers why the run stops in
    /// its midst, if it does.
    #[tactic(auto, unfolding(crate::specs::CoreCommands::core_effect))]
    pub(crate) fn run(
        &mut self,
        act: &NamedAct<&[u8]>,
        images: &[ScriptImage],
        is_quiet: bool,
        log: &mut RunLog,
    ) -> Result<Option<Stop>, NoMemory>
        requires fit { IsFitNamed (bare_named_act (λ bytes. bytes.now) act.now) }
        ensures name { self.new.name ≡ self.old.name }
        ensures effect { IfOk result (λ ending. HasCoreEffect (core_effect images.now (Err no_image.Missing) is_quiet self.old log.old.steps (bare_named_act (λ bytes. bytes.now) act.now)) self.new.core log.old log.new ending) }
    {
        match act {
            NamedAct::Make(_) => self.tell(&Event::Exists { name: self.name }, log),
            NamedAct::Link(act) => self.act(act, log),
            NamedAct::Manage(_) => self.tell(&Event::Unknown { name: self.name }, log),
            NamedAct::Show(view) => self.show(*view, log),
            NamedAct::Core(act) => self.run_core(*act, images, is_quiet, log),
        }
    }

    /// Does an act on the core.
    #[tactic(auto, unfolding(crate::specs::CoreCommands::core_act_effect))]
    fn run_core(
        &mut self,
        act: CoreAct,
        images: &[ScriptImage],
        is_quiet: bool,
        log: &mut RunLog,
    ) -> Result<Option<Stop>, NoMemory>
        requires fit { IsFitCore act }
        ensures name { self.new.name ≡ self.old.name }
        ensures effect { IfOk result (λ ending. HasCoreEffect (core_act_effect images.now (Err no_image.Missing) is_quiet self.old log.old.steps act) self.new.core log.old log.new ending) }
    {
        match act {
            CoreAct::Region(region) => self.add_region(region, log),
            CoreAct::Driver { channel, kind } => self.add_driver(channel, kind, log),
            CoreAct::Start(start) => self.start_without_store(start, images, log),
            CoreAct::Shutdown => self.shutdown(log),
            CoreAct::Detach => self.detach(log),
            CoreAct::Show(view) => {
                self.show_core(view, log)?;
                Ok(None)
            }
            CoreAct::Crash { kind } => self.crash(kind, log),
            CoreAct::Recovery { switch } => self.set_recovery(switch, log),
            CoreAct::Drive { count } => self.drive(count, is_quiet, log),
        }
    }

    /// Writes one event, and leaves the core as it is.
    pub(crate) fn tell(&mut self, event: &Event, log: &mut RunLog) -> Result<Option<Stop>, NoMemory>
        ensures same { self.new ≡ self.old }
        ensures effect { IfOk result (λ ending. HasCoreEffect (core_tells self.old.core log.old.steps event.now) self.new.core log.old log.new ending) }
    {
        log.tell(event)?;
        Ok(None)
    }

    /// Adds a region after the others.
    #[tactic(auto, unfolding(crate::specs::CoreCommands::region_effect))]
    fn add_region(&mut self, region: Region, log: &mut RunLog) -> Result<Option<Stop>, NoMemory>
        ensures name { self.new.name ≡ self.old.name }
        ensures effect { IfOk result (λ ending. HasCoreEffect (region_effect self.old.name self.old.core log.old.steps region) self.new.core log.old log.new ending) }
    {
        let name = self.name;
        match self.core.add_region(log.alloc(), region) {
            Ok(region) => self.tell(&event!(Region, name, [region]), log),
            Err(fault) => self.refuse_addition(name, fault, log),
        }
    }

    /// Declares a driver for the channels of a name.
    #[tactic(auto, unfolding(crate::specs::CoreCommands::driver_effect))]
    fn add_driver(
        &mut self,
        channel: Name,
        kind: DriverKind,
        log: &mut RunLog,
    ) -> Result<Option<Stop>, NoMemory>
        ensures name { self.new.name ≡ self.old.name }
        ensures effect { IfOk result (λ ending. HasCoreEffect (driver_effect self.old.name self.old.core log.old.steps channel kind) self.new.core log.old log.new ending) }
    {
        let name = self.name;
        match self.core.add_driver(log.alloc(), channel, kind) {
            Ok(()) => self.tell(
                &Event::Driver {
                    name,
                    channel,
                    kind,
                },
                log,
            ),
            Err(fault) => self.refuse_addition(channel, fault, log),
        }
    }

    /// Writes why a region is not added, or a driver for the channels of this name not declared.
    fn refuse_addition(
        &mut self,
        channel: Name,
        fault: AddFault,
        log: &mut RunLog,
    ) -> Result<Option<Stop>, NoMemory>
        ensures same { self.new ≡ self.old }
        ensures known { OnOk result (fault ≢ add_fault.NoMemory) }
        ensures effect { IfOk result (λ ending. HasCoreEffect (core_tells_all self.old.core log.old.steps (add_fault_events self.old.name channel fault)) self.new.core log.old log.new ending) }
    {
        let name = self.name;
        let event = match fault {
            AddFault::NotOffline => Event::NotOffline { name },
            AddFault::Region(fault) => fault_at(name, fault.number().unwrap_or(0), None),
            AddFault::DriverTaken => Event::DriverTaken { name, channel },
            AddFault::DriversFull => Event::DriversFull { name },
            AddFault::NoMemory => return Err(NoMemory),
        };
        self.tell(&event, log)
    }

    /// Sets whether the core is recovered when it has crashed.
    fn set_recovery(&mut self, switch: Switch, log: &mut RunLog) -> Result<Option<Stop>, NoMemory>
        ensures name { self.new.name ≡ self.old.name }
        ensures effect { IfOk result (λ ending. HasCoreEffect (recovery_effect self.old.name self.old.core log.old.steps switch) self.new.core log.old log.new ending) }
    {
        let name = self.name;
        self.core.set_recovery(is_on(switch));
        self.tell(&Event::Recovery { name, switch }, log)
    }
}

/// Whether a switch is on.
pub(crate) fn is_on(switch: Switch) -> bool
    ensures { result ≡ is_on switch }
{
    matches!(switch, Switch::On)
}
