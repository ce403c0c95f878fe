ghost use Rattle.std.specs.Prelude.{◌≡◌, None, Some, Err, IfOk};
ghost use Rattle.std.specs.Result.{result_map_both};
ghost use Rattle.rp_io.specs.declared.faults.NoImage.TheVariants as no_image;
ghost use Rattle.command_run.specs.CoreLives.{start_with, started_effect};
ghost use Rattle.command_run.specs.Outcomes.{HasCoreEffect};
ghost use Rattle.command_run.specs.Runs.{start_image};
ghost use Rattle.command_run.specs.Starts.{Begins, NeedsImage, StartsOver, start_of};

use crate::fetches::{find_image, script_image};
use crate::{NamedCore, ScriptImage};
use crash_recover::{Boot, Core, Start, StartFault};
use link_commands::{StartAct, Stop};
use proc_state::Life;
use rp_base::{Name, NoMemory};
use rp_io::{FirmwareStore, NoImage, StoreFault};
use run_log::RunLog;
use std::alloc::Global;

/// How far a start of a core comes without an image.
#[derive(Drop)]
pub enum Beginning {
    /// It did this, or was refused.
    Done(Result<Start, StartFault>),
    /// It needs an image. Nothing has changed.
    NeedsImage(Rest),
}

/// What is left of a start that needs an image.
#[derive(Drop)]
pub enum Rest {
    /// A boot to this life, with the image of this name.
    Boot(Life, Name),
    /// A handover, likewise.
    Handover(Life, Name),
    /// A recovery.
    Recovery,
}

/// The starts of a core. An image that the script made comes before one of the store, and the store is
/// asked only where the core needs an image that the script didn't make.
impl NamedCore {
    /// Starts the core over no store, and writes what came of it.
    pub(crate) fn start_without_store(
        &mut self,
        start: StartAct,
        images: &[ScriptImage],
        log: &mut RunLog,
    ) -> Result<Option<Stop>, NoMemory>
        ensures name { self.new.name ≡ self.old.name }
        ensures effect { IfOk result (λ ending. HasCoreEffect (started_effect start images.now (Err no_image.Missing) self.old log.old.steps) self.new.core log.old log.new ending) }
    {
        let image = self.start_name(start);
        match begin(&mut self.core, log.alloc(), start)? {
            Beginning::Done(started) => Ok(self.tell_start(image, started, log)?),
            Beginning::NeedsImage(rest) => {
                let found = script_image(images, image.bytes());
                let started = go_on(&mut self.core, log.alloc(), rest, found.image())?;
                Ok(self.tell_start(image, started, log)?)
            }
        }
    }

    /// Starts the core over a store, and writes what came of it.
    pub(crate) fn start<F: FirmwareStore>(
        &mut self,
        start: StartAct,
        images: &[ScriptImage],
        store: &mut F,
        log: &mut RunLog,
    ) -> Result<Option<Stop>, StoreFault>
        ensures name { self.new.name ≡ self.old.name }
        ensures started { StartsOver result (F.images store.old) start images.now self.old self.new.core log.old log.new (F.faults store.old) (F.faults store.new) }
        ensures kept { F.images store.new ≡ F.images store.old }
        ensures unasked { start_image start images.now (Some self.old) ≡ None → store.new ≡ store.old }
    {
        let image = self.start_name(start);
        match begin(&mut self.core, log.alloc(), start)? {
            Beginning::Done(started) => Ok(self.tell_start(image, started, log)?),
            Beginning::NeedsImage(rest) => {
                let found = find_image(log.alloc(), images, image.bytes(), store)?;
                let started = go_on(&mut self.core, log.alloc(), rest, found.image())?;
                Ok(self.tell_start(image, started, log)?)
            }
        }
    }
}

/// A start of a core as far as it comes without an image.
fn begin(core: &mut Core, alloc: Global, start: StartAct) -> Result<Beginning, NoMemory>
    ensures { IfOk result (Begins start core.old core.new) }
{
    match start {
        StartAct::Boot { image } => match core.begin_boot(alloc)? {
            Boot::Done(started) => Ok(Beginning::Done(started)),
            Boot::NeedsImage(life) => Ok(Beginning::NeedsImage(Rest::Boot(life, image))),
        },
        StartAct::Handover { image } => match core.handover_life() {
            Ok(life) => Ok(Beginning::NeedsImage(Rest::Handover(life, image))),
            Err(fault) => Ok(Beginning::Done(Err(StartFault::Life(fault)))),
        },
        StartAct::Recover => match core.recovery_fault() {
            None => Ok(Beginning::NeedsImage(Rest::Recovery)),
            Some(fault) => Ok(Beginning::Done(Err(StartFault::Life(fault)))),
        },
    }
}

/// The rest of a start, with an image that was found, or wasn't.
fn go_on(
    core: &mut Core,
    alloc: Global,
    rest: Rest,
    found: Result<&[u8], NoImage>,
) -> Result<Result<Start, StartFault>, NoMemory>
    requires { NeedsImage core.old rest }
    ensures { IfOk result (λ started. start_with (start_of rest) core.old (result_map_both (λ image. image.now) (λ why. why) found.entry) ≡ record { core = core.new; answer = started }) }
{
    match rest {
        Rest::Boot(life, image) => core.boot_image(alloc, life, image, found),
        Rest::Handover(life, image) => core.handover_image(alloc, life, image, found),
        Rest::Recovery => core.recover_image(alloc, found),
    }
}
