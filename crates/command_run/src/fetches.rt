ghost use Rattle.std.specs.Prelude.{◌≡◌, None, Some, Err, IsTrue, is_some, IfOk, IfErr, OnOk, IsErrOf};
ghost use Rattle.std.specs.Option.{option_copied};
ghost use Rattle.std.specs.Result.{result_map_both};
ghost use Rattle.rp_io.specs.Images.{IsStoreFault};
ghost use Rattle.script_lang.specs.Runnable.{IsRunnable};
ghost use Rattle.rp_io.specs.declared.faults.NoImage.TheVariants as no_image;
ghost use Rattle.rp_io.specs.declared.faults.StoreFault.TheVariants as store_fault;
ghost use Rattle.command_run.specs.CoreLives.{found_image, image_bytes};
ghost use Rattle.command_run.specs.Runs.{asked_name, core_act, outside_image};
ghost use Rattle.command_run.specs.Fetches.{KeepsDrive, RunsTold};
ghost use Rattle.command_run.specs.Starts.{IsImageOf, image_answer};
ghost use Rattle.link_commands.specs.Acts.{bare_line};

use crate::faults::CommandFault;
use crate::{Objects, ScriptImage};
use link_commands::{CoreAct, Line, NamedAct, Stop, line_of};
use rp_base::{IMAGE_MOST, Name};
use rp_io::{FirmwareStore, NoImage, Sink, StoreFault, bytes_of, look_up_bytes};
use run_log::RunLog;
use script_lang::{Command, Recipe};
use std::alloc::Global;

/// An image that was looked for.
#[derive(Drop)]
pub enum FoundImage<'a> {
    /// The script made it: its bytes.
    Script(&'a [u8]),
    /// The script didn't make it, and the store has this under its name.
    Store(Result<Vec<u8>, NoImage>),
}

impl FoundImage<'_> {
    /// The bytes of the image, unless it is missing or too large.
    pub(crate) fn image(&self) -> Result<&[u8], NoImage>
        ensures { result_map_both (λ bytes. bytes.now) (λ why. why) result ≡ image_answer self.now }
    {
        match self {
            FoundImage::Script(bytes) if bytes.len() > IMAGE_MOST => {
                Err(NoImage::TooLarge(bytes.len() as u64))
            }
            FoundImage::Script(bytes) => Ok(bytes),
            FoundImage::Store(found) => bytes_of(found),
        }
    }
}

/// Runs one command over what the store has, writes its events, and answers why the run stops in its
/// midst, if it does. A drive hands on what it writes as it goes: with less than a piece kept before it,
/// less than a piece is kept beside what its last 1,024 steps, or one event, wrote, after it and wherever
/// the sink fails.
///
/// Errors: [`CommandFault::Store`] where the store failed, which leaves objects and log as they were;
/// [`CommandFault::Write`] where the sink failed in a drive; [`CommandFault::NoMemory`].
pub fn run_command<F: FirmwareStore, K: Sink>(
    objects: &mut Objects,
    command: &Command,
    store: &mut F,
    log: &mut RunLog,
    out: &mut K,
) -> Result<Option<Stop>, CommandFault>
    requires { IsRunnable command.now }
    ensures effect { RunsTold result (F.images store.old) (record { objects = objects.old; steps = log.old.steps }) command.now objects.new log.old log.new
        (K.written out.old) (K.written out.new) (K.faults out.old) (K.faults out.new) (F.faults store.old) (F.faults store.new) }
    ensures less { IfOk result (λ _. KeepsDrive (record { objects = objects.old; steps = log.old.steps }) command.now log.old log.new.lines) }
    ensures kept { F.images store.new ≡ F.images store.old }
    ensures unasked { asked_name objects.old command.now ≡ None → store.new ≡ store.old }
{
    let line = line_of(command);
    match core_act(&line) {
        Some((name, act)) => match act {
            CoreAct::Drive { count } => Ok(objects.drive(name, count, log, out)?),
            CoreAct::Start(start) => Ok(objects.start(name, start, store, log)?),
            _ => Ok(objects.run_line(&line, log)?),
        },
        None => Ok(objects.run_line(&line, log)?),
    }
}

/// The act on a core that a command is about, with the core's name.
fn core_act(line: &Line<&Recipe, &[u8]>) -> Option<(Name, CoreAct)>
    ensures { result ≡ core_act (bare_line (λ recipe. recipe.now) (λ bytes. bytes.now) line.now) }
{
    match line {
        Line::On { name, act } => match act {
            NamedAct::Core(act) => Some((*name, *act)),
            _ => None,
        },
        _ => None,
    }
}

/// The image of a name: the first that the script made, or else what the store says of it. A name that
/// is no text is missing in each store.
pub(crate) fn find_image<'a, F: FirmwareStore>(
    alloc: Global,
    images: &'a [ScriptImage],
    name: &[u8],
    store: &mut F,
) -> Result<FoundImage<'a>, StoreFault>
    ensures told { IfOk result (IsImageOf (F.images store.old) images.now name.now) }
    ensures same { OnOk result (F.faults store.new ≡ F.faults store.old) }
    ensures fault { IfErr result (λ why. IsStoreFault why (F.faults store.old) (F.faults store.new)) }
    ensures asked { IsErrOf result store_fault.Failed → IsTrue (is_some (outside_image images.now name.now)) }
    ensures kept { F.images store.new ≡ F.images store.old }
    ensures unasked { outside_image images.now name.now ≡ None → store.new ≡ store.old }
{
    if let Some(bytes) = image_bytes(images, name) {
        return Ok(FoundImage::Script(bytes));
    }
    Ok(FoundImage::Store(look_up_bytes(alloc, store, name)?))
}

/// The image of a name, of which the script made one or none is there.
pub(crate) fn script_image<'a>(images: &'a [ScriptImage], name: &[u8]) -> FoundImage<'a>
    ensures { image_answer result ≡ found_image images.now (Err no_image.Missing) name.now }
{
    match image_bytes(images, name) {
        Some(bytes) => FoundImage::Script(bytes),
        None => FoundImage::Store(Err(NoImage::Missing)),
    }
}

/// The bytes of the first image of this name.
pub(crate) fn image_bytes<'a>(images: &'a [ScriptImage], name: &[u8]) -> Option<&'a [u8]>
    ensures { option_copied result ≡ image_bytes images.now name.now }
{
    let image = images.iter().find(|image| image.name.bytes() == name)?;
    Some(image.bytes.as_slice())
}
