ghost use Rattle.std.specs.Prelude.{◌≡◌, IfOk, MatchResult, Ok, Err, option_map};
ghost use Rattle.std.specs.Option.{option_copied};
ghost use Rattle.core_dump.specs.Dumps.{dump_of};
ghost use Rattle.core_dump.specs.Parts.{AreParts};
ghost use Rattle.crash_recover.specs.Cores.{load_view};
ghost use Rattle.command_run.specs.Dumps.{bytes_answer, crashed_load, kept_dumps, load_answer};
ghost use Rattle.command_run.specs.Outcomes.{HasRunEffect};
ghost use Rattle.command_run.specs.Runs.{dump_answer, dump_effect, dump_effect_of};

use crate::objects::has_image;
use crate::{Objects, ScriptImage};
use core_dump::{Part, dump_len, write_dump};
use crash_recover::Core;
use fw_load::Loaded;
use journal::Event;
use link_commands::Stop;
use rp_base::{Da, IMAGE_MOST, LifeState, Name, NoMemory};
use run_log::RunLog;
use std::alloc::Global;

/// How many dumps a script may keep.
pub const DUMPS_MOST: usize = 64;

/// The dump that is asked for: of which core, and which image it is to become.
#[derive(Clone, Copy)]
struct DumpWish {
    /// The name of the core.
    name: Name,
    /// The name of the image.
    image: Name,
    /// Whether an image has this name.
    is_taken: bool,
    /// How many dumps were kept.
    kept: usize,
}

impl Objects {
    /// Keeps the dump of a crashed core as the image of a name.
    #[tactic(auto, unfolding(crate::specs::Runs::dump_effect))]
    pub(crate) fn dump(
        &mut self,
        name: Name,
        image: Name,
        log: &mut RunLog,
    ) -> Result<Option<Stop>, NoMemory>
        ensures { IfOk result (λ ending. HasRunEffect (dump_effect (record { objects = self.old; steps = log.old.steps }) name image) self.new log.old log.new ending) }
    {
        match self.dump_bytes(name, image)? {
            Ok(bytes) => self.keep_dump(image, bytes, log),
            Err(event) => {
                log.tell(&event)?;
                Ok(None)
            }
        }
    }

    /// Keeps a dump of these bytes.
    fn keep_dump(
        &mut self,
        image: Name,
        bytes: Vec<u8>,
        log: &mut RunLog,
    ) -> Result<Option<Stop>, NoMemory>
        ensures { IfOk result (λ ending. HasRunEffect (dump_effect_of (record { objects = self.old; steps = log.old.steps }) image (Ok bytes.items)) self.new log.old log.new ending) }
    {
        let len = bytes.len() as u64;
        self.images.push(ScriptImage {
            name: image,
            bytes,
            is_dump: true,
        })?;
        log.tell(&Event::Image { name: image, len })?;
        Ok(None)
    }

    /// The dump of the core of a name that is to become an image, or what is written in its place.
    fn dump_bytes(&self, name: Name, image: Name) -> Result<Result<Vec<u8>, Event>, NoMemory>
        ensures { IfOk result (λ answer. MatchResult answer (λ bytes. dump_answer self.now name image ≡ Ok bytes.items) (λ told. dump_answer self.now name image ≡ Err told)) }
    {
        let wish = DumpWish {
            name,
            image,
            is_taken: has_image(self.images.as_slice(), image.bytes()),
            kept: kept_dumps(self.images.as_slice()),
        };
        match self.core_under(name.bytes()) {
            Some(named) => dump_core(self.alloc, &wish, &named.core),
            None => Ok(Err(Event::Unknown { name })),
        }
    }
}

/// How many of the images of a script are dumps.
fn kept_dumps(images: &[ScriptImage]) -> usize
    ensures { result ≡ kept_dumps images.now }
{
    images.iter().filter(|image| image.is_dump).count()
}

/// The dump of a core, or what is written in its place.
fn dump_core(
    alloc: Global,
    wish: &DumpWish,
    core: &Core,
) -> Result<Result<Vec<u8>, Event>, NoMemory>
    ensures { let answer = load_answer wish.now.is_taken wish.now.kept wish.now.name wish.now.image core.now (crashed_load core.now.life.state core.now.loaded) in
        IfOk result (λ dumped. MatchResult dumped (λ bytes. answer ≡ Ok bytes.items) (λ told. answer ≡ Err told)) }
{
    match crashed_load(core) {
        Some(loaded) => {
            let parts = core.parts(alloc)?;
            dump_parts(alloc, wish, loaded.entry, parts.as_slice())
        }
        None => Ok(Err(Event::NotCrashed { name: wish.name })),
    }
}

/// What a crashed core has loaded.
fn crashed_load(core: &Core) -> Option<&Loaded>
    ensures { option_map load_view (option_copied result) ≡ crashed_load core.now.life.state core.now.loaded }
{
    match core.life().state() {
        LifeState::Crashed => core.loaded(),
        _ => None,
    }
}

/// The dump of parts, or what is written in its place. A dump that isn't kept isn't made.
fn dump_parts(
    alloc: Global,
    wish: &DumpWish,
    entry: Da,
    parts: &[Part<'_>],
) -> Result<Result<Vec<u8>, Event>, NoMemory>
    requires { AreParts parts.now }
    ensures { let answer = bytes_answer wish.now.is_taken wish.now.kept wish.now.name wish.now.image (dump_of entry parts.now) in
        IfOk result (λ dumped. MatchResult dumped (λ bytes. answer ≡ Ok bytes.items) (λ told. answer ≡ Err told)) }
{
    let name = wish.name;
    let len = dump_len(parts);
    if wish.is_taken {
        return Ok(Err(Event::ImageExists { name: wish.image }));
    }
    if len > IMAGE_MOST {
        let len = len as u64;
        return Ok(Err(Event::DumpTooLarge { name, len }));
    }
    if wish.kept >= DUMPS_MOST {
        return Ok(Err(Event::DumpsFull { name }));
    }
    Ok(Ok(write_dump(alloc, entry, parts)?))
}
