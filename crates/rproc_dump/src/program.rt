ghost use Rattle.std.specs.Prelude.{◌≡◌, map, true};
ghost use Rattle.program_status.specs.Statuses.{status_of};
ghost use Rattle.script_run.specs.Endings.{devices};
ghost use Rattle.script_run.specs.Outputs.{run as run_form};
ghost use Rattle.script_run.specs.Programs.{ProgramEnds};
ghost use Rattle.command_run.specs.CoreLives.{image_bytes};
ghost use Rattle.command_run.specs.Lookups.{is_bare};
ghost use Rattle.rproc_dump.specs.Dumps.{DumpEnds, IsImageEnding, heard, wish_of};

use crate::endings::Ending;
use crate::wishes::{Wish, read_words};
use rp_io::{FirmwareStore, PlainSink, Sink, Source, write_whole};
use script_run::{Yard, run_program};
use std::alloc::Global;
use std::sync::Wait;
use std::thread::Threads;

/// Runs the script of the source over the images of the store, writes the transcript, unless it is to
/// be quiet, and then writes the image that the run left under a name, made by a recipe or kept by a
/// dump. It is written only where the run ended with 0.
pub(crate) fn run_dump<R: Threads + Wait + Sync, S: Source, F: FirmwareStore, T: Sink, K: Sink>(
    rt: &R,
    alloc: Global,
    words: &[&str],
    script: &mut S,
    store: &mut F,
    yard: &mut Yard,
    transcript: &mut T,
    out: &mut K,
) -> Ending
    requires { is_bare yard.old ≡ true }
    ensures { let at = devices S.Source F.FirmwareStore T.Sink in
        DumpEnds result (wish_of (map (λ word. word.now) words.now)) (at script.old store.old transcript.old) (at script.new store.new transcript.new)
        yard.old yard.new (K.written out.old) (K.written out.new) (K.faults out.old) (K.faults out.new) }
{
    let Some(wish) = read_words(words) else {
        return Ending::Usage;
    };
    let ended = run(rt, alloc, wish.is_quiet, script, store, yard, transcript);
    if ended != 0 {
        return Ending::NotRun(ended);
    }
    write_image(yard, wish.name, out)
}

/// Runs the script of the source, and answers the number of the status with which that ends.
fn run<R: Threads + Wait + Sync, S: Source, F: FirmwareStore, T: Sink>(
    rt: &R,
    alloc: Global,
    is_quiet: bool,
    script: &mut S,
    store: &mut F,
    yard: &mut Yard,
    transcript: &mut T,
) -> u8
    requires { is_bare yard.old ≡ true }
    ensures ends { let at = devices S.Source F.FirmwareStore T.Sink in
        ProgramEnds (status_of result) run_form (heard is_quiet (at script.old store.old transcript.old)) (heard is_quiet (at script.new store.new transcript.new)) yard.old yard.new }
    ensures quiet { is_quiet ≡ true → transcript.new ≡ transcript.old }
{
    let words = ["run"];
    if is_quiet {
        let mut silence = PlainSink::new();
        return run_program(rt, alloc, &words, script, store, yard, &mut silence);
    }
    run_program(rt, alloc, &words, script, store, yard, transcript)
}

/// Writes the image that a run left under a name.
fn write_image<K: Sink>(yard: &Yard, name: &str, out: &mut K) -> Ending
    ensures { IsImageEnding result (image_bytes yard.now.images name.now) (K.written out.old) (K.written out.new) (K.faults out.old) (K.faults out.new) }
{
    let Some(bytes) = yard.image(name) else {
        return Ending::NoImage;
    };
    match write_whole(out, bytes) {
        Ok(()) => Ending::Written,
        Err(_) => Ending::WriteFault,
    }
}
