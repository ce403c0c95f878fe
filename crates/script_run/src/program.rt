ghost use Rattle.std.specs.Prelude.{◌≡◌, ◌≤◌, ◌<◌, ◌+◌, length, map, true, false};
ghost use Rattle.rp_base.specs.declared.limits.TheConstants.{SCRIPT_MOST};
ghost use Rattle.std.specs.Io.KnownBytes.{IsAtEnd};
ghost use Rattle.rp_io.specs.Contents.{LosesFront};
ghost use Rattle.script_lang.specs.Grammar.{IsScript, script_of};
ghost use Rattle.script_run.specs.Outputs.{form_of};
ghost use Rattle.command_run.specs.Runs.{AsksNone, new_run};
ghost use Rattle.command_run.specs.Lookups.{is_bare};
ghost use Rattle.script_run.specs.Outputs.{run as run_form};
ghost use Rattle.program_status.specs.Statuses.{status_of};
ghost use Rattle.script_run.specs.Endings.{IsReadAnswer, IsReadEnd, NeedsNoStore, RunAnswersAs, RunEnds, SourceAsksNone, TextAsksNone, devices, reads_source, source_most};
ghost use Rattle.script_run.specs.Yards.{RunLeaves, RunLeavesAs, TextLeaves};
ghost use Rattle.script_run.specs.Programs.{FormEnds, ProgramEnds};

use crate::audits::audit_text;
use crate::demos::demo;
use crate::endings::{end_with, end_with_text};
use crate::reports::check;
use crate::runs::run_commands;
use crate::storms::run_plan;
use crate::words::{Request, read_words};
use crate::yards::Yard;
use journal::Notice;
use program_status::Status;
use rp_base::SCRIPT_MOST;
use rp_io::{FirmwareStore, ReadFault, Sink, Source, read_front};
use script_lang::{ParseFault, Script, parse};
use std::alloc::Global;
use std::sync::Wait;
use std::thread::Threads;
use storm_run::FreeGate;

/// The program: it does what the words after the program's name ask for, and answers the number with
/// which the process ends. With the word `run` it reads a script from the source, runs it and writes
/// the transcript; with `check NAME` it writes whether the image of that name loads; with `demo N` it
/// runs the script of a demo over an empty store and writes how many messages its links accepted; with
/// `storm H R N K` it runs a storm, with each caller on a thread of its own, and writes what was sent
/// and handed over; with `audit` it reads a transcript from the source and writes whether its lines
/// keep the rules; all other words are answered by the usage line. With `storm` alone it may wait.
///
/// The yard is empty before. With `run` it has then the links and the cores of the script, as its run
/// left them, also where the run came to the most steps or the store failed; where the sink failed, as
/// they were when it did; where memory ran out they may be in any state. It stays empty where the
/// script isn't read to its end or is none, and with other words.
///
/// The number is 0 where the whole output is written; 1 where `check` found no such image, one too
/// large, or one that doesn't load, or `audit` a line that breaks a rule; 2 for other words; 3 where the
/// source failed; 4 where the sink failed; 5 where memory ran out; 6 where the text is no script, or a
/// transcript that is too long; 7 where the run was to take one step more than it may; and 8 where the
/// store failed. With `run` it is 0 or 3 to 8, with `check` 0, 1, 4, 5 or 8, with `demo` 0, 4 or 5,
/// with `storm` 0, 4 or 5, with `audit` 0, 1 or 3 to 6, and for other words 2, 4 or 5.
pub fn run_program<R: Threads + Wait + Sync, S: Source, F: FirmwareStore, K: Sink>(
    rt: &R,
    alloc: Global,
    words: &[&str],
    script: &mut S,
    store: &mut F,
    yard: &mut Yard,
    out: &mut K,
) -> u8
    requires { is_bare yard.old ≡ true }
    ensures ends { let form = form_of (map (λ word. word.now) words.now) in
        let at = devices S.Source F.FirmwareStore K.Sink in
        ProgramEnds (status_of result) form (at script.old store.old out.old) (at script.new store.new out.new) yard.old yard.new }
    ensures read { reads_source (form_of (map (λ word. word.now) words.now)) ≡ true → IsReadAnswer (status_of result) → IsAtEnd (S.left script.new) }
    ensures taken { LosesFront (S.left script.old) (S.left script.new) (source_most (form_of (map (λ word. word.now) words.now))) }
    ensures unread { reads_source (form_of (map (λ word. word.now) words.now)) ≡ false → script.new ≡ script.old }
    ensures unasked { NeedsNoStore (form_of (map (λ word. word.now) words.now)) (S.left script.old) → store.new ≡ store.old }
    ensures unfilled { ¬ IsAtEnd (S.left script.new) → yard.new ≡ yard.old }
{
    answer(rt, alloc, words, script, store, yard, out).number()
}

/// How the program ends.
fn answer<R: Threads + Wait + Sync, S: Source, F: FirmwareStore, K: Sink>(
    rt: &R,
    alloc: Global,
    words: &[&str],
    script: &mut S,
    store: &mut F,
    yard: &mut Yard,
    out: &mut K,
) -> Status
    requires { is_bare yard.old ≡ true }
    ensures ends { let form = form_of (map (λ word. word.now) words.now) in
        let at = devices S.Source F.FirmwareStore K.Sink in
        FormEnds result form (at script.old store.old out.old) (at script.new store.new out.new) yard.old yard.new }
    ensures read { reads_source (form_of (map (λ word. word.now) words.now)) ≡ true → IsReadEnd result → IsAtEnd (S.left script.new) }
    ensures taken { LosesFront (S.left script.old) (S.left script.new) (source_most (form_of (map (λ word. word.now) words.now))) }
    ensures unread { reads_source (form_of (map (λ word. word.now) words.now)) ≡ false → script.new ≡ script.old }
    ensures unasked { NeedsNoStore (form_of (map (λ word. word.now) words.now)) (S.left script.old) → store.new ≡ store.old }
    ensures unfilled { ¬ IsAtEnd (S.left script.new) → yard.new ≡ yard.old }
{
    let Ok(asked) = read_words(alloc, words) else {
        return Status::NoMemory;
    };
    match asked {
        Request::Run => run_text(alloc, script, store, yard, out),
        Request::Check(word, name) => check(alloc, word, name, store, out),
        Request::Demo(sessions) => demo(alloc, sessions, out),
        Request::Storm(plan) => run_plan(rt, alloc, &plan, &FreeGate, out),
        Request::Audit => audit_text(alloc, script, out),
        Request::Other => end_with(alloc, &[Notice::Usage], Status::Usage, out),
    }
}

/// Reads a script, runs it over what the store says and writes its transcript.
fn run_text<S: Source, F: FirmwareStore, K: Sink>(
    alloc: Global,
    script: &mut S,
    store: &mut F,
    yard: &mut Yard,
    out: &mut K,
) -> Status
    requires { is_bare yard.old ≡ true }
    ensures ends { let at = devices S.Source F.FirmwareStore K.Sink in
        FormEnds result run_form (at script.old store.old out.old) (at script.new store.new out.new) yard.old yard.new }
    ensures read { IsReadEnd result → IsAtEnd (S.left script.new) }
    ensures taken { LosesFront (S.left script.old) (S.left script.new) (SCRIPT_MOST + 1) }
    ensures unasked { SourceAsksNone (S.left script.old) → store.new ≡ store.old }
    ensures unfilled { ¬ IsAtEnd (S.left script.new) → yard.new ≡ yard.old }
{
    match read_front(alloc, script, SCRIPT_MOST) {
        Ok(bytes) => run_bytes(alloc, &bytes, store, yard, out),
        Err(ReadFault::Failed) => end_with_text(b"* read fault\n", Status::ReadFault, out),
        Err(ReadFault::NoMemory) => Status::NoMemory,
    }
}

/// Runs the script of these bytes and writes its transcript, or writes where and why they are none.
fn run_bytes<F: FirmwareStore, K: Sink>(
    alloc: Global,
    bytes: &[u8],
    store: &mut F,
    yard: &mut Yard,
    out: &mut K,
) -> Status
    requires { is_bare yard.old ≡ true }
    ensures ends { RunEnds result (F.images store.old) (script_of bytes.now) (K.written out.old) (K.written out.new) (K.faults out.old) (K.faults out.new) (F.faults store.old) (F.faults store.new) }
    ensures fits { IsReadEnd result → length bytes.now ≤ SCRIPT_MOST }
    ensures unasked { TextAsksNone (script_of bytes.now) → store.new ≡ store.old }
    ensures leaves { TextLeaves result (F.images store.old) (script_of bytes.now) yard.old yard.new (K.written out.old) (K.written out.new) (K.faults out.old) (K.faults out.new) (F.faults store.old) (F.faults store.new) }
    ensures unfilled { SCRIPT_MOST < length bytes.now → yard.new ≡ yard.old }
{
    match parse(alloc, bytes) {
        Ok(parsed) => run_and_write(alloc, &parsed, store, yard, out),
        Err(ParseFault::Refused(line, cause)) => {
            end_with(alloc, &[Notice::Refused(line, cause)], Status::Refused, out)
        }
        Err(ParseFault::NoMemory) => Status::NoMemory,
    }
}

/// Runs a script from nothing, and writes its transcript. An image that the script didn't make is
/// fetched from the store. It answers the number with which the process ends: 0, 4, 5, 7 or 8, each
/// where [`run_program`] answers it. The yard is empty before, and has then the links and the cores of
/// the script, as [`run_program`] leaves them.
pub fn run_script<F: FirmwareStore, K: Sink>(
    alloc: Global,
    script: &Script,
    store: &mut F,
    yard: &mut Yard,
    out: &mut K,
) -> u8
    requires script { IsScript script.now.commands.items }
    requires empty { is_bare yard.old ≡ true }
    ensures answer { RunAnswersAs (status_of result) (F.images store.old) script.now.commands.items
        (K.written out.old) (K.written out.new) (K.faults out.old) (K.faults out.new) (F.faults store.old) (F.faults store.new) }
    ensures unasked { AsksNone new_run script.now.commands.items → store.new ≡ store.old }
    ensures yard { RunLeavesAs (status_of result) (F.images store.old) script.now.commands.items yard.new
        (K.written out.old) (K.written out.new) (K.faults out.old) (K.faults out.new) (F.faults store.old) (F.faults store.new) }
{
    run_and_write(alloc, script, store, yard, out).number()
}

/// Runs a script from nothing, and writes its transcript.
fn run_and_write<F: FirmwareStore, K: Sink>(
    alloc: Global,
    script: &Script,
    store: &mut F,
    yard: &mut Yard,
    out: &mut K,
) -> Status
    requires script { IsScript script.now.commands.items }
    requires empty { is_bare yard.old ≡ true }
    ensures leaves { RunLeaves result (F.images store.old) script.now.commands.items yard.new
        (K.written out.old) (K.written out.new) (K.faults out.old) (K.faults out.new) (F.faults store.old) (F.faults store.new) }
    ensures unasked { AsksNone new_run script.now.commands.items → store.new ≡ store.old }
{
    yard.objects.forget_images();
    let commands = script.commands.as_slice();
    run_commands(alloc, &mut yard.objects, commands, store, out)
}
