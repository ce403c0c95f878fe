ghost use Rattle.std.specs.Prelude.{◌≡◌, ◌++◌, OnOk, OnErr};
ghost use Rattle.journal.specs.Lines.{line};
ghost use Rattle.journal.specs.Notices.{cause_text, notice_line};

use crate::events::Event;
use crate::notices::Notice;
use crate::table::{fields_of, slots};
use crate::tables::TableLine;
use rp_base::NoMemory;
use std::alloc::Global;
use word_kinds::{Cause, Piece, no_name, push_form, push_line};

/// Appends the line of an event, with its line feed. Where memory is wanting, the text stays as it
/// was.
#[tactic(auto, unfolding(crate::specs::Lines::line))]
pub fn line(_alloc: Global, event: &Event, out: &mut Vec<u8>) -> Result<(), NoMemory>
    ensures whole { OnOk result (out.new.items ≡ out.old.items ++ line event.now) }
    ensures same { OnErr result (out.new.items ≡ out.old.items) }
{
    let fields = fields_of(event);
    push_form(out, slots(fields.form), &fields.values)
}

/// Appends the line of a notice. Where memory is wanting, the text stays as it was.
#[tactic(auto, unfolding(crate::specs::Notices::notice_line))]
pub fn push_notice(_alloc: Global, notice: &Notice, out: &mut Vec<u8>) -> Result<(), NoMemory>
    ensures whole { OnOk result (out.new.items ≡ out.old.items ++ notice_line notice.now) }
    ensures same { OnErr result (out.new.items ≡ out.old.items) }
{
    match notice {
        Notice::Usage => push_line(
            out,
            &[Piece::Fixed("usage: rproc run | check NAME | demo N | storm H R N K | audit")],
        ),
        Notice::ReadFault => push_line(out, &[Piece::Fixed("* read fault")]),
        Notice::StoreFault => push_line(out, &[Piece::Fixed("* store fault")]),
        Notice::StepLimit => push_line(out, &[Piece::Fixed("* step limit")]),
        Notice::Refused(line, why) => push_refusal(out, *line, *why),
        Notice::Missing(name) => push_line(out, &[Piece::Fixed("missing"), Piece::Name(name)]),
        Notice::TooLarge(name) => push_line(out, &[Piece::Fixed("too-large"), Piece::Name(name)]),
        Notice::Fault(number, index) => push_fault(out, *number, *index),
        Notice::Start(entry) => push_line(out, &[Piece::Fixed("start"), Piece::Digits(entry)]),
        Notice::Segment(index, da, file_len, memory_len) => push_line(
            out,
            &[
                Piece::Fixed("segment"),
                Piece::Number(&u64::from(*index)),
                Piece::Digits(da),
                Piece::Number(file_len),
                Piece::Short(memory_len),
            ],
        ),
        Notice::Table(entry) => push_entry(out, entry),
        Notice::Loads => push_line(out, &[Piece::Fixed("ok")]),
        Notice::Demo(sessions, to_host, to_remote) => push_demo(
            out, *sessions, *to_host, *to_remote,
        ),
        Notice::Sound(lines) => push_line(out, &[Piece::Fixed("audit ok"), Piece::Number(lines)]),
        Notice::Broken(line, rule) => push_line(
            out,
            &[
                Piece::Fixed("audit broken"),
                Piece::Number(line),
                Piece::Number(&u64::from(*rule)),
            ],
        ),
    }
}

/// Where and why a script is refused.
#[tactic(auto, unfolding(crate::specs::Notices::notice_line))]
fn push_refusal(out: &mut Vec<u8>, line: u32, why: Cause) -> Result<(), NoMemory>
    ensures whole { OnOk result (out.new.items ≡ out.old.items ++ notice_line (Notice.Refused line why)) }
    ensures same { OnErr result (out.new.items ≡ out.old.items) }
{
    push_line(
        out,
        &[
            Piece::Fixed("* refused"),
            Piece::Short(&line),
            Piece::Fixed(cause_text(why)),
        ],
    )
}

/// Why an image doesn't load, and what that is about.
#[tactic(auto, unfolding(crate::specs::Notices::notice_line))]
fn push_fault(out: &mut Vec<u8>, number: u8, index: Option<u16>) -> Result<(), NoMemory>
    ensures whole { OnOk result (out.new.items ≡ out.old.items ++ notice_line (Notice.Fault number index)) }
    ensures same { OnErr result (out.new.items ≡ out.old.items) }
{
    let fault = Piece::Fixed("fault");
    let number = u64::from(number);
    let number = Piece::Number(&number);
    match index {
        None => push_line(out, &[fault, number]),
        Some(index) => push_line(out, &[fault, number, Piece::Number(&u64::from(index))]),
    }
}

/// A line about the resource table: that of the event of a core without the name in front.
#[tactic(auto, unfolding(crate::specs::Notices::notice_line))]
fn push_entry(out: &mut Vec<u8>, entry: &TableLine) -> Result<(), NoMemory>
    ensures whole { OnOk result (out.new.items ≡ out.old.items ++ notice_line (Notice.Table entry.now)) }
    ensures same { OnErr result (out.new.items ≡ out.old.items) }
{
    let event = Event::Table {
        name: no_name(),
        line: *entry,
    };
    let fields = fields_of(&event);
    match slots(fields.form) {
        [_name, words @ ..] => push_form(out, words, &fields.values[1..]),
        [] => unreachable!(),
    }
}

/// How many sessions a demo had, and how many messages their links accepted.
#[tactic(auto, unfolding(crate::specs::Notices::notice_line))]
fn push_demo(out: &mut Vec<u8>, sessions: u32, to_host: u64, to_remote: u64) -> Result<(), NoMemory>
    ensures whole { OnOk result (out.new.items ≡ out.old.items ++ notice_line (Notice.Demo sessions to_host to_remote)) }
    ensures same { OnErr result (out.new.items ≡ out.old.items) }
{
    let sessions = Piece::Short(&sessions);
    push_line(
        out,
        &[
            Piece::Fixed("demo"),
            sessions,
            Piece::Fixed("sessions"),
            sessions,
            Piece::Fixed("to-host"),
            Piece::Number(&to_host),
            Piece::Fixed("to-remote"),
            Piece::Number(&to_remote),
        ],
    )
}

/// The word of a cause.
fn cause_text(why: Cause) -> &'static str
    ensures { result.now ≡ cause_text why }
{
    match why {
        Cause::Size => "size",
        Cause::Lines => "lines",
        Cause::Byte => "byte",
        Cause::Block => "block",
        Cause::Command => "command",
        Cause::Words => "words",
        Cause::Value => "value",
    }
}
