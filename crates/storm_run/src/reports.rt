//! What a storm reports.
ghost use Rattle.std.specs.Prelude.{◌≡◌, ◌++◌, ◌+◌, ◌≤◌, IfOk, OnOk, slice_index};
ghost use Rattle.rp_base.specs.declared.limits.TheConstants.{CALLERS_MOST};
ghost use Rattle.storm_run.specs.Counts.{AreStormBooks};
ghost use Rattle.storm_run.specs.Storms.{IsPlan, caller_line, caller_lines, lane_line, storm_text};

use crate::counts::counts_in;
use crate::plans::Plan;
use lane_model::Books;
use rp_base::{CALLERS_MOST, CallerNo, End, NoMemory};
use std::alloc::Global;
use word_kinds::{Piece, push_line};

/// The report of a storm by its books: a line for each lane, and one for each caller, with the number of its entries. Nothing
/// is held after a storm, so as many buffers are back as messages were handed over.
pub(crate) fn report(alloc: Global, plan: &Plan, books: &Books) -> Result<Vec<u8>, NoMemory>
    requires plan { IsPlan plan.now }
    requires books { AreStormBooks plan.now books.now }
    ensures { IfOk result (λ text. text.items ≡ storm_text plan.now) }
{
    let to_host = books.to_host_handed;
    let to_remote = books.to_remote_handed;
    let mut text = Vec::new(alloc);
    push_lane(&mut text, 0, books.to_host.len(), to_host, to_host)?;
    push_lane(&mut text, 1, books.to_remote.len(), to_remote, to_remote)?;
    push_callers(
        &mut text,
        0,
        plan.hosts,
        End::Host,
        &counts_in(&books.to_remote),
    )?;
    push_callers(
        &mut text,
        plan.hosts,
        plan.remotes,
        End::Remote,
        &counts_in(&books.to_host),
    )?;
    Ok(text)
}

/// Appends the line of a lane.
fn push_lane(
    text: &mut Vec<u8>,
    lane: u64,
    accepted: u64,
    handed: u64,
    returned: u64,
) -> Result<(), NoMemory>
    ensures { OnOk result (text.new.items ≡ text.old.items ++ lane_line lane accepted handed returned) }
{
    push_line(
        text,
        &[
            Piece::Fixed("lane"),
            Piece::Lane(&lane),
            Piece::Fixed("accepted"),
            Piece::Number(&accepted),
            Piece::Fixed("handed"),
            Piece::Number(&handed),
            Piece::Fixed("returned"),
            Piece::Number(&returned),
        ],
    )
}

/// Appends the lines of so many callers of an end, from this number on, by how many messages each sent.
fn push_callers(
    text: &mut Vec<u8>,
    first: CallerNo,
    callers: u8,
    end: End,
    sent: &[u32; CALLERS_MOST],
) -> Result<(), NoMemory>
    requires { first + callers ≤ CALLERS_MOST }
    ensures { OnOk result (text.new.items ≡ text.old.items ++ caller_lines first callers end (slice_index sent.now)) }
{
    for place in 0..callers {
        let number = first + place;
        push_caller(text, number, end, sent[usize::from(number)])?;
    }
    Ok(())
}

/// Appends the line of a caller.
fn push_caller(text: &mut Vec<u8>, number: CallerNo, end: End, sent: u32) -> Result<(), NoMemory>
    ensures { OnOk result (text.new.items ≡ text.old.items ++ caller_line number end sent) }
{
    push_line(
        text,
        &[
            Piece::Fixed("caller"),
            Piece::Number(&u64::from(number)),
            Piece::Side(&end),
            Piece::Fixed("sent"),
            Piece::Short(&sent),
        ],
    )
}
