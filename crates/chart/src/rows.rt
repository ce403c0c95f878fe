ghost use Rattle.std.specs.Prelude.{◌≡◌, ◌==◌, List, ◌∷◌, position, IfOk, OnOk};
ghost use Rattle.std.specs.List.{cons_option};
ghost use Rattle.journal.specs.Lines.{line};
ghost use Rattle.chart.specs.declared.marks.Said.{Said};
ghost use Rattle.chart.specs.Marks.{said_by};
ghost use Rattle.chart.specs.Rows.{IsWalk, arrow_end, behind_space, label_of, shown_of, lane_of, side_of, end_of, incarnation, lifeline_of, mark_of, row_at, rows_of};

use crate::keys::{ArrowEnd, Caller, Lifeline, Message, Side};
use crate::marks::{Deed, Said, Teller, said_by};
use indexmap::IndexMap;
use journal::{Event, line};
use rp_base::{Data, End, Name, NoMemory};
use std::alloc::Global;

/// How a row is drawn on its lifeline.
#[derive(Clone, Copy)]
pub enum Mark {
    /// As its text.
    Note,
    /// As the bar of an opening.
    Opening,
    /// As the bar of a close.
    Closing,
    /// As the bar of a crash.
    Crash,
    /// As an end of an arrow, and whether the message was dropped there.
    Arrow(ArrowEnd, bool),
}

/// Where a row is.
#[derive(Clone, Copy)]
pub enum Stand {
    /// Beside all lifelines.
    Aside,
    /// On a lifeline.
    At(Lifeline, Mark),
}

/// A row of a chart: where it is, and what its line says after the name and the caller.
#[derive(Drop)]
pub struct Row {
    pub stand: Stand,
    pub label: Data,
}

/// What the lines so far say of callers and incarnations.
#[derive(Drop)]
struct Walk {
    /// The end of each caller that was made.
    ends: IndexMap<Caller, End>,
    /// The incarnation of each link and core.
    lives: IndexMap<Name, u64>,
}

impl Walk {
    /// What a line says is kept.
    fn note(&mut self, said: &Said) -> Result<(), NoMemory>
        ensures { (past : List Said) → IsWalk past self.old → OnOk result (IsWalk (said.now ∷ past) self.new) }
    {
        let name = said.teller.name;
        match said.deed {
            Deed::Opens(inc) => {
                self.lives.insert(name, inc)?;
            }
            Deed::Joins(number, end) => {
                self.ends.insert(Caller { name, number }, end)?;
            }
            _ => {}
        }
        Ok(())
    }

    /// The row of an event, whose line is kept.
    fn row(&mut self, alloc: Global, event: &Event) -> Result<Row, NoMemory>
        ensures row { (past : List Said) → IsWalk past self.old → IfOk result (λ row. row ≡ row_at (cons_option (said_by event.now) past) event.now) }
        ensures kept { (past : List Said) → IsWalk past self.old → OnOk result (IsWalk (cons_option (said_by event.now) past) self.new) }
    {
        let Some(said) = said_by(event) else {
            return Ok(Row {
                stand: Stand::Aside,
                label: label(alloc, event, None)?,
            });
        };
        self.note(&said)?;
        Ok(Row {
            stand: Stand::At(self.lifeline(&said), self.mark(&said)),
            label: label(alloc, event, Some(said.teller))?,
        })
    }

    /// The lifeline on which a line is.
    fn lifeline(&self, said: &Said) -> Lifeline
        ensures { (past : List Said) → IsWalk past self.now → result ≡ lifeline_of said.now past }
    {
        let name = said.teller.name;
        match (said.deed, said.teller.caller) {
            (Deed::Joins(caller, end), _) => Lifeline {
                name,
                side: side_of(end),
                caller,
            },
            (_, Some(caller)) => Lifeline {
                name,
                side: side_of(self.end_of(name, caller)),
                caller,
            },
            (_, None) => Lifeline {
                name,
                side: Side::Own,
                caller: 0,
            },
        }
    }

    /// How a line is drawn.
    fn mark(&self, said: &Said) -> Mark
        ensures { (past : List Said) → IsWalk past self.now → result ≡ mark_of said.now past }
    {
        match said.deed {
            Deed::Opens(_) => Mark::Opening,
            Deed::Closes => Mark::Closing,
            Deed::Crashes => Mark::Crash,
            Deed::Sent(number) => Mark::Arrow(self.arrow_end(said, number, true), false),
            Deed::Took(number, is_dropped) => {
                Mark::Arrow(self.arrow_end(said, number, false), is_dropped)
            }
            Deed::Joins(_, _) | Deed::Other => Mark::Note,
        }
    }

    /// The end of the arrow of a message.
    fn arrow_end(&self, said: &Said, number: u64, is_sent: bool) -> ArrowEnd
        ensures { (past : List Said) → IsWalk past self.now → result ≡ arrow_end said.now number is_sent past }
    {
        let name = said.teller.name;
        let end = self.end_of(name, said.teller.caller.unwrap_or(0));
        let message = Message {
            name,
            incarnation: self.incarnation(name),
            lane: lane_of(end, is_sent),
            number,
        };
        ArrowEnd { message, is_sent }
    }

    /// The end of a caller.
    fn end_of(&self, name: Name, number: u64) -> End
        ensures { (past : List Said) → IsWalk past self.now → result ≡ end_of name number past }
    {
        match self.ends.get(&Caller { name, number }) {
            Some(end) => *end,
            None if number == 0 => End::Host,
            None => End::Remote,
        }
    }

    /// The incarnation of a link or a core, 0 before any.
    fn incarnation(&self, name: Name) -> u64
        ensures { (past : List Said) → IsWalk past self.now → result ≡ incarnation name past }
    {
        self.lives.get(&name).copied().unwrap_or(0)
    }
}

/// A row for each event, in order.
///
/// # Errors
///
/// [`NoMemory`] where memory ran out.
pub(crate) fn rows_of(alloc: Global, events: &[Event]) -> Result<Vec<Row>, NoMemory>
    ensures { IfOk result (λ rows. rows.items ≡ rows_of events.now) }
{
    let mut walk = Walk {
        ends: IndexMap::new(alloc),
        lives: IndexMap::new(alloc),
    };
    let mut rows = Vec::new(alloc);
    for event in events {
        rows.push(walk.row(alloc, event)?)?;
    }
    Ok(rows)
}

/// The lane on which a caller of an end sends or takes.
fn lane_of(end: End, is_sent: bool) -> u64
    ensures { result ≡ lane_of end is_sent }
{
    match (end, is_sent) {
        (End::Host, true) | (End::Remote, false) => 1,
        (End::Host, false) | (End::Remote, true) => 0,
    }
}

/// The side on which the callers of an end are.
fn side_of(end: End) -> Side
    ensures { result ≡ side_of end }
{
    match end {
        End::Host => Side::Host,
        End::Remote => Side::Remote,
    }
}

/// What the line of an event says after its link or core and its caller.
fn label(alloc: Global, event: &Event, teller: Option<Teller>) -> Result<Data, NoMemory>
    ensures { IfOk result (λ label. label ≡ label_of teller (line event.now)) }
{
    let mut text = Vec::new(alloc);
    line(alloc, event, &mut text)?;
    let _end = text.pop();
    Data::copy_of(alloc, shown_of(text.as_slice(), teller))
}

/// What a text says after its link or core and its caller, where it is about these.
fn shown_of(text: &[u8], teller: Option<Teller>) -> &[u8]
    ensures { result.now ≡ shown_of teller text.now }
{
    match teller {
        None => text,
        Some(Teller { caller: None, .. }) => behind_space(text),
        Some(_) => behind_space(behind_space(text)),
    }
}

/// What comes after the first space.
fn behind_space(text: &[u8]) -> &[u8]
    ensures { result.now ≡ behind_space text.now }
{
    match first_space(text) {
        Some(place) => text.split_at(place + 1).1,
        None => &[],
    }
}

/// The place of the first space.
fn first_space(text: &[u8]) -> Option<usize>
    ensures { result ≡ position (λ byte. byte == 32) text.now }
{
    text.iter().position(|byte| *byte == b' ')
}
