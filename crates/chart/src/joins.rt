ghost use Rattle.std.specs.Prelude.{◌≡◌, ◌≤◌, List, length, IfOk};
ghost use Rattle.indexmap.specs.IndexMap.{get};
ghost use Rattle.chart.specs.Keys.{is_same_arrow_end};
ghost use Rattle.chart.specs.Charts.{arrow_in, column_in, column_of, first_of, partner_of, place_at, places_of};
ghost use Rattle.chart.specs.declared.keys.ArrowEnd.{ArrowEnd};
ghost use Rattle.chart.specs.declared.rows.Row.{Row};

use crate::keys::{ArrowEnd, Lifeline};
use crate::limits::{LIFELINES_MOST, LINES_MOST};
use crate::rows::{Mark, Row, Stand};
use indexmap::{IndexMap, IndexSet};
use rp_base::NoMemory;
use std::alloc::Global;

/// Where a row is drawn.
#[derive(Clone, Copy)]
pub struct Place {
    /// The place of its lifeline among the lifelines, and 0 where it is on none.
    pub column: u32,
    /// The other end of its arrow, where it is one end and the other is known.
    pub partner: Option<Partner>,
}

/// The other end of an arrow.
#[derive(Clone, Copy)]
pub struct Partner {
    /// The place of its row among the rows.
    pub row: u32,
    /// The place of its lifeline among the lifelines.
    pub column: u32,
}

/// An end of an arrow with its lifeline.
#[derive(Clone, Copy)]
pub(crate) struct Arrow {
    pub(crate) lifeline: Lifeline,
    pub(crate) end: ArrowEnd,
}

/// A row by its place, with its lifeline.
#[derive(Clone, Copy)]
pub(crate) struct Told {
    pub(crate) row: u32,
    pub(crate) lifeline: Lifeline,
}

/// The place of each row.
pub(crate) fn places_of(
    alloc: Global,
    lifelines: &IndexSet<Lifeline>,
    rows: &[Row],
) -> Result<Vec<Place>, NoMemory>
    requires few { length rows.now ≤ LINES_MOST }
    requires narrow { length lifelines.now.keys ≤ LIFELINES_MOST }
    ensures { IfOk result (λ places. places.items ≡ places_of lifelines.now.keys rows.now) }
{
    let told = ends_of(alloc, rows)?;
    let mut places = Vec::new(alloc);
    for row in rows {
        places.push(place_of(lifelines, &told, &row.stand))?;
    }
    Ok(places)
}

/// The first row of each end of an arrow.
fn ends_of(alloc: Global, rows: &[Row]) -> Result<IndexMap<ArrowEnd, Told>, NoMemory>
    requires { length rows.now ≤ LINES_MOST }
    ensures { IfOk result (λ told. (end : ArrowEnd) → get is_same_arrow_end told end ≡ first_of end 0 rows.now) }
{
    let mut told = IndexMap::new(alloc);
    let mut index = rows.len();
    while index > 0 {
        index -= 1;
        if let Some(arrow) = arrow_in(&rows[index].stand) {
            let here = Told {
                row: index as u32,
                lifeline: arrow.lifeline,
            };
            told.insert(arrow.end, here)?;
        }
    }
    Ok(told)
}

/// The place of a row.
fn place_of(lifelines: &IndexSet<Lifeline>, told: &IndexMap<ArrowEnd, Told>, stand: &Stand) -> Place
    requires { length lifelines.now.keys ≤ LIFELINES_MOST }
    ensures { (rows : List Row) → ((end : ArrowEnd) → get is_same_arrow_end told.now end ≡ first_of end 0 rows)
        → result ≡ place_at lifelines.now.keys rows stand.now }
{
    let partner = match arrow_in(stand) {
        Some(arrow) => partner_of(lifelines, told, arrow.end),
        None => None,
    };
    Place {
        column: column_in(lifelines, stand),
        partner,
    }
}

/// The end of an arrow that a row is.
fn arrow_in(stand: &Stand) -> Option<Arrow>
    ensures { result ≡ arrow_in stand.now }
{
    match stand {
        Stand::At(lifeline, Mark::Arrow(end, _)) => Some(Arrow {
            lifeline: *lifeline,
            end: *end,
        }),
        Stand::At(_, Mark::Note | Mark::Opening | Mark::Closing | Mark::Crash) | Stand::Aside =>
            None,
    }
}

/// The column of the lifeline on which a row is.
fn column_in(lifelines: &IndexSet<Lifeline>, stand: &Stand) -> u32
    requires { length lifelines.now.keys ≤ LIFELINES_MOST }
    ensures { result ≡ column_in lifelines.now.keys stand.now }
{
    match stand {
        Stand::Aside => 0,
        Stand::At(lifeline, _) => column_of(lifelines, *lifeline),
    }
}

/// The other end of an arrow.
fn partner_of(
    lifelines: &IndexSet<Lifeline>,
    told: &IndexMap<ArrowEnd, Told>,
    end: ArrowEnd,
) -> Option<Partner>
    requires { length lifelines.now.keys ≤ LIFELINES_MOST }
    ensures { (rows : List Row) → ((end : ArrowEnd) → get is_same_arrow_end told.now end ≡ first_of end 0 rows)
        → result ≡ partner_of lifelines.now.keys rows end }
{
    let other = ArrowEnd {
        message: end.message,
        is_sent: !end.is_sent,
    };
    let found = told.get(&other)?;
    Some(Partner {
        row: found.row,
        column: column_of(lifelines, found.lifeline),
    })
}

/// The place of a lifeline among the lifelines.
fn column_of(lifelines: &IndexSet<Lifeline>, lifeline: Lifeline) -> u32
    requires { length lifelines.now.keys ≤ LIFELINES_MOST }
    ensures { result ≡ column_of lifelines.now.keys lifeline }
{
    match lifelines.get_index_of(&lifeline) {
        Some(column) => column as u32,
        None => 0,
    }
}
