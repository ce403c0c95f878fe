ghost use Rattle.std.specs.Prelude.{◌≡◌, ◌≤◌, length, Err, IfOk};
ghost use Rattle.chart.specs.Rows.{rows_of};
ghost use Rattle.chart.specs.Orders.{IsTooWide, lifelines_of};
ghost use Rattle.chart.specs.Charts.{places_of};

use crate::joins::{Place, places_of};
use crate::keys::Lifeline;
use crate::limits::{LIFELINES_MOST, LINES_MOST};
use crate::orders::{from_left, seats_of};
use crate::rows::{Row, rows_of};
use journal::Event;
use rp_base::NoMemory;
use std::alloc::{AllocError, Global};

/// A chart of a run.
#[derive(Drop)]
pub struct Chart {
    /// The lifelines, from left to right.
    pub lifelines: Vec<Lifeline>,
    /// A row for each line of the transcript, in order.
    pub rows: Vec<Row>,
    /// The place of each row.
    pub places: Vec<Place>,
}

/// Why there is no chart.
#[derive(Clone, Copy, Debug, PartialEq, Eq)]
pub enum ChartFault {
    /// It would have more than [`LIFELINES_MOST`] lifelines.
    TooWide,
    /// Memory ran out.
    NoMemory,
}

impl From<NoMemory> for ChartFault {
    ghost use Rattle.chart.specs.declared.charts.ChartFault.TheVariants as fault;

    ghost from_gives = { λ _ e. e ≡ fault.NoMemory };

    fn from(_error: NoMemory) -> ChartFault {
        ChartFault::NoMemory
    }
}

impl From<AllocError> for ChartFault {
    ghost use Rattle.chart.specs.declared.charts.ChartFault.TheVariants as fault;

    ghost from_gives = { λ _ e. e ≡ fault.NoMemory };

    fn from(_error: AllocError) -> ChartFault {
        ChartFault::NoMemory
    }
}

/// The chart of the events of a run: a row for each, and each end of an arrow joined with the first
/// other end of the same message.
///
/// # Errors
///
/// [`ChartFault::TooWide`] where it would have more than [`LIFELINES_MOST`] lifelines,
/// [`ChartFault::NoMemory`] where memory ran out.
pub fn chart_of(alloc: Global, events: &[Event]) -> Result<Chart, ChartFault>
    requires { length events.now ≤ LINES_MOST }
    ensures rows { IfOk result (λ chart. chart.rows.items ≡ rows_of events.now) }
    ensures lifelines { IfOk result (λ chart. chart.lifelines.items ≡ lifelines_of (rows_of events.now)) }
    ensures places { IfOk result (λ chart. chart.places.items ≡ places_of (lifelines_of (rows_of events.now)) (rows_of events.now)) }
    ensures narrow { IfOk result (λ chart. length chart.lifelines.items ≤ LIFELINES_MOST) }
    ensures wide { result ≡ Err ChartFault.TooWide → IsTooWide (rows_of events.now) }
{
    let rows = rows_of(alloc, events)?;
    let seats = seats_of(alloc, &rows)?;
    if seats.len() > LIFELINES_MOST {
        return Err(ChartFault::TooWide);
    }
    let lifelines = from_left(alloc, &seats)?;
    if lifelines.len() > LIFELINES_MOST {
        return Err(ChartFault::TooWide);
    }
    let places = places_of(alloc, &lifelines, &rows)?;
    Ok(Chart {
        lifelines: Vec::from_slice(alloc, lifelines.as_slice())?,
        rows,
        places,
    })
}
