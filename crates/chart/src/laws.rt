//! Laws of charts. Each is the contract of an empty function, and speaks of definitions alone.

ghost use Rattle.std.specs.Prelude.{◌≡◌, List};
ghost use Rattle.std.specs.List.{filter_map};
ghost use Rattle.journal.specs.declared.events.Event.{Event};
ghost use Rattle.chart.specs.declared.keys.ArrowEnd.{ArrowEnd};
ghost use Rattle.chart.specs.declared.rows.Row.{Row};
ghost use Rattle.chart.specs.Charts.{first_of};
ghost use Rattle.chart.specs.Laws.{IsFirst, end_drawn, end_told};
ghost use Rattle.chart.specs.Rows.{rows_of};

/// The ends of arrows that the rows of a run show are those that its events say, in order: each sent
/// and each took line has one, with its name, its caller and its number.
pub fn ends_in_order()
    ensures { (events : List Event) → filter_map end_drawn (rows_of events) ≡ filter_map end_told events }
{}

/// What an end is joined with is the first row that is the other end, and none only where no row is.
pub fn first_ends()
    ensures { (rows : List Row) (end : ArrowEnd) → IsFirst rows end (first_of end 0 rows) }
{}
