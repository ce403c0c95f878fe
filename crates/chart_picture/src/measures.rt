ghost use Rattle.std.specs.Prelude.{◌≡◌, ◌≤◌, ◌<◌, ◌^◌};
ghost use Rattle.chart_picture.specs.Measures.{x_of, y_of};

/// Where the first lifeline is, from the left.
pub(crate) const FIRST: u64 = 380;
/// From a lifeline to the next.
pub(crate) const STEP: u64 = 190;
/// What is right of the last lifeline.
pub(crate) const RIGHT: u64 = 140;
/// Where the first row is, from the top.
pub(crate) const TOP: u64 = 84;
/// From a row to the next.
pub(crate) const ROW: u64 = 24;
/// How many bytes of a label are drawn.
pub(crate) const LABEL_MOST: usize = 40;

/// Where a lifeline is.
pub(crate) fn x_of(column: u32) -> u64
    ensures value { result ≡ x_of column }
    ensures left { 330 ≤ result }
    ensures right { result < 2 ^ 42 }
{
    FIRST + STEP * u64::from(column)
}

/// Where a row is.
pub(crate) fn y_of(row: u32) -> u64
    ensures value { result ≡ y_of row }
    ensures top { 84 ≤ result }
    ensures bottom { result < 2 ^ 42 }
{
    TOP + ROW * u64::from(row)
}
