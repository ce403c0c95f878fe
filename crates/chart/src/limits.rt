/// The most lines of a transcript that is drawn.
pub const LINES_MOST: usize = 100_000;

/// The most lifelines of a chart. A run has at most 8 links and cores, each with 64 callers, and
/// each of these on either end.
pub const LIFELINES_MOST: usize = 1_032;
