ghost use Rattle.std.specs.Prelude.{◌≡◌, ◌+◌, ◌++◌, ◌≤◌, ◌<◌, ◌^◌, [], ◌∷◌, length, OnOk, IfOk};
ghost use Rattle.chart_picture.specs.Measures.{height_of, width_of};
ghost use Rattle.chart_picture.specs.Drawings.{clipped, label_style, label_x, row_shapes, rows_shapes, shapes_of, stand_shapes};

use crate::heads::push_lifelines;
use crate::marks::push_mark;
use crate::measures::{FIRST, LABEL_MOST, RIGHT, ROW, STEP, TOP, x_of, y_of};
use chart::{Chart, LIFELINES_MOST, LINES_MOST, Mark, Place, Row, Side, Stand};
use rp_base::{Data, NoMemory};
use std::alloc::Global;
use svg_text::{Picture, Shape, Style, number_text};

/// The picture of a chart.
///
/// # Errors
///
/// [`NoMemory`] where memory ran out.
pub fn draw(alloc: Global, chart: &Chart) -> Result<Picture, NoMemory>
    requires few { length chart.now.rows.items ≤ LINES_MOST }
    requires narrow { length chart.now.lifelines.items ≤ LIFELINES_MOST }
    ensures width { IfOk result (λ picture. picture.width ≡ width_of (length chart.now.lifelines.items)) }
    ensures height { IfOk result (λ picture. picture.height ≡ height_of (length chart.now.rows.items)) }
    ensures shapes { IfOk result (λ picture. picture.shapes.items ≡ shapes_of chart.now.lifelines.items chart.now.rows.items chart.now.places.items) }
{
    let width = FIRST + STEP * (chart.lifelines.len() as u64) + RIGHT;
    let height = TOP + ROW * (chart.rows.len() as u64);
    let mut shapes = Vec::new(alloc);
    push_lifelines(alloc, &mut shapes, height, &chart.lifelines)?;
    push_rows(alloc, &mut shapes, &chart.rows, &chart.places)?;
    Ok(Picture {
        width,
        height,
        shapes,
    })
}

/// Appends rows from above.
fn push_rows(
    alloc: Global,
    shapes: &mut Vec<Shape>,
    rows: &[Row],
    places: &[Place],
) -> Result<(), NoMemory>
    requires { length rows.now ≤ LINES_MOST }
    ensures { OnOk result (shapes.new.items ≡ shapes.old.items ++ rows_shapes 0 rows.now places.now) }
{
    let mut rows = rows;
    let mut places = places;
    let mut index = 0u32;
    while let [row, more_rows @ ..] = rows {
        let [place, more_places @ ..] = places else {
            break;
        };
        push_row(alloc, shapes, index, row, *place)?;
        index += 1;
        rows = more_rows;
        places = more_places;
    }
    Ok(())
}

/// Appends a row: its number, what it shows on its lifeline, and its label.
fn push_row(
    alloc: Global,
    shapes: &mut Vec<Shape>,
    index: u32,
    row: &Row,
    place: Place,
) -> Result<(), NoMemory>
    ensures { OnOk result (shapes.new.items ≡ shapes.old.items ++ row_shapes index row.now place) }
{
    let y = y_of(index);
    let count = number_text(alloc, "", u64::from(index) + 1)?;
    shapes.push(Shape::Text {
        style: Style::Count,
        x: 40,
        y: y + 4,
        text: count,
    })?;
    push_stand(alloc, shapes, &row.stand, place, y, row.label.bytes())
}

/// Appends what a row shows on its lifeline, and its label.
fn push_stand(
    alloc: Global,
    shapes: &mut Vec<Shape>,
    stand: &Stand,
    place: Place,
    y: u64,
    label: &[u8],
) -> Result<(), NoMemory>
    requires top { 84 ≤ y }
    requires bottom { y < 2 ^ 42 }
    ensures { OnOk result (shapes.new.items ≡ shapes.old.items ++ stand_shapes stand.now place y label.now) }
{
    match stand {
        Stand::Aside => push_label(alloc, shapes, Style::Aside, 52, y, label),
        Stand::At(lifeline, mark) => {
            let side = lifeline.side;
            push_mark(alloc, shapes, side, mark, place, y)?;
            let x = label_x(mark, side, x_of(place.column));
            push_label(alloc, shapes, label_style(mark, side), x, y, label)
        }
    }
}

/// How a label is drawn.
fn label_style(mark: &Mark, side: Side) -> Style
    ensures { result ≡ label_style mark.now side }
{
    match (mark, side) {
        (Mark::Opening | Mark::Closing, _) => Style::BarText,
        (Mark::Crash, _) => Style::CrashText,
        (Mark::Note | Mark::Arrow(_, _), Side::Host) => Style::LeftLabel,
        (Mark::Note | Mark::Arrow(_, _), Side::Own | Side::Remote) => Style::RightLabel,
    }
}

/// Where a label is: in the bar, or beside the lifeline.
fn label_x(mark: &Mark, side: Side, x: u64) -> u64
    requires left { 330 ≤ x }
    requires right { x < 2 ^ 42 }
    ensures { result ≡ label_x mark.now side x }
{
    match (mark, side) {
        (Mark::Opening | Mark::Closing | Mark::Crash, _) => x,
        (Mark::Note | Mark::Arrow(_, _), Side::Host) => x - 12,
        (Mark::Note | Mark::Arrow(_, _), Side::Own | Side::Remote) => x + 12,
    }
}

/// Appends a label, or its prefix where it is long.
fn push_label(
    alloc: Global,
    shapes: &mut Vec<Shape>,
    style: Style,
    x: u64,
    y: u64,
    label: &[u8],
) -> Result<(), NoMemory>
    requires { y < 2 ^ 42 }
    ensures { OnOk result (shapes.new.items ≡ shapes.old.items ++ Shape.Text style x (y + 4) (clipped label.now) ∷ []) }
{
    let text = clipped(alloc, label)?;
    shapes.push(Shape::Text {
        style,
        x,
        y: y + 4,
        text,
    })?;
    Ok(())
}

/// A label, or its prefix with three dots where it is long.
fn clipped(alloc: Global, label: &[u8]) -> Result<Data, NoMemory>
    ensures { IfOk result (λ text. text ≡ clipped label.now) }
{
    if label.len() <= LABEL_MOST {
        return Data::copy_of(alloc, label);
    }
    let mut text = Vec::new(alloc);
    text.extend_from_slice(label.split_at(LABEL_MOST).0)?;
    text.extend_from_slice(b"...")?;
    Ok(Data::of(text))
}
