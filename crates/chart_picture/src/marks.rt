ghost use Rattle.std.specs.Prelude.{◌≡◌, ◌++◌, ◌≤◌, ◌<◌, ◌^◌, [], ◌∷◌, OnOk};
ghost use Rattle.chart_picture.specs.Marks.{bar, cross_shapes, dot, inward, mark_shapes, sent_shapes, took_shapes};

use crate::measures::{x_of, y_of};
use chart::{Mark, Partner, Place, Side};
use rp_base::NoMemory;
use std::alloc::Global;
use svg_text::{Shape, Style, number_text};

/// Appends what a row shows on its lifeline.
pub(crate) fn push_mark(
    alloc: Global,
    shapes: &mut Vec<Shape>,
    side: Side,
    mark: &Mark,
    place: Place,
    y: u64,
) -> Result<(), NoMemory>
    requires top { 84 ≤ y }
    requires bottom { y < 2 ^ 42 }
    ensures { OnOk result (shapes.new.items ≡ shapes.old.items ++ mark_shapes side mark.now place y) }
{
    let x = x_of(place.column);
    match mark {
        Mark::Note => push_dot(shapes, x, y),
        Mark::Opening => push_bar(shapes, Style::Opening, x, y),
        Mark::Closing => push_bar(shapes, Style::Closing, x, y),
        Mark::Crash => push_bar(shapes, Style::Crash, x, y),
        Mark::Arrow(end, _) if end.is_sent => push_sent(shapes, side, place.partner, x, y),
        Mark::Arrow(end, is_dropped) => {
            let number = end.message.number;
            push_took(
                alloc,
                shapes,
                side,
                place.partner,
                number,
                *is_dropped,
                x,
                y,
            )?;
            push_cross(shapes, *is_dropped, x, y)
        }
    }
}

/// Appends the dot of a row.
fn push_dot(shapes: &mut Vec<Shape>, x: u64, y: u64) -> Result<(), NoMemory>
    requires left { 330 ≤ x }
    requires top { 84 ≤ y }
    ensures { OnOk result (shapes.new.items ≡ shapes.old.items ++ dot x y ∷ []) }
{
    shapes.push(Shape::Box {
        style: Style::Dot,
        x: x - 3,
        y: y - 3,
        width: 6,
        height: 6,
    })?;
    Ok(())
}

/// Appends the bar of an opening, a close or a crash.
fn push_bar(shapes: &mut Vec<Shape>, style: Style, x: u64, y: u64) -> Result<(), NoMemory>
    requires left { 330 ≤ x }
    requires top { 84 ≤ y }
    ensures { OnOk result (shapes.new.items ≡ shapes.old.items ++ bar style x y ∷ []) }
{
    shapes.push(Shape::Box {
        style,
        x: x - 86,
        y: y - 9,
        width: 172,
        height: 18,
    })?;
    Ok(())
}

/// A point on the way from a lifeline to that of its link or core.
fn inward(side: Side, x: u64) -> u64
    requires left { 330 ≤ x }
    requires right { x < 2 ^ 42 }
    ensures { result ≡ inward side x }
{
    match side {
        Side::Host => x + 60,
        Side::Own | Side::Remote => x - 60,
    }
}

/// Appends where a message was sent: a dot, and a line that ends soon where nobody took it.
fn push_sent(
    shapes: &mut Vec<Shape>,
    side: Side,
    partner: Option<Partner>,
    x: u64,
    y: u64,
) -> Result<(), NoMemory>
    requires left { 330 ≤ x }
    requires right { x < 2 ^ 42 }
    requires top { 84 ≤ y }
    ensures { OnOk result (shapes.new.items ≡ shapes.old.items ++ sent_shapes side partner x y) }
{
    if partner.is_none() {
        shapes.push(Shape::Line {
            style: Style::Loose,
            x1: x,
            y1: y,
            x2: inward(side, x),
            y2: y,
        })?;
    }
    push_dot(shapes, x, y)
}

/// Appends where a message was taken: the arrow from its send with its number, or a line that begins
/// on the way where its send isn't known.
fn push_took(
    alloc: Global,
    shapes: &mut Vec<Shape>,
    side: Side,
    partner: Option<Partner>,
    number: u64,
    is_dropped: bool,
    x: u64,
    y: u64,
) -> Result<(), NoMemory>
    requires left { 330 ≤ x }
    requires right { x < 2 ^ 42 }
    requires bottom { y < 2 ^ 42 }
    ensures { OnOk result (shapes.new.items ≡ shapes.old.items ++ took_shapes side partner number is_dropped x y) }
{
    let Some(from) = partner else {
        shapes.push(Shape::Line {
            style: Style::Loose,
            x1: inward(side, x),
            y1: y,
            x2: x,
            y2: y,
        })?;
        return Ok(());
    };
    let (x1, y1) = (x_of(from.column), y_of(from.row));
    let text = number_text(alloc, "", number)?;
    shapes.push(Shape::Line {
        style: if is_dropped {
            Style::Dropped
        } else {
            Style::Arrow
        },
        x1,
        y1,
        x2: x,
        y2: y,
    })?;
    shapes.push(Shape::Text {
        style: Style::Number,
        x: (x1 + x) / 2,
        y: (y1 + y) / 2 + 4,
        text,
    })?;
    Ok(())
}

/// Appends the cross of a message that was dropped.
fn push_cross(shapes: &mut Vec<Shape>, is_dropped: bool, x: u64, y: u64) -> Result<(), NoMemory>
    requires left { 330 ≤ x }
    requires right { x < 2 ^ 42 }
    requires top { 84 ≤ y }
    requires bottom { y < 2 ^ 42 }
    ensures { OnOk result (shapes.new.items ≡ shapes.old.items ++ cross_shapes is_dropped x y) }
{
    if is_dropped {
        push_stroke(shapes, x - 7, y - 7, x + 7, y + 7)?;
        push_stroke(shapes, x - 7, y + 7, x + 7, y - 7)?;
    }
    Ok(())
}

/// Appends a stroke of a cross.
fn push_stroke(shapes: &mut Vec<Shape>, x1: u64, y1: u64, x2: u64, y2: u64) -> Result<(), NoMemory>
    ensures { OnOk result (shapes.new.items ≡ shapes.old.items ++ Shape.Line Style.Cross x1 y1 x2 y2 ∷ []) }
{
    shapes.push(Shape::Line {
        style: Style::Cross,
        x1,
        y1,
        x2,
        y2,
    })?;
    Ok(())
}
