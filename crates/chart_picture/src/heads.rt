ghost use Rattle.std.specs.Prelude.{◌≡◌, ◌++◌, ◌≤◌, [], ◌∷◌, length, OnOk, IfOk};
ghost use Rattle.chart_picture.specs.Heads.{head_of, role_of, lifeline_shapes, lifelines_shapes};

use crate::measures::x_of;
use chart::{LIFELINES_MOST, Lifeline, Side};
use rp_base::{Data, NoMemory};
use std::alloc::Global;
use svg_text::{Shape, Style, number_text};

/// Appends lifelines from left to right.
pub(crate) fn push_lifelines(
    alloc: Global,
    shapes: &mut Vec<Shape>,
    height: u64,
    lifelines: &[Lifeline],
) -> Result<(), NoMemory>
    requires { length lifelines.now ≤ LIFELINES_MOST }
    ensures { OnOk result (shapes.new.items ≡ shapes.old.items ++ lifelines_shapes height 0 lifelines.now) }
{
    let mut rest = lifelines;
    let mut column = 0u32;
    while let [lifeline, more @ ..] = rest {
        push_lifeline(alloc, shapes, height, column, lifeline)?;
        column += 1;
        rest = more;
    }
    Ok(())
}

/// Appends a lifeline with its head.
fn push_lifeline(
    alloc: Global,
    shapes: &mut Vec<Shape>,
    height: u64,
    column: u32,
    lifeline: &Lifeline,
) -> Result<(), NoMemory>
    ensures { OnOk result (shapes.new.items ≡ shapes.old.items ++ lifeline_shapes height column lifeline.now) }
{
    let x = x_of(column);
    let name = Data::copy_of(alloc, lifeline.name.bytes())?;
    let role = role_of(alloc, lifeline)?;
    shapes.push(Shape::Line {
        style: Style::Lifeline,
        x1: x,
        y1: 54,
        x2: x,
        y2: height,
    })?;
    shapes.push(Shape::Box {
        style: head_of(lifeline.side),
        x: x - 60,
        y: 14,
        width: 120,
        height: 40,
    })?;
    push_text(shapes, Style::Name, x, 31, name)?;
    push_text(shapes, Style::Role, x, 47, role)
}

/// Appends a text.
fn push_text(
    shapes: &mut Vec<Shape>,
    style: Style,
    x: u64,
    y: u64,
    text: Data,
) -> Result<(), NoMemory>
    ensures { OnOk result (shapes.new.items ≡ shapes.old.items ++ Shape.Text style x y text ∷ []) }
{
    shapes.push(Shape::Text { style, x, y, text })?;
    Ok(())
}

/// How the head of a lifeline is drawn.
fn head_of(side: Side) -> Style
    ensures { result ≡ head_of side }
{
    match side {
        Side::Own => Style::OwnHead,
        Side::Host | Side::Remote => Style::CallerHead,
    }
}

/// What a head says below the name.
fn role_of(alloc: Global, lifeline: &Lifeline) -> Result<Data, NoMemory>
    ensures { IfOk result (λ role. role ≡ role_of lifeline.now.side lifeline.now.caller) }
{
    match lifeline.side {
        Side::Host => number_text(alloc, "host caller ", lifeline.caller),
        Side::Own => Data::copy_of(alloc, b"link or core"),
        Side::Remote => number_text(alloc, "remote caller ", lifeline.caller),
    }
}
