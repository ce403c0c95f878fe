ghost use Rattle.std.specs.Prelude.{◌≡◌, ◌++◌, OnOk, IfOk};
ghost use Rattle.std.specs.Fmt.{decimal};
ghost use Rattle.std.specs.List.{flat_map};
ghost use Rattle.svg_text.specs.Printing.{attribute, tag, class_text, shape_text, svg_of};

use crate::escapes::push_escaped;
use crate::pictures::{Picture, Shape, Style};
use rp_base::{Data, NoMemory};
use std::alloc::Global;

/// What an SVG begins with, up to its size.
pub(crate) const OPENING: &str =
    "<?xml version=\"1.0\" encoding=\"UTF-8\"?>\n<svg xmlns=\"http://www.w3.org/2000/svg\"";

/// What comes after the size: the style sheet, the heads of arrows and the page.
pub(crate) const STYLES: &str = ">
<style>
text { font: 12px 'DejaVu Sans Mono', monospace; fill: black; paint-order: stroke; stroke: white; stroke-width: 3px; stroke-linejoin: round }
line, rect { stroke: black; stroke-width: 1px; fill: white }
.page, .dot { stroke: none }
.dot { fill: black }
.lifeline { stroke: #777; stroke-dasharray: 5 4 }
.own-head { stroke-width: 2px; fill: #e4e4e4 }
.name { font-weight: bold }
.name, .role, .number, .bar-text, .crash-text { text-anchor: middle }
.name, .role, .bar-text { stroke: none }
.count { fill: #666 }
.count, .left { text-anchor: end }
.aside { font-style: italic }
.arrow, .dropped, .loose { stroke-width: 1.6px }
.arrow { marker-end: url(#head) }
.loose { stroke-dasharray: 2 3; marker-end: url(#head) }
.cross { stroke-width: 2.4px }
.number { font-weight: bold }
.opening { stroke-width: 2px }
.closing { fill: #ccc }
.crash { fill: black }
.crash-text { fill: white; stroke: none; font-weight: bold }
</style>
<defs><marker id=\"head\" viewBox=\"0 0 10 10\" refX=\"10\" refY=\"5\" markerWidth=\"10\" markerHeight=\"10\" markerUnits=\"userSpaceOnUse\" orient=\"auto\"><path d=\"M 0 1 L 10 5 L 0 9 z\"/></marker></defs>
<rect class=\"page\" width=\"100%\" height=\"100%\"/>
";

/// What an SVG ends with.
pub(crate) const CLOSING: &str = "</svg>\n";

/// The text of the SVG of a picture.
///
/// # Errors
///
/// [`NoMemory`] where memory ran out.
#[tactic(auto, unfolding(crate::specs::Printing::svg_of))]
pub fn svg(alloc: Global, picture: &Picture) -> Result<Vec<u8>, NoMemory>
    ensures { IfOk result (λ text. text.items ≡ svg_of picture.now.width picture.now.height picture.now.shapes.items) }
{
    let mut out = Vec::new(alloc);
    out.extend_from_slice(OPENING.as_bytes())?;
    push_attributes(
        &mut out,
        &[("width", picture.width), ("height", picture.height)],
    )?;
    out.extend_from_slice(STYLES.as_bytes())?;
    push_shapes(&mut out, &picture.shapes)?;
    out.extend_from_slice(CLOSING.as_bytes())?;
    Ok(out)
}

/// Appends the elements of shapes.
fn push_shapes(out: &mut Vec<u8>, shapes: &[Shape]) -> Result<(), NoMemory>
    ensures { OnOk result (out.new.items ≡ out.old.items ++ flat_map shape_text shapes.now) }
{
    for shape in shapes {
        push_shape(out, shape)?;
    }
    Ok(())
}

/// Appends the element of a shape.
#[tactic(auto, unfolding(crate::specs::Printing::shape_text))]
fn push_shape(out: &mut Vec<u8>, shape: &Shape) -> Result<(), NoMemory>
    ensures { OnOk result (out.new.items ≡ out.old.items ++ shape_text shape.now) }
{
    match shape {
        Shape::Line {
            style,
            x1,
            y1,
            x2,
            y2,
        } => {
            let places = [("x1", *x1), ("y1", *y1), ("x2", *x2), ("y2", *y2)];
            push_tag(out, "line", *style, &places)?;
            out.extend_from_slice(b"/>\n")?;
        }
        Shape::Box {
            style,
            x,
            y,
            width,
            height,
        } => {
            let places = [("x", *x), ("y", *y), ("width", *width), ("height", *height)];
            push_tag(out, "rect", *style, &places)?;
            out.extend_from_slice(b"/>\n")?;
        }
        Shape::Text { style, x, y, text } => {
            push_tag(out, "text", *style, &[("x", *x), ("y", *y)])?;
            out.push(b'>')?;
            push_escaped(out, text.bytes())?;
            out.extend_from_slice(b"</text>\n")?;
        }
    }
    Ok(())
}

/// Appends the tag of an element, without its end.
#[tactic(auto, unfolding(crate::specs::Printing::tag))]
fn push_tag(
    out: &mut Vec<u8>,
    name: &str,
    style: Style,
    places: &[(&str, u64)],
) -> Result<(), NoMemory>
    ensures { OnOk result (out.new.items ≡ out.old.items ++ tag name.now style (flat_map (λ place. attribute place.0.now place.1) places.now)) }
{
    out.push(b'<')?;
    out.extend_from_slice(name.as_bytes())?;
    out.extend_from_slice(b" class=\"")?;
    out.extend_from_slice(class_text(style).as_bytes())?;
    out.push(b'"')?;
    push_attributes(out, places)
}

/// Appends attributes, each after a space.
fn push_attributes(out: &mut Vec<u8>, places: &[(&str, u64)]) -> Result<(), NoMemory>
    ensures { OnOk result (out.new.items ≡ out.old.items ++ flat_map (λ place. attribute place.0.now place.1) places.now) }
{
    for (name, value) in places {
        push_attribute(out, name, *value)?;
    }
    Ok(())
}

/// Appends an attribute after a space.
#[tactic(auto, unfolding(crate::specs::Printing::attribute))]
fn push_attribute(out: &mut Vec<u8>, name: &str, value: u64) -> Result<(), NoMemory>
    ensures { OnOk result (out.new.items ≡ out.old.items ++ attribute name.now value) }
{
    out.push(b' ')?;
    out.extend_from_slice(name.as_bytes())?;
    out.extend_from_slice(b"=\"")?;
    push_number(out, value)?;
    out.push(b'"')?;
    Ok(())
}

/// Appends a number in decimal.
fn push_number(out: &mut Vec<u8>, number: u64) -> Result<(), NoMemory>
    ensures { OnOk result (out.new.items ≡ out.old.items ++ decimal number) }
{
    let mut buffer = itoa::Buffer::new();
    out.extend_from_slice(buffer.format(number).as_bytes())?;
    Ok(())
}

/// A number in decimal after some words.
///
/// # Errors
///
/// [`NoMemory`] where memory ran out.
pub fn number_text(alloc: Global, words: &str, number: u64) -> Result<Data, NoMemory>
    ensures { IfOk result (λ text. text ≡ words.now ++ decimal number) }
{
    let mut out = Vec::new(alloc);
    out.extend_from_slice(words.as_bytes())?;
    push_number(&mut out, number)?;
    Ok(Data::of(out))
}

/// The class of a style.
fn class_text(style: Style) -> &'static str
    ensures { result.now ≡ class_text style }
{
    match style {
        Style::Lifeline => "lifeline",
        Style::CallerHead => "head",
        Style::OwnHead => "own-head",
        Style::Name => "name",
        Style::Role => "role",
        Style::Count => "count",
        Style::Aside => "aside",
        Style::LeftLabel => "left",
        Style::RightLabel => "right",
        Style::Dot => "dot",
        Style::Arrow => "arrow",
        Style::Dropped => "dropped",
        Style::Loose => "loose",
        Style::Cross => "cross",
        Style::Number => "number",
        Style::Opening => "opening",
        Style::Closing => "closing",
        Style::Crash => "crash",
        Style::BarText => "bar-text",
        Style::CrashText => "crash-text",
    }
}
