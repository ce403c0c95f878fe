use crate::advice::{advice, meaning, trouble_text};
use crate::objects::{Object, object_of, range_of};
use board_file::{Board, Trouble};
use elf_image::Image;
use fw_load::LoadFault;
use memory_pool::Region;
use rp_base::Da;
use std::alloc::{AllocError, Global};

/// The last address of a range, which is not empty and ends within the addresses.
fn last_of(da: Da, len: u32) -> u64 {
    (u64::from(da) + u64::from(len)).saturating_sub(1)
}

/// Where a range of device addresses lies.
fn place_text(alloc: Global, regions: &[Region], da: Da, len: u32) -> Result<String, AllocError> {
    for region in regions {
        if region.holds(da, len) {
            let kind = if region.is_pool() { "pool" } else { "tcm" };
            let left = last_of(region.da, region.len).saturating_sub(last_of(da, len));
            let last = last_of(region.da, region.len);
            let start = region.da;
            return Ok(format!(in alloc; "{kind} 0x{start:08x}-0x{last:08x}, 0x{left:x} left")?);
        }
    }
    Ok(format!(in alloc; "no region of its own")?)
}

/// The lines of the segments and of the entry of an image.
pub(crate) fn push_layout(
    alloc: Global,
    text: &mut String,
    path: &str,
    bytes: &[u8],
    board: &Board,
) -> Result<(), AllocError> {
    let Ok(image) = Image::read(bytes) else {
        return Ok(());
    };
    for segment in image.segments() {
        let place = place_text(alloc, board.regions(), segment.da, segment.memory_len)?;
        let index = segment.index;
        let da = segment.da;
        let last = last_of(segment.da, segment.memory_len);
        let len = segment.memory_len;
        let line = format!(in alloc;
            "{path}: segment {index} 0x{da:08x}-0x{last:08x} 0x{len:x} bytes, {place}\n"
        )?;
        text.push_str(line.as_str())?;
    }
    let entry = image.entry();
    let place = place_text(alloc, board.regions(), entry, 16)?;
    let line = format!(in alloc; "{path}: entry 0x{entry:08x}, {place}\n")?;
    text.push_str(line.as_str())?;
    Ok(())
}

/// What a fault is about, in words.
fn object_text(alloc: Global, bytes: &[u8], object: Object) -> Result<String, AllocError> {
    let name = match object {
        Object::Whole => format!(in alloc; "")?,
        Object::Segment(index) => format!(in alloc; ", segment {index}")?,
        Object::Entry(index) => format!(in alloc; ", table entry {index}")?,
        Object::Start => format!(in alloc; ", entry")?,
    };
    match range_of(bytes, object) {
        Some(range) => {
            let da = range.da;
            let len = range.len;
            Ok(format!(in alloc; "{name} at 0x{da:08x}, 0x{len:x} bytes")?)
        }
        None => Ok(name),
    }
}

/// The lines of a fault.
pub(crate) fn push_fault(
    alloc: Global,
    text: &mut String,
    path: &str,
    bytes: &[u8],
    fault: &LoadFault,
) -> Result<(), AllocError> {
    let object = object_text(alloc, bytes, object_of(fault))?;
    let means = meaning(fault);
    let todo = advice(fault);
    let line = format!(in alloc; "{path}: error: {fault}{object}: {means}\n{path}: do: {todo}\n")?;
    text.push_str(line.as_str())?;
    Ok(())
}

/// The word of a text in a line, from 1, and in a place, from 0.
fn word_in(text: &[u8], line: u32, place: u8) -> &[u8] {
    let mut number = 1u32;
    for one in text.split(|byte| *byte == b'\n') {
        if number == line {
            let mut at = 0u8;
            for word in one.split(|byte| *byte == b' ') {
                if !word.is_empty() {
                    if at == place {
                        return word;
                    }
                    at = at.saturating_add(1);
                }
            }
        }
        number = number.saturating_add(1);
    }
    &[]
}

/// The line of a refusal of a board file.
pub(crate) fn refusal_text(
    alloc: Global,
    path: &str,
    text: &[u8],
    line: u32,
    trouble: Trouble,
) -> Result<String, AllocError> {
    let why = trouble_text(trouble.why);
    match std::str::from_utf8(word_in(text, line, trouble.word)) {
        Ok(word) if !word.is_empty() => Ok(format!(in alloc; "{path}:{line}: {word}: {why}\n")?),
        _ => Ok(format!(in alloc; "{path}:{line}: {why}\n")?),
    }
}
