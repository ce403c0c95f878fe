use elf_image::Image;
use fw_load::LoadFault;
use resource_table::{Entry, Table};
use rp_base::Da;

/// A range of device addresses that a finding is about.
#[derive(Clone, Copy)]
pub(crate) struct Range {
    pub(crate) da: Da,
    pub(crate) len: u32,
}

/// What a fault is about.
#[derive(Clone, Copy)]
pub(crate) enum Object {
    /// The whole image, or its table.
    Whole,
    /// The segment of this number of a program header.
    Segment(u16),
    /// The entry of this number of the resource table.
    Entry(u16),
    /// The first instruction.
    Start,
}

/// What a fault is about.
pub(crate) fn object_of(fault: &LoadFault) -> Object {
    match (fault, fault.index()) {
        (LoadFault::EntryUnmapped, _) => Object::Start,
        (LoadFault::Elf(_) | LoadFault::SegmentUnmapped(_), Some(index)) => Object::Segment(index),
        (LoadFault::Table(_) | LoadFault::Place(_), Some(index)) => Object::Entry(index),
        _ => Object::Whole,
    }
}

/// Which addresses an object has, where it has some.
pub(crate) fn range_of(bytes: &[u8], object: Object) -> Option<Range> {
    let Ok(image) = Image::read(bytes) else {
        return None;
    };
    match object {
        Object::Segment(index) => segment_range(&image, index),
        Object::Start => Some(Range {
            da: image.entry(),
            len: 16,
        }),
        Object::Entry(index) => entry_range(bytes, &image, index),
        Object::Whole => None,
    }
}

fn segment_range(image: &Image<'_>, index: u16) -> Option<Range> {
    for segment in image.segments() {
        if segment.index == index {
            return Some(Range {
                da: segment.da,
                len: segment.memory_len,
            });
        }
    }
    None
}

fn entry_range(bytes: &[u8], image: &Image<'_>, index: u16) -> Option<Range> {
    let section = image.section(".resource_table")?;
    let end = section.offset.checked_add(section.size)?;
    if end > bytes.len() as u64 {
        return None;
    }
    let Ok(table) = Table::read(&bytes[section.offset as usize..end as usize]) else {
        return None;
    };
    if index >= table.len() {
        return None;
    }
    match table.entry(index) {
        Entry::Carveout(da, _, len, _) | Entry::Devmem(da, _, len, _) => Some(Range { da, len }),
        Entry::Trace(da, len, _) => Some(Range { da, len }),
        Entry::Device(_) | Entry::Skipped(_) => None,
    }
}
