ghost use Rattle.std.specs.Prelude.{◌≤◌, length};

use crate::headers::FileHeader;
use crate::layouts::Class;
use crate::loaded::LoadedHeaders;
use rp_base::Da;
use std::marker::Model;

/// A loaded segment: a program header of type `PT_LOAD` with memory.
#[derive(Clone, Copy)]
pub struct Segment<'a> {
    /// The number of its program header among all of the image, from 0.
    pub index: u16,
    /// Where its memory begins, `p_paddr`.
    pub da: Da,
    /// How many bytes of memory it has, `p_memsz`.
    pub memory_len: u32,
    /// The bytes that are copied to the start of its memory, of which the rest is zeros.
    pub file: &'a [u8],
    pub ghost file_fits: { length file.now ≤ memory_len },
}

/// The loaded segments of an image, in table order. Contracts see it as the list of those left.
#[derive(Drop)]
pub struct Segments<'a> {
    bytes: &'a [u8],
    loaded: LoadedHeaders<'a>,
}

impl<'a> Model for Segments<'a> {
    ghost use Rattle.std.specs.Prelude.{◌≡◌, List, None, map, length};
    ghost use Rattle.elf_image.specs.Segments.{SegmentAt, segment_at, segments_fault};

    ghost Value = { List SegmentAt };

    ghost view = { λ s. map (segment_at s.bytes.now) s.loaded };

    ghost invariant = { λ s. segments_fault (length s.bytes.now) s.loaded ≡ None };
}

impl<'a> Segments<'a> {
    ghost use Rattle.std.specs.Prelude.{◌≡◌, ◌+◌, ◌*◌, ◌≤◌, None, map, length};
    ghost use Rattle.elf_image.specs.Layout.{layout_for};
    ghost use Rattle.elf_image.specs.Segments.{loaded_from, segment_at, segments_fault};

    /// All of an image whose segments pass their tests.
    pub(crate) fn of(bytes: &'a [u8], class: Class, header: FileHeader) -> Segments<'a>
        requires table { header.program_table + (layout_for class).program_header_size * header.program_count ≤ length bytes.now }
        requires good { segments_fault (length bytes.now) (loaded_from (layout_for class) header bytes.now 0) ≡ None }
        ensures { result ≡ map (segment_at bytes.now) (loaded_from (layout_for class) header bytes.now 0) }
    {
        Segments {
            bytes,
            loaded: LoadedHeaders::of(bytes, class, header),
        }
    }
}

impl<'a> Iterator for Segments<'a> {
    type Item = Segment<'a>;

    ghost use Rattle.std.specs.Iterator.{YieldsFirstBy, item_count};
    ghost use Rattle.elf_image.specs.SegmentsRead.{segment_read};

    ghost next_gives = { YieldsFirstBy segment_read (λ segments. segments) };

    ghost remaining = { item_count (λ segments. segments) };

    fn next(&mut self) -> Option<Segment<'a>> {
        let numbered = self.loaded.next()?;
        let start = numbered.header.offset as usize;
        Some(Segment {
            index: numbered.index,
            da: numbered.header.physical_address as Da,
            memory_len: numbered.header.memory_len as u32,
            file: &self.bytes[start..start + numbered.header.file_len as usize],
        })
    }
}
