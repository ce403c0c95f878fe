ghost use Rattle.std.specs.Prelude.{◌≡◌, ◌+◌, ◌*◌, ◌≤◌, length};
ghost use Rattle.std.specs.Result.{result_err};
ghost use Rattle.elf_image.specs.Layout.{layout_for};
ghost use Rattle.elf_image.specs.Segments.{loaded_from, segments_fault};

use crate::faults::ElfFault;
use crate::headers::{FileHeader, NumberedHeader};
use crate::layouts::Class;
use std::marker::Model;

/// The program headers of loaded segments, in table order. Contracts see the list of those left.
#[derive(Drop)]
pub(crate) struct LoadedHeaders<'a> {
    bytes: &'a [u8],
    class: Class,
    header: FileHeader,
    next: u16,
    start: usize,
}

impl<'a> Model for LoadedHeaders<'a> {
    ghost use Rattle.std.specs.Prelude.{List, ◌+◌, ◌*◌, ◌≤◌, length};
    ghost use Rattle.elf_image.specs.declared.headers.NumberedHeader.{NumberedHeader};

    ghost Value = { List NumberedHeader };

    ghost use Rattle.elf_image.specs.Layout.{layout_for};
    ghost use Rattle.elf_image.specs.Segments.{loaded_from};
    ghost use Rattle.elf_image.specs.Tables.{IsInTable};

    ghost view = { λ l. loaded_from (layout_for l.class) l.header l.bytes.now l.next };

    ghost invariant = { λ l. IsInTable l.bytes.now (layout_for l.class) l.header l.next l.start };
}

impl<'a> LoadedHeaders<'a> {
    /// All of an image whose program headers lie in its bytes.
    pub(crate) fn of(bytes: &'a [u8], class: Class, header: FileHeader) -> LoadedHeaders<'a>
        requires { header.program_table + (layout_for class).program_header_size * header.program_count ≤ length bytes.now }
        ensures { result ≡ loaded_from (layout_for class) header bytes.now 0 }
    {
        LoadedHeaders {
            bytes,
            class,
            header,
            next: 0,
            start: header.program_table as usize,
        }
    }
}

impl Iterator for LoadedHeaders<'_> {
    type Item = NumberedHeader;

    ghost use Rattle.std.specs.Iterator.{YieldsFirst, item_count};

    ghost next_gives = { YieldsFirst (λ l. l) };

    ghost remaining = { item_count (λ l. l) };

    fn next(&mut self) -> Option<NumberedHeader> {
        while self.next < self.header.program_count {
            let numbered = NumberedHeader::read(self.bytes, self.class, self.start, self.next);
            self.next += 1;
            self.start += self.class.layout().program_header_size;
            if numbered.is_loaded() {
                return Some(numbered);
            }
        }
        None
    }
}

/// Tests the loaded segments of an image, one after the other.
pub(crate) fn test_segments(bytes: &[u8], class: Class, header: FileHeader) -> Result<(), ElfFault>
    requires { header.program_table + (layout_for class).program_header_size * header.program_count ≤ length bytes.now }
    ensures { result_err result ≡ segments_fault (length bytes.now) (loaded_from (layout_for class) header bytes.now 0) }
{
    for numbered in LoadedHeaders::of(bytes, class, header) {
        numbered.test(bytes.len())?;
    }
    Ok(())
}
