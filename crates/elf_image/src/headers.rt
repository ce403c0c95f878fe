ghost use Rattle.std.specs.Prelude.{◌≡◌, ◌+◌, ◌*◌, ◌≤◌, ◌<◌, Some, IfOk, length, nat_lt};
ghost use Rattle.std.specs.Result.{result_err};
ghost use Rattle.elf_image.specs.Layout.{layout_for, layout_of};
ghost use Rattle.elf_image.specs.Headers.{file_header, program_header, section_header};
ghost use Rattle.elf_image.specs.Images.{identification_fault, header_fault};
ghost use Rattle.elf_image.specs.Segments.{is_loaded, is_wide, segment_fault};
ghost use Rattle.elf_image.specs.Sections.{has_sections, section_header_at};

use crate::faults::ElfFault;
use crate::layouts::Class;
use rp_base::Da;

/// The bytes of the smaller ELF header.
const FILE_HEADER_LEN: usize = 52;

/// The bytes that an image begins with.
const MAGIC: [u8; 4] = [0x7f, 0x45, 0x4c, 0x46];

/// The data encoding of an image whose fields are little-endian.
const ELFDATA2LSB: u8 = 1;

/// A count or index that says that the real one is kept elsewhere (`PN_XNUM`, `SHN_XINDEX`).
const EXTENDED: u16 = 0xffff;

/// The type of a program header whose segment is loaded.
const PT_LOAD: u32 = 1;

/// The last device address.
const LAST: u64 = Da::MAX as u64;

/// What is read of an ELF header (System V ABI, "ELF Header").
#[derive(Clone, Copy)]
pub(crate) struct FileHeader {
    /// `e_entry`, the address of the first instruction.
    pub(crate) entry: u64,
    /// `e_phoff`, where the program headers begin in the image.
    pub(crate) program_table: u64,
    /// `e_shoff`, where the section headers begin in the image; 0 where there are none.
    pub(crate) section_table: u64,
    /// `e_phentsize`, the bytes of a program header.
    pub(crate) program_header_size: u16,
    /// `e_phnum`, the number of program headers.
    pub(crate) program_count: u16,
    /// `e_shentsize`, the bytes of a section header.
    pub(crate) section_header_size: u16,
    /// `e_shnum`, the number of section headers.
    pub(crate) section_count: u16,
    /// `e_shstrndx`, the number of the section that has the names.
    pub(crate) names_index: u16,
}

/// What is read of a program header (System V ABI, "Program Header").
#[derive(Clone, Copy)]
pub(crate) struct ProgramHeader {
    /// `p_type`, what the header describes.
    pub(crate) kind: u32,
    /// `p_offset`, where the file bytes begin in the image.
    pub(crate) offset: u64,
    /// `p_paddr`, the device address of the memory.
    pub(crate) physical_address: u64,
    /// `p_filesz`, the number of file bytes.
    pub(crate) file_len: u64,
    /// `p_memsz`, the bytes of memory.
    pub(crate) memory_len: u64,
}

/// A program header and its number among all program headers of its image.
#[derive(Clone, Copy)]
pub(crate) struct NumberedHeader {
    pub(crate) index: u16,
    pub(crate) header: ProgramHeader,
}

/// What is read of a section header (System V ABI, "Sections").
#[derive(Clone, Copy)]
pub(crate) struct SectionHeader {
    /// `sh_name`, where the name begins in the section of names.
    pub(crate) name: u32,
    /// `sh_addr`, where the section is to be in memory.
    pub(crate) address: u64,
    /// `sh_offset`, where the bytes begin in the image.
    pub(crate) offset: u64,
    /// `sh_size`, the number of bytes.
    pub(crate) size: u64,
}

/// The class of an image whose first bytes say what it is.
pub(crate) fn identify(bytes: &[u8]) -> Result<Class, ElfFault>
    ensures fault { result_err result ≡ identification_fault bytes.now }
    ensures layout { IfOk result (λ class. layout_of bytes.now ≡ Some (layout_for class)) }
    ensures whole { IfOk result (λ class. (layout_for class).header_size ≤ length bytes.now) }
{
    if bytes.len() < FILE_HEADER_LEN {
        return Err(ElfFault::Short);
    }
    if &bytes[..4] != MAGIC.as_slice() {
        return Err(ElfFault::Magic);
    }
    let class = Class::of(bytes[4]).ok_or(ElfFault::Class)?;
    if bytes[5] != ELFDATA2LSB {
        return Err(ElfFault::Order);
    }
    if bytes.len() < class.layout().header_size {
        return Err(ElfFault::Short);
    }
    Ok(class)
}

/// Whether a range of an image of `total` bytes ends past it.
pub(crate) fn ends_past(start: u64, len: u64, total: usize) -> bool
    ensures { result ≡ nat_lt total (start + len) }
{
    match start.checked_add(len) {
        Some(end) => end > total as u64,
        None => true,
    }
}

impl FileHeader {
    /// Reads the header at the start of an image.
    #[tactic(auto, unfolding(crate::specs::Headers::file_header))]
    pub(crate) fn read(bytes: &[u8], class: Class) -> FileHeader
        requires { (layout_for class).header_size ≤ length bytes.now }
        ensures { result ≡ file_header (layout_for class) bytes.now }
    {
        let layout = class.layout();
        FileHeader {
            entry: layout.e_entry.address(bytes, 0),
            program_table: layout.e_phoff.address(bytes, 0),
            section_table: layout.e_shoff.address(bytes, 0),
            program_header_size: layout.e_phentsize.half(bytes, 0),
            program_count: layout.e_phnum.half(bytes, 0),
            section_header_size: layout.e_shentsize.half(bytes, 0),
            section_count: layout.e_shnum.half(bytes, 0),
            names_index: layout.e_shstrndx.half(bytes, 0),
        }
    }

    /// Whether the image has sections.
    pub(crate) fn has_sections(&self) -> bool
        ensures { result ≡ has_sections self.now }
    {
        self.section_table != 0
    }

    /// Tests the header of an image of `len` bytes.
    pub(crate) fn test(&self, class: Class, len: usize) -> Result<(), ElfFault>
        ensures { result_err result ≡ header_fault (layout_for class) self.now len }
    {
        let layout = class.layout();
        let has_sections = self.has_sections();
        if self.program_count == EXTENDED
            || self.names_index == EXTENDED
            || (has_sections && self.section_count == 0)
        {
            return Err(ElfFault::Numbering);
        }
        if self.program_count == 0 {
            return Err(ElfFault::NoSegments);
        }
        if usize::from(self.program_header_size) != layout.program_header_size
            || (has_sections
                && usize::from(self.section_header_size) != layout.section_header_size)
        {
            return Err(ElfFault::EntrySize);
        }
        let table_len = layout.program_header_size as u64 * u64::from(self.program_count);
        if ends_past(self.program_table, table_len, len) {
            return Err(ElfFault::HeadersPastEnd);
        }
        if self.entry > LAST {
            return Err(ElfFault::WideEntry);
        }
        Ok(())
    }

    /// Reads the section header of this number.
    #[tactic(auto, unfolding(crate::specs::Headers::section_header))]
    pub(crate) fn section_header(&self, bytes: &[u8], class: Class, index: u16) -> SectionHeader
        requires among { index < self.now.section_count }
        requires table { self.now.section_table + (layout_for class).section_header_size * self.now.section_count ≤ length bytes.now }
        ensures { result ≡ section_header_at (layout_for class) self.now bytes.now index }
    {
        let layout = class.layout();
        let start = self.section_table as usize + layout.section_header_size * usize::from(index);
        SectionHeader {
            name: layout.sh_name.word(bytes, start),
            address: layout.sh_addr.address(bytes, start),
            offset: layout.sh_offset.address(bytes, start),
            size: layout.sh_size.address(bytes, start),
        }
    }
}

impl NumberedHeader {
    /// Reads the program header that begins at a place of the image, and has this number.
    #[tactic(auto, unfolding(crate::specs::Headers::program_header))]
    pub(crate) fn read(bytes: &[u8], class: Class, start: usize, index: u16) -> NumberedHeader
        requires { start + (layout_for class).program_header_size ≤ length bytes.now }
        ensures index { result.index ≡ index }
        ensures header { result.header ≡ program_header (layout_for class) start bytes.now }
    {
        let layout = class.layout();
        let header = ProgramHeader {
            kind: layout.p_type.word(bytes, start),
            offset: layout.p_offset.address(bytes, start),
            physical_address: layout.p_paddr.address(bytes, start),
            file_len: layout.p_filesz.address(bytes, start),
            memory_len: layout.p_memsz.address(bytes, start),
        };
        NumberedHeader { index, header }
    }

    /// Whether the segment is loaded: a `PT_LOAD` with memory.
    pub(crate) fn is_loaded(&self) -> bool
        ensures { result ≡ is_loaded self.now }
    {
        self.header.kind == PT_LOAD && self.header.memory_len != 0
    }

    /// Whether the address or the length of the memory has more than 32 bits.
    fn is_wide(&self) -> bool
        ensures { result ≡ is_wide self.now }
    {
        self.header.physical_address > LAST || self.header.memory_len > LAST
    }

    /// Tests a loaded segment of an image of `len` bytes.
    pub(crate) fn test(&self, len: usize) -> Result<(), ElfFault>
        ensures { result_err result ≡ segment_fault len self.now }
    {
        if self.is_wide() {
            return Err(ElfFault::WideAddress(self.index));
        }
        if self.header.file_len > self.header.memory_len {
            return Err(ElfFault::FileOverMemory(self.index));
        }
        if ends_past(self.header.offset, self.header.file_len, len) {
            return Err(ElfFault::SegmentPastEnd(self.index));
        }
        Ok(())
    }
}
