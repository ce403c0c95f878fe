ghost use Rattle.std.specs.Prelude.{◌≡◌, ◌+◌, ◌≤◌, length};
ghost use Rattle.elf_image.specs.Layout.{class_of, field, layout_for, HasFields, IsAddress};

use rp_base::{u16_at, u32_at, u64_at};

/// The class of an image, `EI_CLASS`: whether its addresses, offsets and sizes have 32 bits or 64.
#[derive(Clone, Copy)]
pub(crate) enum Class {
    /// `ELFCLASS32`.
    Elf32,
    /// `ELFCLASS64`.
    Elf64,
}

/// A field of a header: its place from the header's start and its width, both in bytes.
#[derive(Clone, Copy)]
pub(crate) struct Field {
    pub(crate) at: usize,
    pub(crate) width: usize,
}

/// Where the headers of a class of images and their fields are: the sizes of the three headers, and
/// the fields that are read, by their names in the System V ABI.
#[derive(Clone, Copy)]
pub(crate) struct Layout {
    pub(crate) header_size: usize,
    pub(crate) program_header_size: usize,
    pub(crate) section_header_size: usize,
    pub(crate) e_entry: Field,
    pub(crate) e_phoff: Field,
    pub(crate) e_shoff: Field,
    pub(crate) e_phentsize: Field,
    pub(crate) e_phnum: Field,
    pub(crate) e_shentsize: Field,
    pub(crate) e_shnum: Field,
    pub(crate) e_shstrndx: Field,
    pub(crate) p_type: Field,
    pub(crate) p_offset: Field,
    pub(crate) p_paddr: Field,
    pub(crate) p_filesz: Field,
    pub(crate) p_memsz: Field,
    pub(crate) sh_name: Field,
    pub(crate) sh_addr: Field,
    pub(crate) sh_offset: Field,
    pub(crate) sh_size: Field,
}

/// The layout of `ELFCLASS32`: `Elf32_Ehdr`, `Elf32_Phdr` and `Elf32_Shdr`.
const ELF32: Layout = Layout {
    header_size: 52,
    program_header_size: 32,
    section_header_size: 40,
    e_entry: Field { at: 24, width: 4 },
    e_phoff: Field { at: 28, width: 4 },
    e_shoff: Field { at: 32, width: 4 },
    e_phentsize: Field { at: 42, width: 2 },
    e_phnum: Field { at: 44, width: 2 },
    e_shentsize: Field { at: 46, width: 2 },
    e_shnum: Field { at: 48, width: 2 },
    e_shstrndx: Field { at: 50, width: 2 },
    p_type: Field { at: 0, width: 4 },
    p_offset: Field { at: 4, width: 4 },
    p_paddr: Field { at: 12, width: 4 },
    p_filesz: Field { at: 16, width: 4 },
    p_memsz: Field { at: 20, width: 4 },
    sh_name: Field { at: 0, width: 4 },
    sh_addr: Field { at: 12, width: 4 },
    sh_offset: Field { at: 16, width: 4 },
    sh_size: Field { at: 20, width: 4 },
};

/// The layout of `ELFCLASS64`: `Elf64_Ehdr`, `Elf64_Phdr` and `Elf64_Shdr`.
const ELF64: Layout = Layout {
    header_size: 64,
    program_header_size: 56,
    section_header_size: 64,
    e_entry: Field { at: 24, width: 8 },
    e_phoff: Field { at: 32, width: 8 },
    e_shoff: Field { at: 40, width: 8 },
    e_phentsize: Field { at: 54, width: 2 },
    e_phnum: Field { at: 56, width: 2 },
    e_shentsize: Field { at: 58, width: 2 },
    e_shnum: Field { at: 60, width: 2 },
    e_shstrndx: Field { at: 62, width: 2 },
    p_type: Field { at: 0, width: 4 },
    p_offset: Field { at: 8, width: 8 },
    p_paddr: Field { at: 24, width: 8 },
    p_filesz: Field { at: 32, width: 8 },
    p_memsz: Field { at: 40, width: 8 },
    sh_name: Field { at: 0, width: 4 },
    sh_addr: Field { at: 16, width: 8 },
    sh_offset: Field { at: 24, width: 8 },
    sh_size: Field { at: 32, width: 8 },
};

impl Class {
    /// The class that a byte names, if it names one.
    pub(crate) fn of(byte: u8) -> Option<Class>
        ensures { result ≡ class_of byte }
    {
        match byte {
            1 => Some(Class::Elf32),
            2 => Some(Class::Elf64),
            _ => None,
        }
    }

    /// The layout of the headers.
    #[inline(always)]
    pub(crate) fn layout(self) -> Layout
        ensures layout { result ≡ layout_for self }
        ensures fields { HasFields result }
    {
        match self {
            Class::Elf32 => ELF32,
            Class::Elf64 => ELF64,
        }
    }
}

impl Field {
    /// The number in a field of two bytes, of the header that begins at a place.
    pub(crate) fn half(self, bytes: &[u8], start: usize) -> u16
        requires width { self.width ≡ 2 }
        requires inside { start + self.at + 2 ≤ length bytes.now }
        ensures { result ≡ field self start bytes.now }
    {
        u16_at(bytes, start + self.at)
    }

    /// The number in a field of four bytes.
    pub(crate) fn word(self, bytes: &[u8], start: usize) -> u32
        requires width { self.width ≡ 4 }
        requires inside { start + self.at + 4 ≤ length bytes.now }
        ensures { result ≡ field self start bytes.now }
    {
        u32_at(bytes, start + self.at)
    }

    /// The address, offset or size in a field of four bytes or of eight.
    pub(crate) fn address(self, bytes: &[u8], start: usize) -> u64
        requires width { IsAddress self }
        requires inside { start + self.at + self.width ≤ length bytes.now }
        ensures { result ≡ field self start bytes.now }
    {
        if self.width == 4 {
            u64::from(u32_at(bytes, start + self.at))
        } else {
            u64_at(bytes, start + self.at)
        }
    }
}
