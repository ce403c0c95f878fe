ghost use Rattle.std.specs.Prelude.{◌≡◌};
ghost use Rattle.elf_image.specs.Faults.{fault_number, fault_index};

use thiserror::Error;

/// What is wrong with an image. The faults have the numbers 1 to 14, and each is written as the word
/// `fault`, a space and its number.
#[derive(Clone, Copy, Debug, PartialEq, Eq, Error)]
#[error("fault {}", self.number())]
pub enum ElfFault {
    /// There are fewer bytes than an ELF header of the image's class has.
    Short,
    /// The first four bytes are not `7f 45 4c 46`.
    Magic,
    /// The class, byte 4, is neither ELFCLASS32 nor ELFCLASS64.
    Class,
    /// The data encoding, byte 5, is not ELFDATA2LSB.
    Order,
    /// `e_phentsize` is not the size of a program header of the class, 32 or 56, or there are sections
    /// and `e_shentsize` is not that of a section header, 40 or 64.
    EntrySize,
    /// There is no program header.
    NoSegments,
    /// The program headers end past the image.
    HeadersPastEnd,
    /// The file bytes of the loaded segment with this program header end past the image.
    SegmentPastEnd(u16),
    /// The loaded segment with this program header has more file bytes than memory.
    FileOverMemory(u16),
    /// The section headers end past the image.
    SectionsPastEnd,
    /// The section of names is not among the sections, or ends past the image.
    NamesMissing,
    /// A count or index is kept elsewhere in the extended numbering: `e_phnum` or `e_shstrndx` is
    /// 65,535, or there are sections and `e_shnum` is 0.
    Numbering,
    /// The address or the length in memory of the loaded segment with this program header has more
    /// than 32 bits.
    WideAddress(u16),
    /// The entry has more than 32 bits.
    WideEntry,
}

impl ElfFault {
    /// The number of the fault, from 1 to 14.
    pub fn number(self) -> u8
        ensures { result ≡ fault_number self }
    {
        match self {
            ElfFault::Short => 1,
            ElfFault::Magic => 2,
            ElfFault::Class => 3,
            ElfFault::Order => 4,
            ElfFault::EntrySize => 5,
            ElfFault::NoSegments => 6,
            ElfFault::HeadersPastEnd => 7,
            ElfFault::SegmentPastEnd(_) => 8,
            ElfFault::FileOverMemory(_) => 9,
            ElfFault::SectionsPastEnd => 10,
            ElfFault::NamesMissing => 11,
            ElfFault::Numbering => 12,
            ElfFault::WideAddress(_) => 13,
            ElfFault::WideEntry => 14,
        }
    }

    /// The number of the program header that the fault is about, from 0, where it is about one.
    pub fn index(self) -> Option<u16>
        ensures { result ≡ fault_index self }
    {
        match self {
            ElfFault::SegmentPastEnd(index)
            | ElfFault::FileOverMemory(index)
            | ElfFault::WideAddress(index) => Some(index),
            _ => None,
        }
    }
}
