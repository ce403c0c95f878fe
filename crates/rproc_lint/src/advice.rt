use board_file::Why;
use fw_load::LoadFault;

/// What a fault is, as the fault list of the repository has it.
pub(crate) fn meaning(fault: &LoadFault) -> &'static str {
    match fault.number() {
        Some(1) => "fewer bytes than an ELF header has",
        Some(2) => "it doesn't begin with 7f 45 4c 46",
        Some(3) => "byte 4 is neither class 1 nor class 2",
        Some(4) => "byte 5 isn't 1, so the image is in big-endian order",
        Some(5) => "the headers of segments or sections have another size than those of its class",
        Some(6) => "it has no program header",
        Some(7) => "the program headers end past the file",
        Some(8) => "the bytes of a segment end past the file",
        Some(9) => "a segment has more bytes in the file than in memory",
        Some(10) => "the section headers end past the file",
        Some(11) => "the names of the sections aren't in the file",
        Some(12) => "a count of headers is kept elsewhere",
        Some(13) => "a segment whose load address or length in memory has more than 32 bits",
        Some(14) => "the entry has more than 32 bits",
        Some(20) => "the resource table ends past the image, or has fewer than 16 bytes",
        Some(21) => "the version of the resource table isn't 1",
        Some(22) => "a reserved word of the resource table's header isn't 0",
        Some(23) => "the offsets or entries of the resource table overlap or end past it",
        Some(24) => "an entry ends past the end of the table",
        Some(25) => "a reserved field of an entry isn't 0",
        Some(26) =>
            "a device with more than two rings, or an RPMsg device (id 7) without exactly two",
        Some(27) => "a ring whose number of entries is no power of two up to 32,768",
        Some(28) => "a ring whose alignment is no power of two from 4 to 65,536",
        Some(29) => "a second RPMsg device",
        Some(33) => "a carveout or a ring at an address where no one pool holds it whole",
        Some(34) => "a carveout or a ring whose bytes meet an earlier one",
        Some(35) => "no pool has room for this carveout, this ring or the buffers of this device",
        Some(36) => "a window (devmem) over a region or an earlier window",
        Some(37) => "a window (devmem) that ends past 2^32",
        Some(40) => "a segment that no one block of memory holds",
        Some(41) => "the 16 bytes at the entry aren't in one block of mapped memory",
        _ => "out of memory",
    }
}

/// What to do about a fault.
pub(crate) fn advice(fault: &LoadFault) -> &'static str {
    match fault.number() {
        Some(1 | 7 | 8 | 10) => "Copy the file again: it was cut off.",
        Some(2) =>
            "Give the ELF file that the linker wrote: this is no ELF file, as a raw binary isn't.",
        Some(3) => "Build it again: it is no ELF file, or a damaged one.",
        Some(4) => "Build it in little-endian order.",
        Some(5 | 9 | 11) => "Link it again: the file is damaged.",
        Some(6) => "Link it as an executable: an object file has no segments.",
        Some(12) => "Link it with fewer sections and segments.",
        Some(13) =>
            "Link it for addresses below 4 GiB. The load address (p_paddr) counts, not the address at run time.",
        Some(14) => "Link it for addresses below 4 GiB.",
        Some(20) =>
            "Give the section .resource_table the whole table: a header of 16 bytes, the offsets and the entries.",
        Some(21) => "Write version 1.",
        Some(22) => "Write 0 into both.",
        Some(23) =>
            "Count each offset from the table's first byte, and move an entry after the others.",
        Some(24) =>
            "Mend its offset, its number of rings or its length, or give the section the whole table.",
        Some(25) => "Write 0.",
        Some(26) => "Give it two rings.",
        Some(27) => "Give the ring a power of two of entries.",
        Some(28) => "Give the ring such an alignment, as 4,096.",
        Some(29) => "Leave one device of id 7.",
        Some(33) => "Give an address within a pool, or any (0xFFFFFFFF).",
        Some(34) => "Give another address, or any (0xFFFFFFFF).",
        Some(35) => "Ask for less, or for fewer ring entries.",
        Some(36) => "Move its device address to one that no region and no other window has.",
        Some(37) => "Make it shorter, or move it down.",
        Some(40) =>
            "Link it into a tcm region, or into a block that a carveout of the table asks for at that address: memory of a pool is mapped where something was placed, and nowhere else. Its load address (p_paddr) counts.",
        Some(41) => "Give an entry that is: the first record of the worker lies there.",
        _ => "Give the machine more memory.",
    }
}

/// Why a line of a board file is bad.
pub(crate) fn trouble_text(why: Why) -> &'static str {
    match why {
        Why::Size => "the file has more than 65,536 bytes",
        Why::Keyword => "no line of a board file begins so",
        Why::Words => "the line has more or fewer words than it should",
        Why::Number => "no number from 0 to 4294967295",
        Why::RegionKind => "neither tcm nor pool",
        Why::Machine => "no machine",
        Why::Repeated => "there is such a line already",
        Why::Full => "there are 64 of these already",
        Why::Range => "it is empty, or ends past 2^32",
        Why::DeviceMeets => "its device addresses meet those of an earlier region or alias",
        Why::PhysicalMeets => "its physical addresses meet those of an earlier region",
        Why::NoRegion => "the file has no region",
    }
}
