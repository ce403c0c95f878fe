use elf_image::ElfFault;
use fw_load::LoadFault;
use memory_pool::{PlaceFault, RegionFault};
use proc_state::LifeFault;
use remote_code::WorkerFault;
use resource_table::TableFault;
use rp_base::NoMemory;
use rpmsg_header::HeaderFault;
use std::test::Fail;

// The text of a fault is the word `fault` and its number; where memory ran out it says so.
#[test]
fn faults_are_written_by_their_numbers(rt: HostRuntime) -> Result<(), Fail> {
    let alloc = rt.alloc();
    for (text, wanted) in [
        (
            format!(in alloc; "{}", ElfFault::SegmentPastEnd(3))?,
            "fault 8",
        ),
        (
            format!(in alloc; "{}", TableFault::RingAlign(3))?,
            "fault 28",
        ),
        (
            format!(in alloc; "{}", RegionFault::RegionRange)?,
            "fault 31",
        ),
        (format!(in alloc; "{}", PlaceFault::NoRoom(2))?, "fault 35"),
        (
            format!(in alloc; "{}", LoadFault::Elf(ElfFault::Magic))?,
            "fault 2",
        ),
        (
            format!(in alloc; "{}", LoadFault::EntryUnmapped)?,
            "fault 41",
        ),
        (format!(in alloc; "{}", LifeFault::UsersFull)?, "fault 53"),
        (
            format!(in alloc; "{}", HeaderFault::TooLong(497))?,
            "fault 60",
        ),
        (format!(in alloc; "{}", HeaderFault::Malformed)?, "fault 61"),
        (format!(in alloc; "{}", WorkerFault::NoLink)?, "fault 93"),
        (
            format!(in alloc; "{}", PlaceFault::from(NoMemory))?,
            "out of memory",
        ),
        (format!(in alloc; "{NoMemory}")?, "out of memory"),
    ] {
        assert_eq!(rt; text.as_str(), wanted);
    }
    Ok(())
}
