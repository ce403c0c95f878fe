ghost use Rattle.std.specs.Prelude.{◌≡◌, ◌≢◌, ◌+◌, length, nat_lt, Some, Ok, Err, IfOk, IfErr, IfSome, is_none, option_map};
ghost use Rattle.std.specs.Result.{result_err};
ghost use Rattle.memory_pool.specs.Placements.{placement};
ghost use Rattle.memory_pool.specs.Soundness.{SoundPlacement};
ghost use Rattle.memory_pool.specs.declared.faults.PlaceFault.TheVariants as fault;
ghost use Rattle.fw_load.specs.Tables.{bytes_in, entries_in, section_fault};

use elf_image::Section;
use memory_pool::{PlaceFault, Placed, Regions, place};
use resource_table::{Table, TableFault};
use std::alloc::Global;

/// The resource table of an image, where it has a section for one.
pub(crate) fn read_table<'a>(
    image: &'a [u8],
    section: Option<Section>,
) -> Result<Option<Table<'a>>, TableFault>
    ensures fault { result_err result ≡ section_fault image.now section }
    ensures table { IfOk result (λ table. table ≡ option_map (bytes_in image.now) section) }
{
    match section {
        Some(section) => Ok(Some(table_in(image, &section)?)),
        None => Ok(None),
    }
}

/// The resource table in a section of an image.
fn table_in<'a>(image: &'a [u8], section: &Section) -> Result<Table<'a>, TableFault>
    ensures fault { result_err result ≡ section_fault image.now (Some section.now) }
    ensures table { IfOk result (λ table. table ≡ bytes_in image.now section.now) }
{
    let bytes = section_bytes(image, section).ok_or(TableFault::TableShort)?;
    Table::read(bytes)
}

/// The bytes of a section, if it lies in its image.
fn section_bytes<'a>(image: &'a [u8], section: &Section) -> Option<&'a [u8]>
    ensures some { IfSome result (λ bytes. bytes.now ≡ bytes_in image.now section.now) }
    ensures inside { is_none result ≡ nat_lt (length image.now) (section.now.offset + section.now.size) }
{
    let end = section.offset.checked_add(section.size)?;
    if end > image.len() as u64 {
        return None;
    }
    Some(&image[section.offset as usize..end as usize])
}

/// Places what a table asks for, and nothing without one.
pub(crate) fn place_entries(
    alloc: Global,
    regions: &Regions,
    table: &Option<Table<'_>>,
) -> Result<Placed, PlaceFault>
    ensures placed { IfOk result (λ placed. placement regions.now (entries_in table.now) ≡ Ok placed.blocks.items) }
    ensures refused { IfErr result (λ refused. refused ≢ fault.NoMemory → placement regions.now (entries_in table.now) ≡ Err refused) }
    ensures sound { IfOk result (λ placed. SoundPlacement regions.now placed.blocks.items) }
{
    match table {
        Some(table) => place(alloc, regions, table),
        None => Ok(Placed {
            blocks: Vec::new(alloc),
        }),
    }
}
