ghost use Rattle.std.specs.Prelude.{◌≡◌, ◌+◌, length, nat_lt, Some, IfOk, IfSome, is_none, option_map};
ghost use Rattle.std.specs.Result.{result_err};
ghost use Rattle.fw_load.specs.Tables.{bytes_in, section_fault};

use elf_image::Section;
use resource_table::{Table, TableFault};

/// The resource table of an image, where it has a section for one.
pub(crate) fn read_table<'a>(
    image: &'a [u8],
    section: Option<Section>,
) -> Result<Option<Table<'a>>, TableFault>
    ensures fault { result_err result ≡ section_fault image.now section }
    ensures table { IfOk result (λ table. table ≡ option_map (bytes_in image.now) section) }
{
    match section {
        Some(section) => Ok(Some(table_in(image, &section)?)),
        None => Ok(None),
    }
}

/// The resource table in a section of an image.
fn table_in<'a>(image: &'a [u8], section: &Section) -> Result<Table<'a>, TableFault>
    ensures fault { result_err result ≡ section_fault image.now (Some section.now) }
    ensures table { IfOk result (λ table. table ≡ bytes_in image.now section.now) }
{
    let bytes = section_bytes(image, section).ok_or(TableFault::TableShort)?;
    Table::read(bytes)
}

/// The bytes of a section, if it lies in its image.
fn section_bytes<'a>(image: &'a [u8], section: &Section) -> Option<&'a [u8]>
    ensures some { IfSome result (λ bytes. bytes.now ≡ bytes_in image.now section.now) }
    ensures inside { is_none result ≡ nat_lt (length image.now) (section.now.offset + section.now.size) }
{
    let end = section.offset.checked_add(section.size)?;
    if end > image.len() as u64 {
        return None;
    }
    Some(&image[section.offset as usize..end as usize])
}
