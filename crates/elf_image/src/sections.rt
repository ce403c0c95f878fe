ghost use Rattle.std.specs.Prelude.{◌≡◌, None, true};
ghost use Rattle.std.specs.Result.{result_err};
ghost use Rattle.elf_image.specs.Layout.{layout_for};
ghost use Rattle.elf_image.specs.Sections.{has_sections, names_of, section_in, sections_fault, text_to_zero, name_at, is_name};

use crate::faults::ElfFault;
use crate::headers::{FileHeader, ends_past};
use crate::layouts::Class;

/// A section: where its bytes are in the image, which may be past its end, and where in memory.
#[derive(Clone, Copy, Debug, PartialEq, Eq)]
pub struct Section {
    /// Where it is to be in memory, `sh_addr`; 0 where it is not to.
    pub address: u64,
    /// Where its bytes begin in the image, `sh_offset`.
    pub offset: u64,
    /// How many bytes it has, `sh_size`.
    pub size: u64,
}

/// Tests the sections of an image, if it has any.
pub(crate) fn test_sections(bytes: &[u8], class: Class, header: &FileHeader) -> Result<(), ElfFault>
    ensures { result_err result ≡ sections_fault (layout_for class) header.now bytes.now }
{
    if !header.has_sections() {
        return Ok(());
    }
    let table_len = class.layout().section_header_size as u64 * u64::from(header.section_count);
    if ends_past(header.section_table, table_len, bytes.len()) {
        return Err(ElfFault::SectionsPastEnd);
    }
    if header.names_index >= header.section_count {
        return Err(ElfFault::NamesMissing);
    }
    let names = header.section_header(bytes, class, header.names_index);
    if ends_past(names.offset, names.size, bytes.len()) {
        return Err(ElfFault::NamesMissing);
    }
    Ok(())
}

/// The bytes of the section of names, in an image whose sections pass their tests.
fn names_section<'a>(bytes: &'a [u8], class: Class, header: &FileHeader) -> &'a [u8]
    requires has { has_sections header.now ≡ true }
    requires good { sections_fault (layout_for class) header.now bytes.now ≡ None }
    ensures { result.now ≡ names_of (layout_for class) header.now bytes.now }
{
    let section = header.section_header(bytes, class, header.names_index);
    let start = section.offset as usize;
    &bytes[start..start + section.size as usize]
}

/// The first section of a name, in an image whose sections pass their tests.
pub(crate) fn find_section(
    bytes: &[u8],
    class: Class,
    header: &FileHeader,
    name: &[u8],
) -> Option<Section>
    requires { sections_fault (layout_for class) header.now bytes.now ≡ None }
    ensures { result ≡ section_in (layout_for class) header.now bytes.now name.now }
{
    if !header.has_sections() {
        return None;
    }
    let names = names_section(bytes, class, header);
    for index in 0..header.section_count {
        let section = header.section_header(bytes, class, index);
        if has_name(names, section.name as usize, name) {
            return Some(Section {
                address: section.address,
                offset: section.offset,
                size: section.size,
            });
        }
    }
    None
}

/// Whether the name at a place of the names section is this one.
fn has_name(names: &[u8], place: usize, name: &[u8]) -> bool
    ensures { result ≡ is_name (name_at names.now place) name.now }
{
    place < names.len() && is_text(&names[place..], name)
}

/// Whether the bytes up to the first zero are this name.
fn is_text(bytes: &[u8], name: &[u8]) -> bool
    ensures { result ≡ is_name (text_to_zero bytes.now) name.now }
{
    let mut left = bytes;
    for byte in name {
        match left {
            [first, more @ ..] if first == byte && *byte != 0 => left = more,
            _ => return false,
        }
    }
    matches!(left, [0, ..])
}
