use crate::faults::ElfFault;
use crate::headers::{FileHeader, identify};
use crate::layouts::Class;
use crate::loaded::test_segments;
use crate::program::Segments;
use crate::sections::{Section, find_section, test_sections};
use rp_base::Da;
use std::marker::Model;

/// An image that passed all tests: a firmware file of the format ELF32 or ELF64, little-endian.
/// Contracts see it as the list of its bytes.
#[derive(Drop)]
pub struct Image<'a> {
    bytes: &'a [u8],
    class: Class,
    header: FileHeader,
}

impl<'a> Model for Image<'a> {
    ghost use Rattle.std.specs.Prelude.{ℕ, List};

    ghost Value = { List ℕ };

    ghost use Rattle.elf_image.specs.ImagesRead.{IsReadImage};

    ghost view = { λ i. i.bytes.now };

    ghost invariant = { λ i. IsReadImage i.bytes.now i.class i.header };
}

impl<'a> Image<'a> {
    ghost use Rattle.std.specs.Prelude.{◌≡◌, IfOk, OnOk};
    ghost use Rattle.std.specs.Result.{result_err};
    ghost use Rattle.elf_image.specs.Images.{GoodImage, image_fault, entry_of};
    ghost use Rattle.elf_image.specs.Segments.{segments_of};
    ghost use Rattle.elf_image.specs.Sections.{section_of};

    /// Reads an image. The error is the first of the tests that fails.
    pub fn read(bytes: &'a [u8]) -> Result<Image<'a>, ElfFault>
        ensures fault { result_err result ≡ image_fault bytes.now }
        ensures image { IfOk result (λ image. image ≡ bytes.now) }
        ensures good { OnOk result (GoodImage bytes.now) }
    {
        let class = identify(bytes)?;
        let header = FileHeader::read(bytes, class);
        header.test(class, bytes.len())?;
        test_segments(bytes, class, header)?;
        test_sections(bytes, class, &header)?;
        Ok(Image {
            bytes,
            class,
            header,
        })
    }

    /// The loaded segments, in the order of the program headers.
    pub fn segments(&self) -> Segments<'a>
        ensures segments { result ≡ segments_of self.now }
        ensures good { GoodImage self.now }
    {
        Segments::of(self.bytes, self.class, self.header)
    }

    /// The first section of a name. There is none exactly where no section has the name; a name that
    /// holds a zero byte is no section's.
    pub fn section(&self, name: &str) -> Option<Section>
        ensures section { result ≡ section_of self.now name.now }
        ensures good { GoodImage self.now }
    {
        find_section(self.bytes, self.class, &self.header, name.as_bytes())
    }

    /// The address of the first instruction, `e_entry`.
    pub fn entry(&self) -> Da
        ensures entry { result ≡ entry_of self.now }
        ensures good { GoodImage self.now }
    {
        self.header.entry as Da
    }
}
