ghost use Rattle.std.specs.Prelude.{◌≡◌, None, map};
ghost use Rattle.elf_image.specs.SegmentsRead.{segment_read};
ghost use Rattle.c_forms.specs.Forms.{segment_form};
ghost use Rattle.c_forms.specs.Arrays.{told_array, told_count, told_status};
ghost use Rattle.c_forms.specs.Loads.{image_refusal, segments_told};

use crate::faults::CFault;
use crate::{DONE, WRONG_LENGTH};
use elf_image::{Image, Segment, Segments};

/// A loaded segment of an image.
#[repr(C)]
#[derive(Clone, Copy)]
pub struct CSegment {
    /// The number of its program header among all of the image, from 0.
    pub index: u32,
    /// Where its memory begins, `p_paddr`.
    pub da: u32,
    /// How many bytes the image gives, which are at the start of its memory.
    pub file_len: u32,
    /// How many bytes of memory it has, `p_memsz`, of which the rest is zeros.
    pub memory_len: u32,
}

impl CSegment {
    /// The form of a segment.
    fn of(segment: &Segment<'_>) -> CSegment
        ensures { result ≡ segment_form (segment_read segment.now) }
    {
        CSegment {
            index: u32::from(segment.index),
            da: segment.da,
            file_len: segment.file.len() as u32,
            memory_len: segment.memory_len,
        }
    }
}

/// Writes the loaded segments of an image into an array, in table order, and counts those that were
/// written.
///
/// The status is 0, the number of the first fault of the image, which leaves the array as it was, or
/// [`WRONG_LENGTH`] where the array has no room for all: it is full then.
pub fn image_segments(image: &[u8], array: &mut [CSegment], count: &mut usize) -> u32
    ensures status { result ≡ told_status (image_refusal image.now) (segments_told image.now) array.old }
    ensures segments { array.new ≡ told_array (image_refusal image.now) (segments_told image.now) array.old }
    ensures count { count.new ≡ told_count (image_refusal image.now) (segments_told image.now) array.old }
{
    match Image::read(image) {
        Ok(image) => put_segments(image.segments(), array, count),
        Err(fault) => {
            *count = 0;
            CFault::of_image(fault).number
        }
    }
}

/// Writes segments over the start of an array.
fn put_segments(segments: Segments<'_>, array: &mut [CSegment], count: &mut usize) -> u32
    ensures status { result ≡ told_status None (map segment_form segments.entry) array.old }
    ensures segments { array.new ≡ told_array None (map segment_form segments.entry) array.old }
    ensures count { count.new ≡ told_count None (map segment_form segments.entry) array.old }
{
    let mut place = 0;
    for segment in segments {
        if place == array.len() {
            *count = place;
            return WRONG_LENGTH;
        }
        array[place] = CSegment::of(&segment);
        place += 1;
    }
    *count = place;
    DONE
}
