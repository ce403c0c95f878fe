ghost use Rattle.std.specs.Prelude.{◌≡◌, ◌≢◌, ◌≤◌, length, IfOk, Some, Err, map, option_copied, option_map};
ghost use Rattle.rp_io.specs.Images.{IsFetched, find_image, named_images};

use crate::faults::FetchFault;
use rp_base::{IMAGE_MOST, Name};
use std::alloc::Global;
use std::marker::Model;

/// Firmware images with their names. Contracts see them as the list of the names and the bytes.
#[derive(Drop)]
pub struct ImageList {
    images: Vec<(Name, Vec<u8>)>,
}

impl Model for ImageList {
    ghost use Rattle.std.specs.Prelude.{ℕ, List};
    ghost use Rattle.rp_io.specs.Images.{named_images};

    ghost Value = { List (List ℕ × List ℕ) };

    ghost view = { λ list. named_images list.images.items };
}

impl ImageList {
    /// The list of these images.
    pub fn new(images: Vec<(Name, Vec<u8>)>) -> ImageList
        ensures { result ≡ named_images images.items }
    {
        ImageList { images }
    }

    /// The first image of this name.
    fn find(&self, name: &[u8]) -> Option<&[u8]>
        ensures { option_copied result ≡ option_map (λ image. image.1) (find_image self.now name.now) }
    {
        let image = self.images.iter().find(|image| image.0.bytes() == name)?;
        Some(&image.1)
    }

    /// The bytes of the first image of this name.
    ///
    /// # Errors
    ///
    /// [`FetchFault::Missing`] where there is none, [`FetchFault::TooLarge`] with its length where
    /// it is longer than [`IMAGE_MOST`], [`FetchFault::NoMemory`] where memory ran out.
    pub fn fetch(&self, alloc: Global, name: &str) -> Result<Vec<u8>, FetchFault>
        ensures fetched { IsFetched (Some self.now) name.now result }
        ensures bound { IfOk result (λ image. length image.items ≤ IMAGE_MOST) }
        ensures no_failure { result ≢ Err FetchFault.Failed }
    {
        let Some(image) = self.find(name.as_bytes()) else {
            return Err(FetchFault::Missing);
        };
        if image.len() > IMAGE_MOST {
            return Err(FetchFault::TooLarge(image.len() as u64));
        }
        Ok(Vec::from_slice(alloc, image)?)
    }
}
