ghost use Rattle.std.specs.Prelude.{◌≡◌, ◌≢◌, ℕ, ◌≤◌, List, length, Err, IfOk, IsErrOf};
ghost use Rattle.std.specs.declared.option.Option.{Option};
ghost use Rattle.rp_io.specs.Causes.{Rose};
ghost use Rattle.rp_io.specs.Images.{IsFetched};

use crate::faults::FetchFault;
use rp_base::IMAGE_MOST;
use std::alloc::Global;

/// A store of firmware images that counts its faults.
///
/// `images` are the names and images, where the store says them. `faults` never falls.
pub trait FirmwareStore {
    ghost images: { Self → Option (List (List ℕ × List ℕ)) };

    ghost faults: { Self → ℕ };

    /// The bytes of the first image of this name. The images stay as they are, and so does the
    /// count of faults unless the answer is [`FetchFault::Failed`].
    ///
    /// # Errors
    ///
    /// [`FetchFault::Missing`] where there is no such image, [`FetchFault::TooLarge`] with its
    /// length where it is longer than [`IMAGE_MOST`], [`FetchFault::Failed`] where the store
    /// failed, and counted it, [`FetchFault::NoMemory`] where memory ran out.
    fn fetch(&mut self, alloc: Global, name: &str) -> Result<Vec<u8>, FetchFault>
        ensures fetched { IsFetched (images self.old) name.now result }
        ensures bound { IfOk result (λ image. length image.items ≤ IMAGE_MOST) }
        ensures kept { images self.new ≡ images self.old }
        ensures later { faults self.old ≤ faults self.new }
        ensures failed { IsErrOf result FetchFault.Failed → Rose (faults self.old) (faults self.new) }
        ensures same { result ≢ Err FetchFault.Failed → faults self.new ≡ faults self.old };
}
