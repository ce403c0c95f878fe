ghost use Rattle.std.specs.Prelude.{◌≡◌, ◌≢◌, ◌≤◌, ◌↔◌, length, Err, IfOk, IsErrOf, IsTrue};
ghost use Rattle.rp_io.specs.Calls.{ascends, fails_next, no_calls, with_call};
ghost use Rattle.rp_io.specs.Causes.{Rose};
ghost use Rattle.rp_io.specs.Images.{IsFetched, named_images};

use crate::calls::CallPlan;
use crate::faults::FetchFault;
use crate::images::ImageList;
use crate::stores::FirmwareStore;
use rp_base::{IMAGE_MOST, Name};
use std::alloc::Global;
use std::marker::Model;

/// A store of images in memory, of which chosen fetches fail.
#[derive(Drop)]
pub struct MemoryStore {
    images: ImageList,
    calls: CallPlan,
}

impl Model for MemoryStore {
    ghost use Rattle.rp_io.specs.InMemory.{StoreInMemory};

    ghost Value = { StoreInMemory };

    ghost view = { λ store. record { images = store.images; calls = store.calls } };
}

impl MemoryStore {
    /// A store of these images. The fetches whose numbers are in `fails`, counted from 0, are
    /// faults. Of two images of one name the first is found.
    pub fn new(images: Vec<(Name, Vec<u8>)>, fails: Vec<u64>) -> MemoryStore
        requires { IsTrue (ascends fails.items) }
        ensures { result ≡ record { images = named_images images.items; calls = no_calls fails.items } }
    {
        MemoryStore {
            images: ImageList::new(images),
            calls: CallPlan::new(fails),
        }
    }

    /// How many fetches failed.
    pub fn faults(&self) -> u64
        ensures { result ≡ self.now.calls.faults }
    {
        self.calls.faults()
    }
}

impl FirmwareStore for MemoryStore {
    ghost use Rattle.std.specs.Prelude.{Some};

    ghost images = { λ store. Some store.images };

    ghost faults = { λ store. store.calls.faults };

    fn fetch(&mut self, alloc: Global, name: &str) -> Result<Vec<u8>, FetchFault>
        ensures chosen { (result ≡ Err FetchFault.Failed) ↔ IsTrue (fails_next self.old.calls) }
        ensures after { self.new ≡ record self.old { calls = with_call self.old.calls (fails_next self.old.calls) } }

        ensures fetched { IsFetched (Some self.old.images) name.now result }
        ensures bound { IfOk result (λ image. length image.items ≤ IMAGE_MOST) }
        ensures later { self.old.calls.faults ≤ self.new.calls.faults }
        ensures failed { IsErrOf result FetchFault.Failed → Rose self.old.calls.faults self.new.calls.faults }
        ensures same { result ≢ Err FetchFault.Failed → self.new.calls.faults ≡ self.old.calls.faults }
    {
        let fails = self.calls.fails_next();
        self.calls.count(fails);
        if fails {
            return Err(FetchFault::Failed);
        }
        self.images.fetch(alloc, name)
    }
}
