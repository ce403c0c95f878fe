ghost use Rattle.std.specs.Prelude.{◌≡◌, ◌≤◌, None, IfErr, IfOk, IsErrOf, IsTrue, OnOk, is_some};
ghost use Rattle.std.specs.Result.{result_map_both};
ghost use Rattle.rp_io.specs.Images.{IsToldFor, IsToldUnder, IsStoreFault, answer_of, text_name};
ghost use Rattle.rp_io.specs.declared.faults.StoreFault.TheVariants as store_fault;

use crate::faults::{FetchFault, NoImage, StoreFault};
use crate::stores::FirmwareStore;
use std::alloc::Global;

/// What a store has under a name: the bytes of the first image of it, or why there is none. The
/// images stay as they are.
///
/// # Errors
///
/// [`StoreFault::Failed`] where the store failed, and counted it, [`StoreFault::NoMemory`] where
/// memory ran out.
pub fn look_up<F: FirmwareStore>(
    alloc: Global,
    store: &mut F,
    name: &str,
) -> Result<Result<Vec<u8>, NoImage>, StoreFault>
    ensures told { IfOk result (λ found. IsToldUnder (F.images store.old) name.now (answer_of found)) }
    ensures kept { F.images store.new ≡ F.images store.old }
    ensures later { F.faults store.old ≤ F.faults store.new }
    ensures same { OnOk result (F.faults store.new ≡ F.faults store.old) }
    ensures fault { IfErr result (λ why. IsStoreFault why (F.faults store.old) (F.faults store.new)) }
{
    match store.fetch(alloc, name) {
        Ok(image) => Ok(Ok(image)),
        Err(FetchFault::Missing) => Ok(Err(NoImage::Missing)),
        Err(FetchFault::TooLarge(bytes)) => Ok(Err(NoImage::TooLarge(bytes))),
        Err(FetchFault::Failed) => Err(StoreFault::Failed),
        Err(FetchFault::NoMemory) => Err(StoreFault::NoMemory),
    }
}

/// The same under a name of bytes. One that is no text is missing in each store, which isn't asked.
///
/// # Errors
///
/// Those of [`look_up`].
pub fn look_up_bytes<F: FirmwareStore>(
    alloc: Global,
    store: &mut F,
    name: &[u8],
) -> Result<Result<Vec<u8>, NoImage>, StoreFault>
    ensures told { IfOk result (λ found. IsToldFor (F.images store.old) (text_name name.now) (answer_of found)) }
    ensures kept { F.images store.new ≡ F.images store.old }
    ensures later { F.faults store.old ≤ F.faults store.new }
    ensures same { OnOk result (F.faults store.new ≡ F.faults store.old) }
    ensures fault { IfErr result (λ why. IsStoreFault why (F.faults store.old) (F.faults store.new)) }
    ensures asked { IsErrOf result store_fault.Failed → IsTrue (is_some (text_name name.now)) }
    ensures unasked { text_name name.now ≡ None → store.new ≡ store.old }
{
    match str::from_utf8(name) {
        Ok(name) => look_up(alloc, store, name),
        Err(_) => Ok(Err(NoImage::Missing)),
    }
}

/// The bytes of an image that was found, or why there is none.
pub fn bytes_of(found: &Result<Vec<u8>, NoImage>) -> Result<&[u8], NoImage>
    ensures { result_map_both (λ bytes. bytes.now) (λ why. why) result ≡ answer_of found.now }
{
    match found {
        Ok(image) => Ok(image.as_slice()),
        Err(why) => Err(*why),
    }
}
