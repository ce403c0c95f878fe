ghost use Rattle.std.specs.Prelude.{◌≡◌, ◌≢◌, ℕ, ◌+◌, ◌<◌, ◌≤◌, List, length, Err, IfOk, IsErrOf};
ghost use Rattle.std.specs.declared.option.Option.{Option};
ghost use Rattle.std.specs.Io.{ReadsAtMost};
ghost use Rattle.std.specs.Io.KnownBytes.{Consumes, IsAtEnd, ReadConsumes};
ghost use Rattle.rp_io.specs.Causes.{HasCause, Rose};
ghost use Rattle.rp_io.specs.Contents.{EndsWhereEmpty, IsAllOf, IsFrontOf, IsLonger, LosesFront};

use crate::faults::{Failed, FetchFault, ReadFault};
use rp_base::IMAGE_MOST;
use std::alloc::Global;

/// A source of bytes that counts its faults.
///
/// `left` is what reads will give from here on, where the source says it. `faults` never falls.
pub trait Source {
    ghost left: { Self → Option (List ℕ) };

    ghost faults: { Self → ℕ };

    /// Moves some of the bytes that are left to the start of `into`, and says how many.
    ///
    /// # Errors
    ///
    /// [`Failed`] where the source failed. Nothing is lost then.
    fn read(&mut self, into: &mut [u8]) -> Result<usize, Failed>
        requires { 0 < length into.old }
        ensures bound { ReadsAtMost result into.new }
        ensures bytes { ReadConsumes (left self.old) (left self.new) result into.new }
        ensures end { IfOk result (EndsWhereEmpty (left self.old)) }
        ensures cause { HasCause (faults self.old) (faults self.new) result };
}

/// The bytes that a source has left, or the first `limit + 1` of them where there are more. At most
/// so many are taken from the source, whatever the answer, and fewer come only where it is at its
/// end. Its count of faults stays as it is unless the answer is [`ReadFault::Failed`].
///
/// # Errors
///
/// [`ReadFault::Failed`] where the source failed, and counted it, [`ReadFault::NoMemory`] where
/// memory ran out. The source has then lost what was read.
pub fn read_front<S: Source>(
    alloc: Global,
    source: &mut S,
    limit: usize,
) -> Result<Vec<u8>, ReadFault>
    requires { limit < 1000000000 }
    ensures bytes { IfOk result (λ bytes. IsFrontOf (S.left source.old) (limit + 1) bytes.items) }
    ensures rest { IfOk result (λ bytes. Consumes (S.left source.old) (S.left source.new) bytes.items) }
    ensures bound { IfOk result (λ bytes. length bytes.items ≤ limit + 1) }
    ensures end { IfOk result (λ bytes. length bytes.items ≤ limit → IsAtEnd (S.left source.new)) }

    ensures lost { LosesFront (S.left source.old) (S.left source.new) (limit + 1) }
    ensures later { S.faults source.old ≤ S.faults source.new }
    ensures failed { IsErrOf result ReadFault.Failed → Rose (S.faults source.old) (S.faults source.new) }
    ensures same { result ≢ Err ReadFault.Failed → S.faults source.new ≡ S.faults source.old }
{
    let mut piece = [0; 4096];
    let mut bytes = Vec::new(alloc);
    while bytes.len() <= limit {
        let room = (limit + 1 - bytes.len()).min(piece.len());
        let count = source.read(&mut piece[..room])?;
        if count == 0 {
            break;
        }
        bytes.extend_from_slice(&piece[..count])?;
    }
    Ok(bytes)
}

/// All the bytes that a source has left, as a firmware image. Its count of faults stays as it is
/// unless the answer is [`FetchFault::Failed`].
///
/// # Errors
///
/// [`FetchFault::TooLarge`] with `IMAGE_MOST + 1` where there are more than [`IMAGE_MOST`],
/// [`FetchFault::Failed`] where the source failed, and counted it, [`FetchFault::NoMemory`] where
/// memory ran out. The source has then lost what was read.
pub fn read_image<S: Source>(alloc: Global, source: &mut S) -> Result<Vec<u8>, FetchFault>
    ensures whole { IfOk result (λ image. IsAllOf (S.left source.old) image.items) }
    ensures bound { IfOk result (λ image. length image.items ≤ IMAGE_MOST) }
    ensures large { (bytes : ℕ) → result ≡ Err (FetchFault.TooLarge bytes)
        → (bytes ≡ IMAGE_MOST + 1) × IsLonger (S.left source.old) IMAGE_MOST }
    ensures present { result ≢ Err FetchFault.Missing }

    ensures later { S.faults source.old ≤ S.faults source.new }
    ensures failed { IsErrOf result FetchFault.Failed → Rose (S.faults source.old) (S.faults source.new) }
    ensures same { result ≢ Err FetchFault.Failed → S.faults source.new ≡ S.faults source.old }
{
    match read_front(alloc, source, IMAGE_MOST) {
        Ok(image) if image.len() <= IMAGE_MOST => Ok(image),
        Ok(image) => Err(FetchFault::TooLarge(image.len() as u64)),
        Err(ReadFault::Failed) => Err(FetchFault::Failed),
        Err(ReadFault::NoMemory) => Err(FetchFault::NoMemory),
    }
}
