ghost use Rattle.std.specs.Prelude.{◌≡◌, IfOk};

use crate::memory::NoMemory;
use std::alloc::Global;
use std::marker::Model;

/// The payload of a message, or another text of bytes, in a script or a transcript. Contracts see
/// it as the list of its bytes.
#[derive(Debug, Drop)]
pub struct Data {
    bytes: Vec<u8>,
}

impl Model for Data {
    ghost use Rattle.std.specs.Prelude.{ℕ, List};

    ghost Value = { List ℕ };

    ghost view = { λ d. d.bytes.items };
}

impl Data {
    /// These bytes. Takes no memory.
    pub fn of(bytes: Vec<u8>) -> Data
        ensures { result ≡ bytes.items }
    {
        Data { bytes }
    }

    /// A copy of these bytes.
    pub fn copy_of(alloc: Global, bytes: &[u8]) -> Result<Data, NoMemory>
        ensures { IfOk result (λ copied. copied ≡ bytes.now) }
    {
        Ok(Data {
            bytes: Vec::from_slice(alloc, bytes)?,
        })
    }

    /// The bytes.
    pub fn bytes(&self) -> &[u8]
        ensures { result.now ≡ self.now }
    {
        self.bytes.as_slice()
    }
}
