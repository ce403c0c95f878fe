use memory_pool::Regions;
use rp_base::NoMemory;
use std::alloc::Global;
use std::marker::Model;

/// The zeros that a new memory is made of, piece by piece.
const ZEROS: [u8; 2048] = [0; 2048];

/// The memory of a core: the bytes of its regions, one after the other as they were declared.
/// Contracts see the bytes.
#[derive(Drop)]
pub struct CoreMemory {
    bytes: Vec<u8>,
}

impl Model for CoreMemory {
    ghost use Rattle.std.specs.Prelude.{ℕ, List};

    ghost Value = { List ℕ };

    ghost view = { λ memory. memory.bytes.items };
}

impl CoreMemory {
    ghost use Rattle.std.specs.Prelude.{◌≡◌, ◌+◌, ◌≤◌, IfOk, length, replicate, slice_range};
    ghost use Rattle.memory_pool.specs.Regions.{memory_len};
    ghost use Rattle.addr_translate.specs.Bytes.{with_bytes};

    /// Zeros, as many bytes as all regions have. It takes memory once.
    ///
    /// Errors: only if memory runs out.
    pub fn new(alloc: Global, regions: &Regions) -> Result<CoreMemory, NoMemory>
        ensures { IfOk result (λ memory. memory ≡ replicate (memory_len regions.now) 0) }
    {
        let len = regions.memory_len() as usize;
        let mut bytes = Vec::with_capacity(alloc, len)?;
        for _ in 0..len / ZEROS.len() {
            bytes.extend_from_slice(&ZEROS)?;
        }
        bytes.resize(len, 0)?;
        Ok(CoreMemory { bytes })
    }

    /// The `len` bytes from the place `at` on.
    pub fn bytes(&self, at: u32, len: u32) -> &[u8]
        requires { at + len ≤ length self.now }
        ensures { result.now ≡ slice_range self.now at (at + len) }
    {
        &self.bytes[at as usize..at as usize + len as usize]
    }

    /// Writes bytes from the place `at` on.
    pub fn write(&mut self, at: u32, from: &[u8])
        requires { at + length from.now ≤ length self.old }
        ensures written { self.new ≡ with_bytes at from.now self.old }
        ensures length { length self.new ≡ length self.old }
    {
        self.bytes[at as usize..at as usize + from.len()].copy_from_slice(from);
    }

    /// Writes one value into each of the `len` bytes from the place `at` on.
    pub fn fill(&mut self, at: u32, len: u32, value: u8)
        requires { at + len ≤ length self.old }
        ensures filled { self.new ≡ with_bytes at (replicate len value) self.old }
        ensures length { length self.new ≡ length self.old }
    {
        self.bytes[at as usize..at as usize + len as usize].fill(value);
    }

    /// Copies the `len` bytes from the place `from` on to the place `to` on, as they were before.
    pub fn copy(&mut self, from: u32, to: u32, len: u32)
        requires source { from + len ≤ length self.old }
        requires target { to + len ≤ length self.old }
        ensures copied { self.new ≡ with_bytes to (slice_range self.old from (from + len)) self.old }
        ensures length { length self.new ≡ length self.old }
    {
        let start = from as usize;
        self.bytes
            .copy_within(start..start + len as usize, to as usize);
    }
}
