ghost use Rattle.std.specs.Prelude.{◌≡◌, ℕ, ◌+◌, ◌*◌, ◌-◌, ◌^◌, ◌<◌, ◌≤◌, ◌++◌, length, replicate, OnOk, IfOk};
ghost use Rattle.std.specs.List.{flat_map};
ghost use Rattle.byteorder.specs.Endian.{little_bytes};
ghost use Rattle.rp_base.specs.Limits.{IsRingSize, ring_capacity};
ghost use Rattle.rp_base.specs.declared.limits.TheConstants.{RING_MOST};
ghost use Rattle.vring_layout.specs.Sizes.{IsRingAlign, ring_size};
ghost use Rattle.vring_layout.specs.Rings.{available_ring, descriptor_bytes, descriptor_table, ring_layout, used_entry_bytes, used_ring};

use crate::sizes::{available_ring_end, used_ring_at, vring_size};
use crate::words::{RingWords, UsedWord};
use byteorder::{ByteOrder, LittleEndian};
use rp_base::{MESSAGE_MOST, NoMemory, put_u16, put_u32};
use std::alloc::Global;

/// The bytes of a buffer.
const BUFFER_SIZE: u32 = MESSAGE_MOST as u32;

/// The flag of a descriptor whose buffer the device writes (`VIRTQ_DESC_F_WRITE`).
const DEVICE_WRITES: u16 = 2;

/// The bytes of a ring: the descriptor table, the available ring, zeros up to the next multiple of
/// `align`, and the used ring. The capacity is `num`, but at most 256.
pub fn ring_bytes(alloc: Global, align: u32, words: &RingWords) -> Result<Vec<u8>, NoMemory>
    requires num { IsRingSize words.now.num }
    requires align { IsRingAlign align }
    requires capacity { words.now.capacity ≡ ring_capacity words.now.num }
    requires avail { length words.now.avail ≡ words.now.num }
    requires used { length words.now.used ≡ words.now.num }
    ensures bytes { IfOk result (λ bytes. bytes.items ≡ ring_layout align words.now) }
    ensures size { IfOk result (λ bytes. length bytes.items ≡ ring_size words.now.num align) }
{
    let gap = used_ring_at(words.num, align) - available_ring_end(words.num);
    let mut bytes = Vec::with_capacity(alloc, vring_size(words.num, align) as usize)?;
    push_descriptors(&mut bytes, words)?;
    push_available_ring(&mut bytes, words)?;
    push_zeros(&mut bytes, gap as usize)?;
    push_used_ring(&mut bytes, words)?;
    Ok(bytes)
}

// Appends the descriptors of the buffers, and zeros for the other descriptors.
#[tactic(auto, using(crate::proofs::Pieces::pieces_more))]
fn push_descriptors(bytes: &mut Vec<u8>, words: &RingWords) -> Result<(), NoMemory>
    requires num { words.now.num ≤ RING_MOST }
    requires capacity { words.now.capacity ≤ words.now.num }
    ensures { OnOk result (bytes.new.items ≡ bytes.old.items ++ descriptor_table words.now) }
{
    for i in 0..words.capacity {
        let address = u64::from(words.base) + u64::from(BUFFER_SIZE) * u64::from(i);
        bytes.extend_from_slice(&descriptor(address, words.device_writes))?;
    }
    push_zeros(bytes, 16 * (words.num - u32::from(words.capacity)) as usize)
}

// The bytes of the descriptor of one buffer.
fn descriptor(address: u64, device_writes: bool) -> [u8; 16]
    ensures { result ≡ descriptor_bytes address device_writes }
{
    let mut bytes = [0; 16];
    LittleEndian::write_u64(&mut bytes[..8], address);
    put_u32(&mut bytes, 8, BUFFER_SIZE);
    put_u16(
        &mut bytes,
        12,
        if device_writes { DEVICE_WRITES } else { 0 },
    );
    bytes
}

// Appends the available ring. Its flags and its event word are 0.
fn push_available_ring(bytes: &mut Vec<u8>, words: &RingWords) -> Result<(), NoMemory>
    ensures { OnOk result (bytes.new.items ≡ bytes.old.items ++ available_ring words.now) }
{
    push_u16(bytes, 0)?;
    push_u16(bytes, words.avail_idx)?;
    for entry in words.avail.as_slice() {
        push_u16(bytes, *entry)?;
    }
    push_u16(bytes, 0)
}

// Appends the used ring. Its flags and its event word are 0.
fn push_used_ring(bytes: &mut Vec<u8>, words: &RingWords) -> Result<(), NoMemory>
    ensures { OnOk result (bytes.new.items ≡ bytes.old.items ++ used_ring words.now) }
{
    push_u16(bytes, 0)?;
    push_u16(bytes, words.used_idx)?;
    for entry in words.used.as_slice() {
        bytes.extend_from_slice(&used_entry(*entry))?;
    }
    push_u16(bytes, 0)
}

// The bytes of one entry of the used ring.
fn used_entry(entry: UsedWord) -> [u8; 8]
    ensures { result ≡ used_entry_bytes entry }
{
    let mut bytes = [0; 8];
    put_u32(&mut bytes, 0, entry.id);
    put_u32(&mut bytes, 4, entry.len);
    bytes
}

// Appends a number of 16 bits, the lowest byte first.
fn push_u16(bytes: &mut Vec<u8>, value: u16) -> Result<(), NoMemory>
    ensures { OnOk result (bytes.new.items ≡ bytes.old.items ++ little_bytes 2 value) }
{
    bytes.extend_from_slice(&value.to_le_bytes())?;
    Ok(())
}

// Appends this many zeros.
fn push_zeros(bytes: &mut Vec<u8>, count: usize) -> Result<(), NoMemory>
    requires { count < 2 ^ 32 }
    ensures { OnOk result (bytes.new.items ≡ bytes.old.items ++ replicate count 0) }
{
    let len = bytes.len() + count;
    bytes.resize(len, 0)?;
    Ok(())
}
