ghost use Rattle.std.specs.Prelude.{◌≡◌};

use rp_base::Da;
use std::marker::Model;

/// An entry of a used ring (`struct virtq_used_elem` of VIRTIO 1.2, 2.7.8).
#[derive(Clone, Copy, Debug, PartialEq, Eq)]
pub struct UsedWord {
    /// The number of the buffer's descriptor.
    pub id: u32,
    /// How many bytes the device wrote into the buffer.
    pub len: u32,
}

/// The entries of an available ring: the number of a descriptor each. Contracts see their list.
#[derive(Debug, Drop)]
pub struct AvailableWords {
    items: Vec<u16>,
}

impl Model for AvailableWords {
    ghost use Rattle.std.specs.Prelude.{ℕ, List};

    ghost Value = { List ℕ };

    ghost view = { λ words. words.items.items };
}

impl AvailableWords {
    /// The entries of a list.
    pub fn of(items: Vec<u16>) -> AvailableWords
        ensures { result ≡ items.items }
    {
        AvailableWords { items }
    }

    /// The entries as a list.
    pub fn as_slice(&self) -> &[u16]
        ensures { result.now ≡ self.now }
    {
        &self.items
    }

    /// Gives the list back.
    pub fn into_items(self) -> Vec<u16>
        ensures { result.items ≡ self }
    {
        self.items
    }
}

/// The entries of a used ring. Contracts see their list.
#[derive(Debug, Drop)]
pub struct UsedWords {
    items: Vec<UsedWord>,
}

impl Model for UsedWords {
    ghost use Rattle.std.specs.Prelude.{List};
    ghost use Rattle.vring_layout.specs.declared.words.UsedWord.{UsedWord};

    ghost Value = { List UsedWord };

    ghost view = { λ words. words.items.items };
}

impl UsedWords {
    /// The entries of a list.
    pub fn of(items: Vec<UsedWord>) -> UsedWords
        ensures { result ≡ items.items }
    {
        UsedWords { items }
    }

    /// The entries as a list.
    pub fn as_slice(&self) -> &[UsedWord]
        ensures { result.now ≡ self.now }
    {
        &self.items
    }

    /// Gives the list back.
    pub fn into_items(self) -> Vec<UsedWord>
        ensures { result.items ≡ self }
    {
        self.items
    }
}

/// What is in a ring, beside what its sizes fix.
#[derive(Debug, Drop)]
pub struct RingWords {
    /// The number of descriptors, and of entries of either ring.
    pub num: u32,
    /// The number of buffers, which the first descriptors name.
    pub capacity: u16,
    /// The device address of buffer 0. The others follow it, 512 bytes each.
    pub base: Da,
    /// Whether the device writes the buffers. Otherwise it reads them.
    pub device_writes: bool,
    /// The index of the available ring, modulo 65,536.
    pub avail_idx: u16,
    /// The index of the used ring, modulo 65,536.
    pub used_idx: u16,
    /// The `num` entries of the available ring.
    pub avail: AvailableWords,
    /// The `num` entries of the used ring.
    pub used: UsedWords,
}
