ghost use Rattle.std.specs.Prelude.{◌≡◌};
ghost use Rattle.memory_pool.specs.Places.{entry_of, is_window};

use rp_base::{Da, Pa};

/// What a block is for, with the number of the entry of the resource table, from 0.
#[derive(Clone, Copy)]
pub enum Use {
    /// Memory that the firmware asks for.
    Carveout(u16),
    /// Memory of a peripheral, which is no memory of the core.
    Window(u16),
    /// A ring of a device, with the ring's number in the device.
    Ring(u16, u8),
    /// The buffers of the device for RPMsg.
    Buffers(u16),
}

impl Use {
    /// The number of the entry that a block is for.
    pub(crate) fn entry(self) -> u16
        ensures { result ≡ entry_of self }
    {
        match self {
            Use::Carveout(index) | Use::Window(index) | Use::Ring(index, _) | Use::Buffers(index) =>
                index,
        }
    }
}

/// A block of memory, or a window, that is placed.
#[derive(Clone, Copy)]
pub struct Block {
    /// What it is for.
    pub what: Use,
    /// Its device address.
    pub da: Da,
    /// Its physical address.
    pub pa: Pa,
    /// How many bytes it has.
    pub len: u32,
}

impl Block {
    /// Whether it is a window, which has no bytes of its own.
    pub fn is_window(&self) -> bool
        ensures { result ≡ is_window self.now }
    {
        matches!(self.what, Use::Window(_))
    }
}
