ghost use Rattle.std.specs.Prelude.{◌≡◌};

use rp_base::{Data, Name};
use std::marker::Model;

/// A line of a recipe for a firmware image. Numbers are at most 2^32 - 1.
#[derive(Drop)]
pub enum RecipeLine {
    /// The address of the first instruction.
    Entry(u64),
    /// A segment: its device address, its bytes in the image, its length in memory.
    Load(u64, Data, u64),
    /// The resource table begins: its device address.
    Table(u64),
    /// A carveout of the table: device address, length, name.
    Carveout(u64, u64, Name),
    /// A device's memory in the table: device and physical address, length, name.
    Devmem(u64, u64, u64, Name),
    /// A trace buffer of the table: device address, length, name.
    Trace(u64, u64, Name),
    /// A virtio device of the table: its id, its features.
    Vdev(u64, u64),
    /// A ring of the device before: device address, alignment, entries.
    Vring(u64, u64, u64),
    /// A vendor's entry of the table: its type, from 4.
    Vendor(u64),
    /// A segment of a worker's code: its device address. The records after it are its bytes.
    Code(u64),
    /// A record: the worker ends.
    Halt,
    /// A record that announces a channel: address, flags, device address of the 32 bytes of its
    /// name.
    Announce(u64, u64, u64),
    /// A record that binds an address, or any for 2^32 - 1.
    Bind(u64),
    /// A record that sends bytes: source, destination or 2^32 - 1 for the source of the last
    /// message, device address, length up to 65,535.
    Send(u64, u64, u64, u64),
    /// A record that sends bytes as a whole message: device address, length up to 65,535.
    Raw(u64, u64),
    /// A record that takes a message and gives its buffer back.
    Take,
    /// A record that copies bytes: device address to, device address from, length up to 65,535.
    Log(u64, u64, u64),
    /// A record that reports a crash: its kind.
    Crash(u64),
    /// A record that goes to another: how many turns, or 0 for no end; the number of the record.
    Loop(u64, u64),
}

/// How an image is made: its lines in order. Contracts see it as the list of these.
#[derive(Drop)]
pub struct Recipe {
    pub lines: Vec<RecipeLine>,
}

impl Model for Recipe {
    ghost use Rattle.std.specs.Prelude.{List};
    ghost use Rattle.script_lang.specs.declared.recipes.RecipeLine.{RecipeLine};

    ghost Value = { List RecipeLine };

    ghost view = { λ r. r.lines.items };
}

impl Recipe {
    /// The lines in order.
    pub fn lines(&self) -> &[RecipeLine]
        ensures { result.now ≡ self.now }
    {
        self.lines.as_slice()
    }
}
