ghost use Rattle.std.specs.Prelude.{IfOk, IsTrue};
ghost use Rattle.rp_io.specs.Calls.{ascends};

use std::alloc::{AllocError, Global};

/// What the devices of a row give and take at once, and which call of each fails, from 0.
#[derive(Clone, Copy)]
pub struct Devices {
    /// To how many bytes zeros make the script longer.
    pub source_length: usize,
    /// The most bytes that a read of the script gives.
    pub source_most: usize,
    pub source_fails: Option<u64>,
    /// To how many bytes zeros make each image longer.
    pub store_length: usize,
    pub store_fails: Option<u64>,
    /// The most bytes that a write takes.
    pub sink_most: usize,
    /// How many bytes the sink has room for in all.
    pub sink_room: usize,
    pub sink_fails: Option<u64>,
}

impl Devices {
    /// Devices of which no call fails, with room for a megabyte.
    pub(crate) fn new() -> Devices {
        Devices {
            source_length: 0,
            source_most: 4096,
            source_fails: None,
            store_length: 0,
            store_fails: None,
            sink_most: 4096,
            sink_room: 1_048_576,
            sink_fails: None,
        }
    }

    /// The devices of a text with a line for each number that is another one: `source length N`,
    /// `source most N`, `source fails N`, `store length N`, `store fails N`, `sink most N`,
    /// `sink room N` and `sink fails N`. None where a line is none of these.
    pub(crate) fn read(text: &str) -> Option<Devices> {
        let mut devices = Devices::new();
        for line in text.lines() {
            let (what, number) = line.rsplit_once(' ')?;
            if !devices.set(what, number.parse().ok()?) {
                return None;
            }
        }
        Some(devices)
    }

    /// Takes the number of one line. False where there is no such line.
    pub(crate) fn set(&mut self, what: &str, number: u32) -> bool {
        match what {
            "source length" => self.source_length = number as usize,
            "source most" => self.source_most = number as usize,
            "source fails" => self.source_fails = Some(u64::from(number)),
            "store length" => self.store_length = number as usize,
            "store fails" => self.store_fails = Some(u64::from(number)),
            "sink most" => self.sink_most = number as usize,
            "sink room" => self.sink_room = number as usize,
            "sink fails" => self.sink_fails = Some(u64::from(number)),
            _ => return false,
        }
        true
    }
}

/// The list of the calls that fail, of which there is one at most.
pub(crate) fn calls(alloc: Global, number: Option<u64>) -> Result<Vec<u64>, AllocError>
    ensures { IfOk result (λ numbers. IsTrue (ascends numbers.items)) }
{
    match number {
        Some(number) => Ok(vec![in alloc; number]?),
        None => Ok(Vec::new(alloc)),
    }
}
