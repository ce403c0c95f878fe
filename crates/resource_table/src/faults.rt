ghost use Rattle.std.specs.Prelude.{◌≡◌};
ghost use Rattle.resource_table.specs.Faults.{fault_number, fault_index};

use thiserror::Error;

/// What is wrong with a resource table. The faults have the numbers 20 to 29, and each is written as
/// the word `fault`, a space and its number.
#[derive(Clone, Copy, Debug, PartialEq, Eq, Error)]
#[error("fault {}", self.number())]
pub enum TableFault {
    /// There are fewer bytes than the header of a table has.
    TableShort,
    /// The version is not 1.
    Version,
    /// A reserved word of the header is not 0.
    Reserved,
    /// There are more than 256 entries, the offsets or one of the places that they name end past the
    /// table, or the bytes of an entry are also the header's, an offset's or an earlier entry's.
    Offsets,
    /// The entry of this number ends past the table.
    EntryShort(u16),
    /// A reserved field of the entry of this number is not 0.
    EntryReserved(u16),
    /// The device of this number has more than two rings, or is for RPMsg and has not two.
    RingCount(u16),
    /// The size of a ring of the device of this number is no power of two up to 32,768.
    RingSize(u16),
    /// The alignment of a ring of the device of this number is no power of two from 4 to 65,536.
    RingAlign(u16),
    /// The device of this number is for RPMsg, and an earlier one is too.
    SecondRpmsg(u16),
}

impl TableFault {
    /// The number of the fault, from 20 to 29.
    pub fn number(self) -> u8
        ensures { result ≡ fault_number self }
    {
        match self {
            TableFault::TableShort => 20,
            TableFault::Version => 21,
            TableFault::Reserved => 22,
            TableFault::Offsets => 23,
            TableFault::EntryShort(_) => 24,
            TableFault::EntryReserved(_) => 25,
            TableFault::RingCount(_) => 26,
            TableFault::RingSize(_) => 27,
            TableFault::RingAlign(_) => 28,
            TableFault::SecondRpmsg(_) => 29,
        }
    }

    /// The number of the entry that the fault is about, from 0, where it is about one.
    pub fn index(self) -> Option<u16>
        ensures { result ≡ fault_index self }
    {
        match self {
            TableFault::EntryShort(index)
            | TableFault::EntryReserved(index)
            | TableFault::RingCount(index)
            | TableFault::RingSize(index)
            | TableFault::RingAlign(index)
            | TableFault::SecondRpmsg(index) => Some(index),
            _ => None,
        }
    }
}
