ghost use Rattle.std.specs.Prelude.{◌≡◌, ◌+◌, ◌≤◌, length};
ghost use Rattle.resource_table.specs.Entries.{type_of, type_at};
ghost use Rattle.resource_table.specs.Tables.{fixed_size};

use rp_base::u32_at;

const RSC_CARVEOUT: u32 = 0;

const RSC_DEVMEM: u32 = 1;

const RSC_TRACE: u32 = 2;

const RSC_VDEV: u32 = 3;

/// The types of entries that are read (`enum fw_resource_type` of `remoteproc.h`).
#[derive(Clone, Copy)]
pub(crate) enum ResourceType {
    Carveout,
    Devmem,
    Trace,
    Vdev,
    /// One that is skipped.
    Other,
}

impl ResourceType {
    /// The type that a number names.
    fn of(number: u32) -> ResourceType
        ensures { result ≡ type_of number }
    {
        match number {
            RSC_CARVEOUT => ResourceType::Carveout,
            RSC_DEVMEM => ResourceType::Devmem,
            RSC_TRACE => ResourceType::Trace,
            RSC_VDEV => ResourceType::Vdev,
            _ => ResourceType::Other,
        }
    }

    /// The type of the entry that begins at a place.
    pub(crate) fn at(bytes: &[u8], start: usize) -> ResourceType
        requires { start + 4 ≤ length bytes.now }
        ensures { result ≡ type_at bytes.now start }
    {
        ResourceType::of(u32_at(bytes, start))
    }

    /// The bytes of the fixed part of an entry.
    pub(crate) fn fixed_size(self) -> usize
        ensures { result ≡ fixed_size self }
    {
        match self {
            ResourceType::Carveout | ResourceType::Devmem => 56,
            ResourceType::Trace => 48,
            ResourceType::Vdev => 28,
            ResourceType::Other => 4,
        }
    }
}
