ghost use Rattle.std.specs.Prelude.{◌≡◌, ◌≤◌};
ghost use Rattle.rp_base.specs.Limits.{is_ring_size, ring_capacity};

/// The most bytes of a message, which is the size of a buffer.
pub const MESSAGE_MOST: usize = 512;

/// The most bytes of a message after its header of 16.
pub const PAYLOAD_MOST: usize = 496;

/// The most bytes of a name.
pub const NAME_MOST: usize = 31;

/// The most entries of a ring.
pub const RING_MOST: u32 = 32_768;

/// The most buffers of a lane, however many entries its ring has.
pub const CAPACITY_MOST: u32 = 256;

/// The most messages that a lane accepts in one incarnation.
pub const BOOK_MOST: u32 = 262_144;

/// The most callers of a link.
pub const CALLERS_MOST: usize = 64;

/// The most endpoints of an end.
pub const ENDPOINTS_MOST: usize = 256;

/// The most channels of an end.
pub const CHANNELS_MOST: usize = 64;

/// The most bytes of a script.
pub const SCRIPT_MOST: usize = 1_048_576;

/// The most lines of a script.
pub const SCRIPT_LINES_MOST: usize = 10_000;

/// The most links and cores of a script together.
pub const OBJECTS_MOST: usize = 8;

/// The most steps of a run.
pub const STEPS_MOST: u64 = 4_000_000;

/// The most bytes of a firmware image: 4 MiB.
pub const IMAGE_MOST: usize = 4_194_304;

/// The bytes of a core's standard memory, which begins at device address 0.
pub const STANDARD_MEMORY: u32 = 65_536;

/// Whether a ring may have so many entries: a power of two from 1 to [`RING_MOST`].
pub fn is_ring_size(entries: u32) -> bool
    ensures { result ≡ is_ring_size entries }
{
    entries.is_power_of_two() && entries <= RING_MOST
}

/// How many buffers a lane has whose ring has so many entries: as many, but at most
/// [`CAPACITY_MOST`].
pub fn ring_capacity(entries: u32) -> u16
    ensures capacity { result ≡ ring_capacity entries }
    ensures most { result ≤ CAPACITY_MOST }
{
    entries.min(CAPACITY_MOST) as u16
}
