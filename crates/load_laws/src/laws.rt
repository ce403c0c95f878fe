//! Laws of loads. Each is the contract of an empty function, and speaks of definitions alone.

ghost use Rattle.std.specs.Prelude.{◌≡◌, ℕ, true, List, Some, Ok, IfSome, is_some, slice_index};
ghost use Rattle.resource_table.specs.Entries.{entries_of};
ghost use Rattle.resource_table.specs.PatchedEntries.{patched_entries};
ghost use Rattle.resource_table.specs.Tables.{GoodTable};
ghost use Rattle.memory_pool.specs.Faults.{region_fault_number};
ghost use Rattle.memory_pool.specs.Placements.{placement};
ghost use Rattle.memory_pool.specs.Regions.{region_fault};
ghost use Rattle.memory_pool.specs.Soundness.{SoundRegions};
ghost use Rattle.memory_pool.specs.declared.blocks.Block.{Block};
ghost use Rattle.memory_pool.specs.declared.regions.Region.{Region};
ghost use Rattle.fw_load.specs.Faults.{load_fault_number};
ghost use Rattle.fw_load.specs.Loading.{IsLoaded, Loads, load_fault};
ghost use Rattle.fw_load.specs.declared.loading.Loaded.{Loaded};
ghost use Rattle.fw_load.specs.Memory.{memory_at, memory_of};
ghost use Rattle.fw_load.specs.Tables.{entries_in, fixes_of, patched_in, table_of};
ghost use Rattle.load_laws.specs.Parts.{FitsRegions};
ghost use Rattle.load_laws.specs.LoadedBytes.{loaded_byte};
ghost use Rattle.load_laws.specs.RingPlaces.{HasBlocks};

/// An image loads exactly where it is a good one, its table is too, all that the table asks for is placed, and one block of memory holds each
/// segment whole and the 16 bytes at the entry.
pub fn loads_by_parts()
    ensures parts { (image : List ℕ) (regions : List Region) → SoundRegions regions → Loads image regions → FitsRegions image regions }
    ensures whole { (image : List ℕ) (regions : List Region) → SoundRegions regions → FitsRegions image regions → Loads image regions }
{}

/// Each fault for which an image isn't loaded, or a region not added, has a number. So it isn't that memory ran out, and has no such fault
/// inside: where memory runs out, this is the whole answer.
pub fn refused_by_number()
    ensures image { (image : List ℕ) (regions : List Region) → IfSome (load_fault image regions) (λ why. is_some (load_fault_number why) ≡ true) }
    ensures region { (regions : List Region) (region : Region) → IfSome (region_fault regions region) (λ why. is_some (region_fault_number why) ≡ true) }
{}

/// At each device address that a block of memory holds is, after a load, the byte of the patched table where it was copied, else that of
/// the last segment that covers it, else zero.
pub fn byte_by_byte()
    ensures { (image : List ℕ) (regions : List Region) (placed : List Block) (da place : ℕ) → SoundRegions regions → Loads image regions
        → placement regions (entries_in (table_of image)) ≡ Ok placed → memory_at regions placed da 1 ≡ Some place
        → slice_index (memory_of image regions placed) place ≡ loaded_byte image regions placed da }
{}

/// The table of an image that loads is a good table once it is patched, and its entries are those of the table with the places of the blocks
/// in their fields and the device for RPMsg set up.
pub fn patched_table()
    ensures good { (image table : List ℕ) (regions : List Region) (placed : List Block) → SoundRegions regions → Loads image regions
        → table_of image ≡ Some table → placement regions (entries_in (table_of image)) ≡ Ok placed → GoodTable (patched_in (table_of image) placed) }
    ensures entries { (image table : List ℕ) (regions : List Region) (placed : List Block) → SoundRegions regions → Loads image regions
        → table_of image ≡ Some table → placement regions (entries_in (table_of image)) ≡ Ok placed
        → entries_of (patched_in (table_of image) placed) ≡ patched_entries (fixes_of (entries_of table) placed) (entries_of table) }
{}

/// The rings that a load gives, which are those of its patched table, and their buffers are in blocks that were placed for them, at the
/// addresses that they name.
pub fn rings_of_table()
    ensures { (image : List ℕ) (regions : List Region) (loaded : Loaded) → SoundRegions regions → Loads image regions → IsLoaded image regions loaded
        → IfSome loaded.rings (HasBlocks loaded.placed.blocks.items) }
{}
