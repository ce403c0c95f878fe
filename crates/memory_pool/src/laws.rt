//! Laws of placements. Each is the contract of an empty function, and speaks of definitions alone.

ghost use Rattle.std.specs.Prelude.{◌≡◌, List, Ok, All};
ghost use Rattle.resource_table.specs.declared.entries.Entry.{Entry};
ghost use Rattle.resource_table.specs.Tables.{IsSoundEntry};
ghost use Rattle.memory_pool.specs.Placements.{placement};
ghost use Rattle.memory_pool.specs.Soundness.{SoundPlacement, SoundRegions};
ghost use Rattle.memory_pool.specs.declared.blocks.Block.{Block};
ghost use Rattle.memory_pool.specs.declared.regions.Region.{Region};

/// Blocks of memory lie in pools, windows meet no region, and no two blocks or windows meet.
pub fn placed_apart()
    ensures { (regions : List Region) (entries : List Entry) (blocks : List Block)
        → SoundRegions regions → All IsSoundEntry entries → placement regions entries ≡ Ok blocks → SoundPlacement regions blocks }
{}
