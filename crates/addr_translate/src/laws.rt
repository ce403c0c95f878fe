//! Laws of maps. Each is the contract of an empty function, and speaks of definitions alone.

ghost use Rattle.std.specs.Prelude.{◌≡◌, ℕ, ◌≤◌, ◌<◌, true, List, length, slice_index_or};
ghost use Rattle.memory_pool.specs.Soundness.{SoundPlacement, SoundRegions};
ghost use Rattle.memory_pool.specs.declared.blocks.Block.{Block};
ghost use Rattle.memory_pool.specs.declared.regions.Region.{Region};
ghost use Rattle.addr_translate.specs.Mapped.{mapped_blocks};
ghost use Rattle.addr_translate.specs.Maps.{IsMapOf, Mapping, holds, translate, translation};
ghost use Rattle.addr_translate.specs.OrderedMaps.{AreApart};
ghost use Rattle.addr_translate.specs.declared.mapped.Mapped.{Mapped};

/// At most one mapped block holds a range of device addresses.
pub fn one_block()
    ensures apart { (regions : List Region) (placed : List Block) → SoundRegions regions → SoundPlacement regions placed
        → AreApart (mapped_blocks regions placed) }
    ensures one { (regions : List Region) (placed : List Block) → SoundRegions regions → SoundPlacement regions placed
        → let mapped = mapped_blocks regions placed in
        (da len i j : ℕ) (d : Mapped) → 1 ≤ len → i < length mapped → j < length mapped
        → holds da len (slice_index_or mapped i d) ≡ true → holds da len (slice_index_or mapped j d) ≡ true → i ≡ j }
{}

/// A map says of a range of device addresses where it is by the regions and by what was placed
/// among them.
pub fn any_order()
    ensures { (regions : List Region) (placed : List Block) (map : Mapping) → SoundRegions regions → SoundPlacement regions placed
        → IsMapOf regions placed map → (da len : ℕ) → 1 ≤ len → translate map da len ≡ translation regions placed da len }
{}
