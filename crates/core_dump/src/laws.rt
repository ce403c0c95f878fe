//! What a dump says of its parts. The law is the contract of an empty function, and speaks of definitions alone.

ghost use Rattle.std.specs.Prelude.{◌≡◌, ℕ, ◌<◌, ◌^◌, List};
ghost use Rattle.core_dump.specs.Parts.{AreParts, MemoryPart};
ghost use Rattle.core_dump.specs.Dumps.{IsReadBack, dump_of};

/// A dump is read back as one list of parts, with one entry. So a dump that leaves parts out, or has them in another order, is not read back
/// as the parts of the core: its segments are other ones.
pub fn one_list_of_parts()
    ensures parts { (entry other_entry : ℕ) (parts others : List MemoryPart) (dump : List ℕ) → IsReadBack entry parts dump → IsReadBack other_entry others dump → parts ≡ others }
    ensures entry { (entry other_entry : ℕ) (parts others : List MemoryPart) (dump : List ℕ) → IsReadBack entry parts dump → IsReadBack other_entry others dump → entry ≡ other_entry }
    ensures written { (entry other_entry : ℕ) (parts written : List MemoryPart) → other_entry < 2 ^ 32 → AreParts written → IsReadBack entry parts (dump_of other_entry written) → parts ≡ written }
{}
