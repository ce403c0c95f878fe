ghost use Rattle.std.specs.Prelude.{◌≡◌, map};
ghost use Rattle.memory_pool.specs.Ranges.{ranges_meet};
ghost use Rattle.script_lang.specs.Lines.{is_skipped};
ghost use Rattle.board_file.specs.Boards.{is_wrong_range};
ghost use Rattle.board_file.specs.declared.troubles.LineFault.TheVariants as fault;

use crate::PARTS_MOST;
use crate::lines::{alias_in, name_text, region_in};
use crate::machines::machine_of;
use crate::troubles::{LineFault, Trouble, Why};
use memory_pool::Region;
use rp_base::{Da, Pa};
use std::alloc::Global;
use std::marker::Model;
use word_kinds::word_at;

/// The address after the last one.
const ADDRESSES_END: u64 = 4_294_967_296;

/// Device addresses at which other device addresses are seen a second time.
#[derive(Clone, Copy)]
pub struct Alias {
    /// Its first device address.
    pub da: Da,
    /// How many bytes it has.
    pub len: u32,
    /// The device address of its first byte as a region has it.
    pub to: Da,
}

/// The memory of a board. Contracts see its name, its machine, its regions and its aliases.
#[derive(Drop)]
pub struct Board {
    name: Vec<u8>,
    machine: Option<u16>,
    regions: Vec<Region>,
    aliases: Vec<Alias>,
}

impl Model for Board {
    ghost use Rattle.board_file.specs.Boards.{BoardSaid, SoundBoard};

    ghost Value = { BoardSaid };

    ghost view = { λ b. record { name = b.name.items; machine = b.machine; regions = b.regions.items; aliases = b.aliases.items } };

    ghost invariant = { λ b. SoundBoard (record { name = b.name.items; machine = b.machine; regions = b.regions.items; aliases = b.aliases.items }) };
}

impl Board {
    ghost use Rattle.std.specs.Prelude.{◌≡◌, map};
    ghost use Rattle.std.specs.Result.{result_err};
    ghost use Rattle.std.specs.List.{list_any};
    ghost use Rattle.memory_pool.specs.Ranges.{meets_region};
    ghost use Rattle.board_file.specs.Boards.{SoundBoard, alias_trouble, device_meets, meets_alias, no_board, physical_meets, region_trouble};
    ghost use Rattle.board_file.specs.Lines.{alias_in, keyword_step, region_in, with_alias, with_machine, with_name, with_region, words_step};
    ghost use Rattle.memory_pool.specs.Placements.{then_ok};
    ghost use Rattle.board_file.specs.Texts.{IsTaken};

    /// A board of which nothing is said.
    pub(crate) fn new(alloc: Global) -> Board
        ensures { result ≡ no_board }
    {
        Board {
            name: Vec::new(alloc),
            machine: None,
            regions: Vec::new(alloc),
            aliases: Vec::new(alloc),
        }
    }

    /// What it is called, in any bytes; empty where its file has no `name`.
    pub fn name(&self) -> &[u8]
        ensures { result.now ≡ self.now.name }
    {
        &self.name
    }

    /// What `e_machine` of its images has to be, where its file says so.
    pub fn machine(&self) -> Option<u16>
        ensures { result ≡ self.now.machine }
    {
        self.machine
    }

    /// Its regions in the order of the file.
    pub fn regions(&self) -> &[Region]
        ensures regions { result.now ≡ self.now.regions }
        ensures sound { SoundBoard self.now }
    {
        &self.regions
    }

    /// Its aliases in the order of the file.
    pub fn aliases(&self) -> &[Alias]
        ensures aliases { result.now ≡ self.now.aliases }
        ensures sound { SoundBoard self.now }
    {
        &self.aliases
    }

    /// Takes a line of these words, of which the first nine are given.
    pub(crate) fn take(&mut self, line: &[u8], words: &[&[u8]]) -> Result<(), LineFault>
        ensures { IsTaken (words_step self.old line.now (map (λ word. word.now) words.now)) self.new result }
    {
        if is_skipped(words) {
            return Ok(());
        }
        self.take_words(line, words)
    }

    /// Takes a line that says something.
    fn take_words(&mut self, line: &[u8], words: &[&[u8]]) -> Result<(), LineFault>
        ensures { IsTaken (keyword_step self.old line.now (map (λ word. word.now) words.now)) self.new result }
    {
        let keyword = word_at(words, 0);
        if keyword == b"region".as_slice() {
            return self.take_region(words);
        }
        if keyword == b"alias".as_slice() {
            return self.take_alias(words);
        }
        if keyword == b"name".as_slice() {
            return self.set_name(line, words);
        }
        if keyword == b"machine".as_slice() {
            return self.set_machine(words);
        }
        Err(trouble(0, Why::Keyword))
    }

    /// Takes the region of a line.
    fn take_region(&mut self, words: &[&[u8]]) -> Result<(), LineFault>
        ensures { IsTaken (then_ok (with_region self.old) (region_in (map (λ word. word.now) words.now))) self.new result }
    {
        match region_in(words) {
            Ok(region) => self.add_region(region),
            Err(wrong) => Err(LineFault::Bad(wrong)),
        }
    }

    /// Takes the alias of a line.
    fn take_alias(&mut self, words: &[&[u8]]) -> Result<(), LineFault>
        ensures { IsTaken (then_ok (with_alias self.old) (alias_in (map (λ word. word.now) words.now))) self.new result }
    {
        match alias_in(words) {
            Ok(alias) => self.add_alias(alias),
            Err(wrong) => Err(LineFault::Bad(wrong)),
        }
    }

    /// Adds a region.
    fn add_region(&mut self, region: Region) -> Result<(), LineFault>
        ensures { IsTaken (with_region self.old region) self.new result }
    {
        self.test_region(&region)?;
        self.regions.push(region)?;
        Ok(())
    }

    /// Adds an alias.
    fn add_alias(&mut self, alias: Alias) -> Result<(), LineFault>
        ensures { IsTaken (with_alias self.old alias) self.new result }
    {
        self.test_alias(&alias)?;
        self.aliases.push(alias)?;
        Ok(())
    }

    /// Sets the name that a line says.
    fn set_name(&mut self, line: &[u8], words: &[&[u8]]) -> Result<(), LineFault>
        ensures { IsTaken (with_name self.old line.now (map (λ word. word.now) words.now)) self.new result }
    {
        if words.len() == 1 {
            return Err(trouble(0, Why::Words));
        }
        if !self.name.is_empty() {
            return Err(trouble(0, Why::Repeated));
        }
        self.name.extend_from_slice(name_text(line))?;
        Ok(())
    }

    /// Sets the machine that a line says.
    fn set_machine(&mut self, words: &[&[u8]]) -> Result<(), LineFault>
        ensures { IsTaken (with_machine self.old (map (λ word. word.now) words.now)) self.new result }
    {
        if words.len() != 2 {
            return Err(trouble(0, Why::Words));
        }
        if self.machine.is_some() {
            return Err(trouble(0, Why::Repeated));
        }
        match machine_of(word_at(words, 1)) {
            None => Err(trouble(1, Why::Machine)),
            Some(machine) => {
                self.machine = Some(machine);
                Ok(())
            }
        }
    }

    /// Tests a region that is to be added.
    fn test_region(&self, region: &Region) -> Result<(), Trouble>
        ensures { result_err result ≡ region_trouble self.now region.now }
    {
        if self.regions.len() >= PARTS_MOST {
            return Err(Trouble {
                word: 0,
                why: Why::Full,
            });
        }
        if is_wrong_range(region.da, region.pa, region.len) {
            return Err(Trouble {
                word: 4,
                why: Why::Range,
            });
        }
        if self.device_meets(region.da, region.len) {
            return Err(Trouble {
                word: 2,
                why: Why::DeviceMeets,
            });
        }
        if self.physical_meets(region.pa, region.len) {
            return Err(Trouble {
                word: 3,
                why: Why::PhysicalMeets,
            });
        }
        Ok(())
    }

    /// Tests an alias that is to be added.
    fn test_alias(&self, alias: &Alias) -> Result<(), Trouble>
        ensures { result_err result ≡ alias_trouble self.now alias.now }
    {
        if self.aliases.len() >= PARTS_MOST {
            return Err(Trouble {
                word: 0,
                why: Why::Full,
            });
        }
        if is_wrong_range(alias.da, alias.to, alias.len) {
            return Err(Trouble {
                word: 2,
                why: Why::Range,
            });
        }
        if self.device_meets(alias.da, alias.len) {
            return Err(Trouble {
                word: 1,
                why: Why::DeviceMeets,
            });
        }
        Ok(())
    }

    /// Whether device addresses meet those of a region or of an alias.
    fn device_meets(&self, da: Da, len: u32) -> bool
        ensures { result ≡ device_meets self.now da len }
    {
        self.regions_meet(da, len) || self.aliases_meet(da, len)
    }

    /// Whether device addresses meet those of a region.
    fn regions_meet(&self, da: Da, len: u32) -> bool
        ensures { result ≡ list_any (meets_region da len) self.now.regions }
    {
        self.regions
            .iter()
            .any(|region| ranges_meet(da, len, region.da, region.len))
    }

    /// Whether device addresses meet those of an alias.
    fn aliases_meet(&self, da: Da, len: u32) -> bool
        ensures { result ≡ list_any (meets_alias da len) self.now.aliases }
    {
        self.aliases
            .iter()
            .any(|alias| ranges_meet(da, len, alias.da, alias.len))
    }

    /// Whether physical addresses meet those of a region.
    fn physical_meets(&self, pa: Pa, len: u32) -> bool
        ensures { result ≡ physical_meets self.now pa len }
    {
        self.regions
            .iter()
            .any(|region| ranges_meet(pa, len, region.pa, region.len))
    }
}

/// The fault of a line whose word in a place is wrong.
fn trouble(word: u8, why: Why) -> LineFault
    ensures { result ≡ fault.Bad (record { word = word; why = why }) }
{
    LineFault::Bad(Trouble { word, why })
}

/// Whether a line of these words says nothing: it has none, or the first begins with `#`.
fn is_skipped(words: &[&[u8]]) -> bool
    ensures { result ≡ is_skipped (map (λ word. word.now) words.now) }
{
    match words {
        [] => true,
        [word, ..] => word.first() == Some(&b'#'),
    }
}

/// Whether a range is empty or ends past the addresses.
fn is_wrong_range(da: Da, pa: Pa, len: u32) -> bool
    ensures { result ≡ is_wrong_range da pa len }
{
    len == 0
        || u64::from(da) + u64::from(len) > ADDRESSES_END
        || u64::from(pa) + u64::from(len) > ADDRESSES_END
}

/// Whether two ranges that are not empty have an address in common.
fn ranges_meet(start: u32, len: u32, other: u32, other_len: u32) -> bool
    ensures { result ≡ ranges_meet start len other other_len }
{
    u64::from(start) < u64::from(other) + u64::from(other_len)
        && u64::from(other) < u64::from(start) + u64::from(len)
}
