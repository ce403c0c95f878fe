ghost use Rattle.std.specs.Prelude.{◌≡◌, ◌+◌, ◌-◌, true, is_some};
ghost use Rattle.std.specs.List.{list_any};
ghost use Rattle.memory_pool.specs.Ranges.{lies_in, lies_within};
ghost use Rattle.memory_pool.specs.Soundness.{IsRange};
ghost use Rattle.fw_load.specs.Memory.{memory_at};
ghost use Rattle.board_file.specs.Boards.{AreAliases};
ghost use Rattle.load_findings.specs.Aliases.{address_through, read_through};
ghost use Rattle.load_findings.specs.LoadFaults.{lacks_through};
ghost use Rattle.load_findings.specs.Walks.{always_holds, is_block_memory, known_blocks};

use crate::gaps::range_end;
use board_file::Alias;
use memory_pool::{Block, Region};
use rp_base::Da;

/// The address that an address in an alias stands for.
fn address_behind(alias: &Alias, da: Da) -> Da
    requires range { IsRange alias.now.da alias.now.to alias.now.len }
    requires inside { lies_within da 1 alias.now.da alias.now.len ≡ true }
    ensures { result ≡ alias.now.to + (da - alias.now.da) }
{
    alias.to + (da - alias.da)
}

/// Whether a range lies in another.
fn lies_within(da: Da, len: u32, other: Da, other_len: u32) -> bool
    ensures { result ≡ lies_within da len other other_len }
{
    other <= da && range_end(da, len) <= range_end(other, other_len)
}

/// The first address of a range as the regions have it.
pub(crate) fn read_through(aliases: &[Alias], da: Da, len: u32) -> Da
    requires { AreAliases aliases.now }
    ensures { result ≡ read_through aliases.now da len }
{
    for alias in aliases {
        if lies_within(da, 1, alias.da, alias.len) && lies_within(da, len, alias.da, alias.len) {
            return address_behind(alias, da);
        }
    }
    da
}

/// The same where the address may be any.
pub(crate) fn address_through(aliases: &[Alias], da: Da, len: u32) -> Da
    requires { AreAliases aliases.now }
    ensures { result ≡ address_through aliases.now da len }
{
    if da == 0xffff_ffff {
        0xffff_ffff
    } else {
        read_through(aliases, da, len)
    }
}

/// Whether no memory holds a range whole, with its address as the regions have it. Where blocks are
/// not known, a region holds it whatever would be placed there.
#[tactic(auto, using(crate::proofs::Mapped::lacks_is))]
pub(crate) fn lacks(
    regions: &[Region],
    aliases: &[Alias],
    blocks: &[Block],
    known: bool,
    da: Da,
    len: u32,
) -> bool
    requires { AreAliases aliases.now }
    ensures { result ≡ lacks_through regions.now aliases.now (known_blocks known blocks.now) da len }
{
    let at = read_through(aliases, da, len);
    if known {
        !is_mapped(regions, blocks, at, len)
    } else {
        !is_held(regions, at, len)
    }
}

/// Whether a region holds a range.
fn is_held(regions: &[Region], da: Da, len: u32) -> bool
    ensures { result ≡ list_any (lies_in da len) regions.now }
{
    regions.iter().any(|region| region.holds(da, len))
}

/// Whether one block of memory holds a range whole.
#[tactic(auto, using(crate::proofs::Mapped::is_memory))]
fn is_mapped(regions: &[Region], blocks: &[Block], da: Da, len: u32) -> bool
    ensures { result ≡ is_some (memory_at regions.now blocks.now da len) }
{
    is_always_mapped(regions, da, len) || is_mapped_block(regions, blocks, da, len)
}

/// Whether a region that is always mapped holds a range.
fn is_always_mapped(regions: &[Region], da: Da, len: u32) -> bool
    ensures { result ≡ list_any (always_holds da len) regions.now }
{
    regions
        .iter()
        .any(|region| !region.is_pool() && region.holds(da, len))
}

/// Whether the first placed block or window that holds a range is memory.
fn is_mapped_block(regions: &[Region], blocks: &[Block], da: Da, len: u32) -> bool
    ensures { result ≡ is_block_memory regions.now blocks.now da len }
{
    for block in blocks {
        if lies_within(da, len, block.da, block.len) {
            return !block.is_window() && is_held(regions, block.da, block.len);
        }
    }
    false
}
