ghost use Rattle.std.specs.Prelude.{◌≡◌, ◌++◌, [], IfOk, OnOk};
ghost use Rattle.fw_load.specs.Loading.{load_fault};
ghost use Rattle.board_file.specs.Boards.{AreAliases, AreRanges};
ghost use Rattle.load_findings.specs.LoadFaults.{board_fault, first_of, load_faults, place_faults, unheld_in};
ghost use Rattle.load_findings.specs.Walks.{known_blocks, outcome_in};

use crate::held::lacks;
use crate::placing::{Placing, place_all};
use crate::reading::read_table;
use board_file::Alias;
use elf_image::Image;
use fw_load::LoadFault;
use memory_pool::{Block, Region};
use rp_base::NoMemory;
use std::alloc::Global;

/// How many bytes at the entry are to be in memory.
const ENTRY_LEN: u32 = 16;

/// The faults that keep an image from being loaded on a board, in order; none where it loads. The
/// first is the one of a load; those after it do not rest on it: after a fault of the image there is
/// none, after one of its table or of the placement each other refusal of the placement, and each
/// segment and the entry that no region holds, whatever is placed there.
///
/// Errors: only for want of memory.
pub fn load_faults(
    alloc: Global,
    bytes: &[u8],
    regions: &[Region],
    aliases: &[Alias],
) -> Result<Vec<LoadFault>, NoMemory>
    requires regions { AreRanges regions.now }
    requires aliases { AreAliases aliases.now }
    ensures faults { IfOk result (λ faults. faults.items ≡ load_faults bytes.now regions.now aliases.now) }
    ensures first { IfOk result (λ faults. first_of faults.items ≡ board_fault bytes.now regions.now aliases.now) }
    ensures plain { aliases.now ≡ [] → IfOk result (λ faults. first_of faults.items ≡ load_fault bytes.now regions.now) }
{
    let faults = found_faults(alloc, bytes, regions, aliases)?;
    Ok(faults)
}

/// The faults of an image on a board, in order.
fn found_faults(
    alloc: Global,
    bytes: &[u8],
    regions: &[Region],
    aliases: &[Alias],
) -> Result<Vec<LoadFault>, NoMemory>
    requires regions { AreRanges regions.now }
    requires aliases { AreAliases aliases.now }
    ensures { IfOk result (λ faults. faults.items ≡ load_faults bytes.now regions.now aliases.now) }
{
    let mut faults = Vec::new(alloc);
    match Image::read(bytes) {
        Err(fault) => faults.push(LoadFault::Elf(fault))?,
        Ok(image) => match read_table(bytes, image.section(".resource_table")) {
            Err(fault) => {
                faults.push(LoadFault::Table(fault))?;
                push_unheld(&mut faults, &image, regions, aliases, &[], false)?;
            }
            Ok(table) => {
                let placing = place_all(alloc, regions, aliases, &table)?;
                push_place_faults(&mut faults, &image, regions, aliases, &placing)?;
            }
        },
    }
    Ok(faults)
}

/// Appends all refusals of a placement, and then what rests on none of them.
fn push_place_faults(
    faults: &mut Vec<LoadFault>,
    image: &Image<'_>,
    regions: &[Region],
    aliases: &[Alias],
    placing: &Placing,
) -> Result<(), NoMemory>
    requires { AreAliases aliases.now }
    ensures { OnOk result (faults.new.items ≡ faults.old.items ++ place_faults image.now regions.now aliases.now (outcome_in placing.now)) }
{
    for refused in &placing.refused {
        faults.push(LoadFault::Place(*refused))?;
    }
    let known = placing.refused.is_empty();
    push_unheld(faults, image, regions, aliases, &placing.blocks, known)
}

/// Appends the segments that no memory holds, and the entry where none holds its record.
fn push_unheld(
    faults: &mut Vec<LoadFault>,
    image: &Image<'_>,
    regions: &[Region],
    aliases: &[Alias],
    blocks: &[Block],
    known: bool,
) -> Result<(), NoMemory>
    requires { AreAliases aliases.now }
    ensures { OnOk result (faults.new.items ≡ faults.old.items ++ unheld_in image.now regions.now aliases.now (known_blocks known blocks.now)) }
{
    for segment in image.segments() {
        if lacks(
            regions,
            aliases,
            blocks,
            known,
            segment.da,
            segment.memory_len,
        ) {
            faults.push(LoadFault::SegmentUnmapped(segment.index))?;
        }
    }
    if lacks(regions, aliases, blocks, known, image.entry(), ENTRY_LEN) {
        faults.push(LoadFault::EntryUnmapped)?;
    }
    Ok(())
}
