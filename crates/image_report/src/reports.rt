ghost use Rattle.std.specs.Prelude.{◌≡◌, ◌≢◌, ◌++◌, IfOk, OnOk, map};
ghost use Rattle.elf_image.specs.Segments.{segments_of};
ghost use Rattle.elf_image.specs.Images.{entry_of};
ghost use Rattle.fw_load.specs.declared.faults.LoadFault.TheVariants as load_fault;
ghost use Rattle.journal.specs.declared.notices.Notice.TheVariants as notice;
ghost use Rattle.image_report.specs.TableRows.{table_rows};
ghost use Rattle.image_report.specs.Reports.{IsImageReport, fault_notice, image_report, loads_report, refusal, segment_notice};

use crate::tables::table_rows;
use elf_image::{Image, Segments};
use fw_load::{LoadFault, Loaded, load_image};
use journal::{Notice, TableLine};
use memory_pool::Regions;
use rp_base::NoMemory;
use std::alloc::Global;

/// What is said of an image: whether it loads, and the lines that say so.
#[derive(Drop)]
pub struct ImageReport {
    /// Whether it loads.
    pub loads: bool,
    pub notices: Vec<Notice>,
}

/// The report of an image over the standard regions of a core: its entry, its loaded segments and the lines
/// of its table where it loads, and else the number and the index of its first fault.
///
/// Errors: only if memory runs out.
#[tactic(auto, unfolding(crate::specs::Reports::image_report))]
pub fn report_image(alloc: Global, bytes: &[u8]) -> Result<ImageReport, NoMemory>
    ensures { IfOk result (λ report. IsImageReport report (image_report bytes.now)) }
{
    let image = match Image::read(bytes) {
        Ok(image) => image,
        Err(fault) => return refuse(alloc, Notice::Fault(fault.number(), fault.index())),
    };
    let regions = Regions::standard(alloc)?;
    match load_image(alloc, bytes, &image, &regions) {
        Ok(loaded) => report_loaded(alloc, &image, &loaded),
        Err(fault) => refuse_load(alloc, fault),
    }
}

/// The report of an image that doesn't load, which is this one line.
///
/// Errors: only if memory runs out.
pub fn refuse(alloc: Global, notice: Notice) -> Result<ImageReport, NoMemory>
    ensures { IfOk result (λ report. IsImageReport report (refusal notice)) }
{
    Ok(ImageReport {
        loads: false,
        notices: vec![in alloc; notice]?,
    })
}

/// The report of an image that a load refuses. Want of memory is no refusal.
fn refuse_load(alloc: Global, fault: LoadFault) -> Result<ImageReport, NoMemory>
    ensures report { IfOk result (λ report. IsImageReport report (refusal (fault_notice fault))) }
    ensures number { IfOk result (λ _. fault ≢ load_fault.NoMemory) }
{
    match fault.number() {
        Some(number) => refuse(alloc, Notice::Fault(number, fault.index())),
        None => Err(NoMemory),
    }
}

/// The report of an image that loads: its entry, its loaded segments, and the lines of its table.
fn report_loaded(alloc: Global, image: &Image<'_>, loaded: &Loaded) -> Result<ImageReport, NoMemory>
    ensures { IfOk result (λ report. IsImageReport report
        (loads_report (entry_of image.now) (segments_of image.now) (table_rows loaded.now.table loaded.now.traces.items))) }
{
    let mut notices = vec![in alloc; Notice::Start(image.entry())]?;
    let rows = table_rows(alloc, &loaded.table, &loaded.traces)?;
    push_lines(&mut notices, image.segments(), &rows)?;
    notices.push(Notice::Loads)?;
    Ok(ImageReport {
        loads: true,
        notices,
    })
}

/// The lines of loaded segments, then those of a table.
fn push_lines(
    notices: &mut Vec<Notice>,
    segments: Segments<'_>,
    rows: &[TableLine],
) -> Result<(), NoMemory>
    ensures { OnOk result (notices.new.items ≡ notices.old.items ++ map segment_notice segments.entry ++ map notice.Table rows.now) }
{
    for segment in segments {
        let file_len = segment.file.len() as u64;
        let notice = Notice::Segment(segment.index, segment.da, file_len, segment.memory_len);
        notices.push(notice)?;
    }
    for row in rows {
        notices.push(Notice::Table(*row))?;
    }
    Ok(())
}
