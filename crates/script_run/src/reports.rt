ghost use Rattle.std.specs.Prelude.{◌≡◌, ℕ, List, Option, IfOk, IfErr};
ghost use Rattle.rp_io.specs.Images.{IsStoreFault};
ghost use Rattle.script_run.specs.Outputs.{check as check_form};
ghost use Rattle.script_run.specs.Endings.{Ends, IsFinal, IsReportOutput, devices, source_with};
ghost use Rattle.script_run.specs.ImageReports.{made_output};

use crate::endings::{end_with, end_with_text};
use image_report::{ImageReport, refuse, report_image};
use journal::Notice;
use program_status::Status;
use rp_base::{Name, NoMemory};
use rp_io::{FirmwareStore, NoImage, Sink, StoreFault, look_up};
use std::alloc::Global;

/// Fetches the image of a name, and writes whether it loads.
pub(crate) fn check<F: FirmwareStore, K: Sink>(
    alloc: Global,
    word: &str,
    name: Name,
    store: &mut F,
    out: &mut K,
) -> Status
    requires { name ≡ word.now }
    ensures { (left : Option (List ℕ)) (faults : ℕ) → let at = devices (source_with left faults) F.FirmwareStore K.Sink tt in
        Ends result (check_form name) (at store.old out.old) (at store.new out.new) }
{
    match fetch_report(alloc, word, name, store) {
        Ok(report) => {
            let status = report_status(&report);
            end_with(alloc, report.notices.as_slice(), status, out)
        }
        Err(StoreFault::Failed) => end_with_text(b"* store fault\n", Status::StoreFault, out),
        Err(StoreFault::NoMemory) => Status::NoMemory,
    }
}

/// The report of what a store has under a name.
fn fetch_report<F: FirmwareStore>(
    alloc: Global,
    word: &str,
    name: Name,
    store: &mut F,
) -> Result<ImageReport, StoreFault>
    requires { name ≡ word.now }
    ensures report { IfOk result (λ report. IsReportOutput (F.images store.old) name (made_output report)) }
    ensures same { IfOk result (λ _. F.faults store.new ≡ F.faults store.old) }
    ensures fault { IfErr result (λ why. IsStoreFault why (F.faults store.old) (F.faults store.new)) }
{
    match look_up(alloc, store, word)? {
        Ok(image) => Ok(report_image(alloc, &image)?),
        Err(NoImage::Missing) => Ok(refuse(alloc, Notice::Missing(name))?),
        Err(NoImage::TooLarge(_)) => Ok(refuse(alloc, Notice::TooLarge(name))?),
    }
}

/// How the program ends once the lines of a report are written.
fn report_status(report: &ImageReport) -> Status
    ensures status { result ≡ (made_output report.now).status }
    ensures last { IsFinal result }
{
    if report.loads {
        Status::Done
    } else {
        Status::Unsound
    }
}
