ghost use Rattle.std.specs.Prelude.{◌≡◌, ◌≤◌, ◌+◌, ℕ, List, [], ◌∷◌, Option, length};
ghost use Rattle.std.specs.Io.KnownBytes.{IsAtEnd};
ghost use Rattle.rp_io.specs.Contents.{LosesFront};
ghost use Rattle.journal_check.specs.declared.limits.TheConstants.{TRANSCRIPT_MOST};
ghost use Rattle.journal.specs.Notices.{report_text};
ghost use Rattle.script_run.specs.Outputs.{audit as audit_form, audit_output};
ghost use Rattle.script_run.specs.Endings.{AuditEnds, Ends, IsFinal, IsReadEnd, devices, store_with};

use crate::endings::{end_with, end_with_text};
use journal::Notice;
use journal_check::{Audit, TRANSCRIPT_MOST, audit};
use program_status::Status;
use rp_base::NoMemory;
use rp_io::{ReadFault, Sink, Source, read_front};
use std::alloc::Global;
use word_kinds::Cause;

/// Reads a transcript, and writes whether its lines keep the rules.
pub(crate) fn audit_text<S: Source, K: Sink>(
    alloc: Global,
    transcript: &mut S,
    out: &mut K,
) -> Status
    ensures ends { (images : Option (List (List ℕ × List ℕ))) (faults : ℕ) → let at = devices S.Source (store_with images faults) K.Sink in
        Ends result audit_form (at transcript.old tt out.old) (at transcript.new tt out.new) }
    ensures read { IsReadEnd result → IsAtEnd (S.left transcript.new) }
    ensures taken { LosesFront (S.left transcript.old) (S.left transcript.new) (TRANSCRIPT_MOST + 1) }
{
    match read_front(alloc, transcript, TRANSCRIPT_MOST) {
        Ok(bytes) => audit_bytes(alloc, &bytes, out),
        Err(ReadFault::Failed) => end_with_text(b"* read fault\n", Status::ReadFault, out),
        Err(ReadFault::NoMemory) => Status::NoMemory,
    }
}

/// Audits the transcript of these bytes, and writes what was found.
fn audit_bytes<K: Sink>(alloc: Global, bytes: &[u8], out: &mut K) -> Status
    ensures ends { AuditEnds result bytes.now (K.written out.old) (K.written out.new) (K.faults out.old) (K.faults out.new) }
    ensures fits { IsReadEnd result → length bytes.now ≤ TRANSCRIPT_MOST }
{
    if bytes.len() > TRANSCRIPT_MOST {
        let refusal = Notice::Refused(0, Cause::Size);
        return end_with(alloc, &[refusal], Status::Refused, out);
    }
    match audit(alloc, bytes) {
        Ok(answer) => end_with(alloc, &[audit_notice(answer)], audit_status(answer), out),
        Err(NoMemory) => Status::NoMemory,
    }
}

/// The line of an audit.
fn audit_notice(answer: Audit) -> Notice
    ensures { report_text (result ∷ []) ≡ (audit_output answer).text }
{
    match answer {
        Audit::Sound(lines) => Notice::Sound(lines),
        Audit::Broken(line, rule) => Notice::Broken(line, rule),
    }
}

/// How the program ends once the line of an audit is written.
fn audit_status(answer: Audit) -> Status
    ensures status { result ≡ (audit_output answer).status }
    ensures last { IsFinal result }
{
    match answer {
        Audit::Sound(_) => Status::Done,
        Audit::Broken(_, _) => Status::Unsound,
    }
}
