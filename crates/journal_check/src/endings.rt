ghost use Rattle.std.specs.Prelude.{◌≡◌, ◌↔◌, IfOk, IfSome, IsTrue, None, Some, ℕ, ◌<◌, ◌^◌};
ghost use Rattle.journal.specs.declared.notices.Notice.{Notice};
ghost use Rattle.journal.specs.Notices.{notice_line, cause_text};
ghost use Rattle.word_kinds.specs.declared.causes.Cause.{Cause};
ghost use Rattle.journal_check.specs.Readings.{IsEnding};

use journal::{Notice, push_notice};
use rp_base::NoMemory;
use std::alloc::Global;
use word_kinds::{Cause, WORDS_MOST, decimal_at, first_words, word_at};

/// The notice whose line these bytes are, of those that end a transcript.
pub(crate) fn ending_of(alloc: Global, bytes: &[u8]) -> Result<Option<Notice>, NoMemory>
    ensures some { IfOk result (λ found. IfSome found (λ notice. IsEnding notice × (notice_line notice ≡ bytes.now))) }
    ensures none { IfOk result (λ found. found ≡ None → (notice : Notice) → IsEnding notice → notice_line notice ≡ bytes.now → ⊥) }
{
    if bytes == b"* read fault\n".as_slice() {
        return Ok(Some(Notice::ReadFault));
    }
    if bytes == b"* store fault\n".as_slice() {
        return Ok(Some(Notice::StoreFault));
    }
    if bytes == b"* step limit\n".as_slice() {
        return Ok(Some(Notice::StepLimit));
    }
    let Some(notice) = refusal_in(bytes) else {
        return Ok(None);
    };
    if is_line_of(alloc, &notice, bytes)? {
        Ok(Some(notice))
    } else {
        Ok(None)
    }
}

/// The refusal that the words of a line say, whose line may still be another.
fn refusal_in(bytes: &[u8]) -> Option<Notice>
    ensures some { IfSome result IsEnding }
    ensures back { (line : ℕ) (why : Cause) → line < 2 ^ 32 → notice_line (Notice.Refused line why) ≡ bytes.now → result ≡ Some (Notice.Refused line why) }
{
    let [text @ .., _end] = bytes else {
        return None;
    };
    let mut words = [b"".as_slice(); WORDS_MOST];
    let count = first_words(text, &mut words);
    let why = cause_of(word_at(&words[..count], 3))?;
    let line = decimal_at(&words[..count], 2) % 4_294_967_296;
    Some(Notice::Refused(line as u32, why))
}

/// The cause that a word says.
fn cause_of(word: &[u8]) -> Option<Cause>
    ensures { (why : Cause) → cause_text why ≡ word.now → result ≡ Some why }
{
    match word {
        b"size" => Some(Cause::Size),
        b"lines" => Some(Cause::Lines),
        b"byte" => Some(Cause::Byte),
        b"block" => Some(Cause::Block),
        b"command" => Some(Cause::Command),
        b"words" => Some(Cause::Words),
        b"value" => Some(Cause::Value),
        _ => None,
    }
}

/// Whether these bytes are the line of a notice.
fn is_line_of(alloc: Global, notice: &Notice, bytes: &[u8]) -> Result<bool, NoMemory>
    ensures { IfOk result (λ same. IsTrue same ↔ notice_line notice.now ≡ bytes.now) }
{
    let mut written = Vec::new(alloc);
    push_notice(alloc, notice, &mut written)?;
    Ok(written.as_slice() == bytes)
}
