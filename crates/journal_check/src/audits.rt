ghost use Rattle.std.specs.Prelude.{◌≡◌, ◌==◌, ◌∷◌, ◌<◌, length, position, IfOk};
ghost use Rattle.journal_check.specs.Lines.{lines_of};
ghost use Rattle.journal_check.specs.Audits.{IsAudit};

use crate::answers::Audit;
use crate::books::Book;
use rp_base::NoMemory;
use std::alloc::Global;

/// Whether the lines of a transcript keep the rules: how many lines there are, or the first line
/// that breaks a rule.
///
/// Errors: only if memory runs out.
pub fn audit(alloc: Global, bytes: &[u8]) -> Result<Audit, NoMemory>
    ensures exact { IfOk result (λ answer. IsAudit (lines_of bytes.now) answer) }
{
    let mut book = Book::new(alloc);
    let mut rest = bytes;
    let mut count = 0u64;
    while !rest.is_empty() {
        let (line, more) = cut_line(rest);
        count += 1;
        if let Some(rule) = book.take(alloc, line, more.is_empty())? {
            return Ok(Audit::Broken(count, rule));
        }
        rest = more;
    }
    Ok(Audit::Sound(count))
}

/// The first line of a text that isn't empty, and what comes after it.
fn cut_line(text: &[u8]) -> (&[u8], &[u8])
    requires { 0 < length text.now }
    ensures lines { lines_of text.now ≡ result.0.now ∷ lines_of result.1.now }
    ensures shorter { length result.1.now < length text.now }
{
    match first_feed(text) {
        Some(place) => text.split_at(place + 1),
        None => (text, &[]),
    }
}

/// The place of the first line feed.
fn first_feed(text: &[u8]) -> Option<usize>
    ensures { result ≡ position (λ byte. byte == 10) text.now }
{
    text.iter().position(|byte| *byte == b'\n')
}
