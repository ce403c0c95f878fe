//! How many entries of a book each caller has.
ghost use Rattle.std.specs.Prelude.{◌≡◌, ◌<◌, ℕ, All, slice_index};
ghost use Rattle.rp_base.specs.declared.limits.TheConstants.{CALLERS_MOST};
ghost use Rattle.storm_run.specs.Counts.{entry_count};

use lane_model::Book;
use rp_base::CALLERS_MOST;

/// How many entries of a book are of the caller of each number.
pub(crate) fn counts_in(book: &Book) -> [u32; CALLERS_MOST]
    requires { All (λ entry. entry.caller < CALLERS_MOST) book.now.entries }
    ensures { (caller : ℕ) → caller < CALLERS_MOST → slice_index result caller ≡ entry_count caller book.now.entries }
{
    let mut counts = [0; CALLERS_MOST];
    for number in 0..book.len() {
        match book.caller(number) {
            Some(caller) => counts[usize::from(caller)] += 1,
            None => unreachable!(),
        }
    }
    counts
}
