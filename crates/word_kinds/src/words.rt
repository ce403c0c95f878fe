ghost use Rattle.std.specs.Prelude.{◌≡◌, ◌≤◌, length, map, take};
ghost use Rattle.word_kinds.specs.Spellings.{words_of};

use crate::cuts::cut_at;

/// How many words of a line are looked at: as many as the longest form of transcript lines has. The
/// forms of scripts have fewer.
pub const WORDS_MOST: usize = 9;

/// The first nine words of a line, or all where there are fewer, and how many these are.
pub fn first_words<'a>(line: &'a [u8], words: &mut [&'a [u8]; 9]) -> usize
    ensures most { result ≤ 9 }
    ensures places { length words.new ≡ 9 }
    ensures words { map (λ word. word.now) (take result words.new) ≡ take 9 (words_of line.now) }
{
    let mut count = 0;
    let mut rest = line;
    while count < WORDS_MOST {
        let Some((word, more)) = cut_at(rest, b' ') else {
            if !rest.is_empty() {
                words[count] = rest;
                count += 1;
            }
            return count;
        };
        if !word.is_empty() {
            words[count] = word;
            count += 1;
        }
        rest = more;
    }
    count
}
