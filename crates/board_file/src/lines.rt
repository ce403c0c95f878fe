ghost use Rattle.std.specs.Prelude.{◌≡◌, map};
ghost use Rattle.board_file.specs.Lines.{alias_in, name_text, number_in, region_in, without_spaces};

use crate::boards::Alias;
use crate::troubles::{Trouble, Why};
use memory_pool::Region;
use word_kinds::{Kind, are_of, number_at, region_kind_at, word_at};

/// A text without the spaces at its start.
fn without_spaces(text: &[u8]) -> &[u8]
    ensures { result.now ≡ without_spaces text.now }
{
    let mut rest = text;
    while let [b' ', more @ ..] = rest {
        rest = more;
    }
    rest
}

/// What follows the word `name` on a line.
pub(crate) fn name_text(line: &[u8]) -> &[u8]
    ensures { result.now ≡ name_text line.now }
{
    let text = without_spaces(line);
    without_spaces(&text[text.len().min(4)..])
}

/// The number in a place.
fn number_in(words: &[&[u8]], place: u8) -> Result<u32, Trouble>
    ensures { result ≡ number_in (map (λ word. word.now) words.now) place }
{
    let at = usize::from(place);
    let word = [word_at(words, at)];
    if !are_of(&[Kind::Number], &word) {
        return Err(Trouble {
            word: place,
            why: Why::Number,
        });
    }
    Ok(number_at(words, at) as u32)
}

/// The region of a line `region KIND DA PA LEN`.
pub(crate) fn region_in(words: &[&[u8]]) -> Result<Region, Trouble>
    ensures { result ≡ region_in (map (λ word. word.now) words.now) }
{
    if words.len() != 5 {
        return Err(Trouble {
            word: 0,
            why: Why::Words,
        });
    }
    let kind = [word_at(words, 1)];
    if !are_of(&[Kind::RegionKind], &kind) {
        return Err(Trouble {
            word: 1,
            why: Why::RegionKind,
        });
    }
    let da = number_in(words, 2)?;
    let pa = number_in(words, 3)?;
    let len = number_in(words, 4)?;
    Ok(Region {
        kind: region_kind_at(words, 1),
        da,
        pa,
        len,
    })
}

/// The alias of a line `alias DA LEN TO`.
pub(crate) fn alias_in(words: &[&[u8]]) -> Result<Alias, Trouble>
    ensures { result ≡ alias_in (map (λ word. word.now) words.now) }
{
    if words.len() != 4 {
        return Err(Trouble {
            word: 0,
            why: Why::Words,
        });
    }
    let da = number_in(words, 1)?;
    let len = number_in(words, 2)?;
    let to = number_in(words, 3)?;
    Ok(Alias { da, len, to })
}
