ghost use Rattle.std.specs.Prelude.{◌≡◌, ◌∷◌, ◌<◌, ◌≤◌, length};
ghost use Rattle.script_lang.specs.Grammar.{lines_of};
ghost use Rattle.board_file.specs.Boards.{no_board};
ghost use Rattle.board_file.specs.Texts.{IsRead, board_from, board_of};

use crate::boards::Board;
use crate::troubles::{BoardFault, LineFault, Trouble, Why};
use std::alloc::Global;
use word_kinds::{WORDS_MOST, cut_at, first_words};

/// The most bytes of a board file.
pub const BOARD_MOST: usize = 65_536;

/// The board that a text says. A text of more than 65,536 bytes is refused at line 0, one without a
/// region at its last line, and any other at its first bad line.
#[tactic(auto, unfolding(crate::specs::Texts::board_of))]
pub fn read_board(alloc: Global, text: &[u8]) -> Result<Board, BoardFault>
    ensures { IsRead (board_of text.now) result }
{
    if text.len() > BOARD_MOST {
        let whole = Trouble {
            word: 0,
            why: Why::Size,
        };
        return Err(BoardFault::Refused(0, whole));
    }
    board_in(alloc, text)
}

/// The board of a text, refused at its first bad line.
fn board_in(alloc: Global, text: &[u8]) -> Result<Board, BoardFault>
    requires { length text.now ≤ 65536 }
    ensures { IsRead (board_from 0 no_board (lines_of text.now)) result }
{
    let mut board = Board::new(alloc);
    let mut words = [b"".as_slice(); WORDS_MOST];
    let mut rest = text;
    let mut number = 0u32;
    while !rest.is_empty() {
        let (line, more) = cut_line(rest);
        let count = first_words(line, &mut words);
        number += 1;
        match board.take(line, &words[..count]) {
            Ok(()) => {}
            Err(LineFault::Bad(why)) => return Err(BoardFault::Refused(number, why)),
            Err(LineFault::NoMemory) => return Err(BoardFault::NoMemory),
        }
        rest = more;
    }
    if board.regions().is_empty() {
        let none = Trouble {
            word: 0,
            why: Why::NoRegion,
        };
        return Err(BoardFault::Refused(number, none));
    }
    Ok(board)
}

/// The first line of a text that isn't empty, and what comes after its line feed.
fn cut_line(text: &[u8]) -> (&[u8], &[u8])
    requires { 0 < length text.now }
    ensures lines { lines_of text.now ≡ result.0.now ∷ lines_of result.1.now }
    ensures shorter { length result.1.now < length text.now }
{
    match cut_at(text, b'\n') {
        Some(parts) => parts,
        None => (text, &[]),
    }
}
