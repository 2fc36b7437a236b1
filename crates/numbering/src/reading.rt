// The lines of an accepted puzzle, and the puzzle as it was read.
ghost use Rattle.std.specs.Prelude.{◌≡◌, ◌≤◌, ◌<◌, length};
ghost use Rattle.puzzles.specs.Puzzle as P;
ghost use Rattle.puzzles.specs.Checks.{puzzle};
ghost use Rattle.tables.specs.Layout.{table_size};
ghost use Rattle.boards.specs.Reading.{Stands, Held};
ghost use Rattle.numbering.specs.Variables.{line_at};
ghost use Rattle.numbering.specs.Tables.{Ready};
ghost use Rattle.numbering.specs.OneProof.{ready_prop};

use crate::line::Line;
use boards::board::Board;
use tables::layout::LINE_SIZE;
use tables::table::Table;

// A puzzle's words, with the table of its lines.
#[derive(Clone, Copy)]
pub struct Lines<'a> {
    pub words: &'a [u32],
    pub table: &'a [u32],
    pub ghost ready: { Ready words.now table.now } by { ready_prop words.now table.now },
}

// Beside them its board.
#[derive(Clone, Copy)]
pub struct Reading<'a> {
    pub lines: Lines<'a>,
    pub board: Board,
    pub ghost stands: { Stands board (puzzle lines.words.now) },
}

impl<'a> Lines<'a> {
    ghost use Rattle.numbering.specs.Held.{line_in, puzzle_in};

    // Line l, found through the table.
    pub fn line(self, l: usize) -> Line<'a>
        requires { l < P.lines (puzzle_in self) }
        ensures { line_in result ≡ line_at (puzzle_in self.entry) l }
    {
        let table = Table {
            words: self.words,
            lines: self.table,
        };
        let parts = table.find_line(l);
        Line {
            laid: &self.table[parts.line..parts.line + LINE_SIZE],
            clue: &self.words[parts.begin..parts.end],
        }
    }
}

impl<'a> Reading<'a> {
    ghost use Rattle.numbering.specs.Held.{puzzle_read};

    // Of words that were read.
    pub fn new(words: &'a [u32], table: &'a [u32], board: Board) -> Reading<'a>
        requires { Held words.now table.now board × (table_size ≤ length table.now) }
        ensures puzzle { puzzle_read result ≡ puzzle words.now }
        ensures board { result.board ≡ board }
    {
        Reading {
            lines: Lines { words, table },
            board,
        }
    }

    // The masks of its cells.
    #[tactic(auto, using(boards::proofs::Boards::masks_within))]
    pub fn masks(self) -> &'a [u32]
        ensures { result.now ≡ (puzzle_read self.entry).masks }
    {
        &self.lines.words[self.board.cells + 1..]
    }
}
