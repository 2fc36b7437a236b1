// What the writers of the cells' sections are given.
ghost use Rattle.std.specs.Prelude.{◌≡◌, ◌+◌, ◌*◌, ◌≤◌, ◌<◌};
ghost use Rattle.literals.specs.Literals.{largest};
ghost use Rattle.puzzles.specs.Puzzle.{Puzzle};
ghost use Rattle.puzzles.specs.Checks.{puzzle, colors};
ghost use Rattle.numbering.specs.Variables as N;
ghost use Rattle.cells.specs.Given.{Shows};

use boards::board::Board;
use numbering::reading::Reading;

// A puzzle as it was read, and its colours in order.
#[derive(Clone, Copy)]
pub struct Given<'a> {
    pub reading: Reading<'a>,
    pub palette: &'a [u32],
    pub ghost palette_is: { palette.now ≡ N.palette (colors (puzzle reading.lines.words.now)) },
}

// The board of some accepted puzzle, and how many colours that has.
#[derive(Clone, Copy)]
pub struct Shown {
    pub board: Board,
    pub hues: usize,
    pub ghost shows: { ∥ ((z : Puzzle) × Shows board hues z) ∥₁ },
}

impl<'a> Given<'a> {
    ghost use Rattle.std.specs.Prelude.{length};
    ghost use Rattle.cells.specs.Held.{puzzle_given};

    // Its board.
    pub fn shown(self) -> Shown
        ensures { (result.board ≡ self.entry.reading.board) × (result.hues ≡ length self.entry.palette.now) }
    {
        Shown {
            board: self.reading.board,
            hues: self.palette.len(),
        }
    }

    // The first variable of the cell of column x and row y.
    pub fn cell_first(self, x: usize, y: usize) -> usize
        requires { (x < self.reading.board.width) × (y < self.reading.board.height) }
        ensures value { result ≡ N.cell_first (puzzle_given self.entry) x y }
        ensures variables { (0 < result) × (result + length self.entry.palette.now ≤ largest + 1) }
    {
        self.shown().cell_first(x, y)
    }
}

impl Shown {
    ghost use Rattle.cells.specs.Held.{cell_at};

    // The first variable of the cell of column x and row y.
    pub fn cell_first(self, x: usize, y: usize) -> usize
        requires { (x < self.board.width) × (y < self.board.height) }
        ensures value { result ≡ cell_at self.board self.hues x y }
        ensures variables { (0 < result) × (result + self.hues ≤ largest + 1) }
    {
        self.board.first + (y * self.board.width + x) * self.hues
    }
}
