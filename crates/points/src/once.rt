// Section 9: no cell has two colours. Cells column by column, top to bottom.
ghost use Rattle.std.specs.Prelude.{◌≡◌, ◌+◌, ◌≤◌, ◌<◌, length};
ghost use Rattle.lists.specs.Wrote.{Wrote};
ghost use Rattle.sections.specs.Sections.{clauses_words, section_words};
ghost use Rattle.puzzles.specs.Puzzle.{Puzzle};
ghost use Rattle.cells.specs.Cells.{point_once};
ghost use Rattle.cells.specs.Given.{Shows};
ghost use Rattle.points.specs.Points.{column_once};

use boards::board::Board;
use cells::given::Shown;
use literals::count_word;
use sections::at_most_one;

// Of column x.
fn point_once_clauses(shown: Shown, x: usize, out: &mut [i32], at: usize) -> usize
    requires x_lt_width { x < shown.board.width }
    requires x_in_bounds { at + length (clauses_words (column_once shown.board shown.hues x)) ≤ length out.old }
    ensures { Wrote (clauses_words (column_once shown.board shown.hues x)) out.old at out.new result }
{
    let mut to = at;
    for y in 0..shown.board.height {
        to = at_most_one(shown.cell_first(x, y), shown.hues, out, to);
    }
    to
}

// The section, after the number of its clauses.
pub fn write_points(board: Board, k: usize, count: usize, out: &mut [i32]) -> usize
    requires shows { (z : Puzzle) × Shows board k z × (count ≡ length (point_once z)) × (length (section_words (point_once z)) ≤ length out.old) }
    requires count_bound { count < 2147483648 }
    ensures { (z : Puzzle) → Shows board k z → Wrote (section_words (point_once z)) out.old 0 out.new result }
{
    let shown = Shown { board, hues: k };
    out[0] = count_word(count);
    let mut to = 1;
    for x in 0..board.width {
        to = point_once_clauses(shown, x, out, to);
    }
    to
}
