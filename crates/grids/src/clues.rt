// The clues of a grid's lines.
ghost use Rattle.std.specs.Prelude.{◌≡◌, ◌+◌, ◌≤◌, length, get_or};
ghost use Rattle.lists.specs.Each.{sum};
ghost use Rattle.lists.specs.Wrote.{Wrote};
ghost use Rattle.runs.specs.Begins.{begins};
ghost use Rattle.lines.specs.Line.{runs};
ghost use Rattle.runs.specs.Strided.{strided, Strided};
ghost use Rattle.puzzles.specs.Puzzle.{clue_words, lines_words};
ghost use Rattle.grids.specs.Grid.{row_clues, column_clues};
ghost use Rattle.grids.specs.Sized.{Laid, laid_clues};

use crate::grid::Grid;
use runs::line::{count_words, put_runs, run_begins};

// How many words the section of the rows takes: its count, and a count and the runs for each row.
pub fn count_clues(grid: Grid) -> usize
    ensures { result ≡ length (lines_words (row_clues grid.entry.width grid.entry.height grid.entry.cells.now)) }
{
    let mut count = 1;
    for row in grid.cells.chunks_exact(grid.width) {
        count += 1 + count_words(row);
    }
    count
}

// How many cells of a row begin a run of their column, where above has the cells over them. A byte counts them, so that many are taken at a time.
fn count_begun(row: &[u8], above: &[u8]) -> usize
    requires { (length row.now ≤ 64) × (length row.now ≤ length above.now) }
    ensures { result ≡ sum (length row.now) (λ x. begins (get_or above.now x 0) (get_or row.now x 0)) }
{
    let mut count: u8 = 0;
    for (&color, &over) in row.iter().zip(above) {
        count += run_begins(over, color);
    }
    usize::from(count)
}

// How many words the section of the columns takes, row by row: two for each cell that begins a run of its column.
pub fn count_columns(grid: Grid) -> usize
    ensures { result ≡ length (lines_words (column_clues grid.entry.width grid.entry.height grid.entry.cells.now)) }
{
    let width = grid.width;
    let blank = [0u8; 64];
    let mut count = count_begun(&grid.cells[0..width], &blank);
    for y in 1..grid.height {
        let at = y * width;
        count += count_begun(&grid.cells[at..at + width], &grid.cells[at - width..at]);
    }
    1 + width + 2 * count
}

// Writes a line's block count and its runs.
fn put_clue(cells: &[u8], from: usize, step: usize, len: usize, out: &mut [u32], at: usize) -> usize
    requires { Strided from step len cells.now × (at + length (clue_words (runs (strided from step len cells.now))) ≤ length out.old) }
    ensures { Wrote (clue_words (runs (strided from step len cells.now))) out.old at out.new result }
{
    let to = put_runs(cells, from, step, len, out, at + 1);
    out[at] = ((to - at) / 2) as u32;
    to
}

// Writes a section of n lines.
pub fn put_clues(
    n: usize,
    skip: usize,
    step: usize,
    len: usize,
    cells: &[u8],
    out: &mut [u32],
    from: usize,
) -> usize
    requires laid { Laid n skip step len cells.now }
    requires cells_in_bounds { from + length (lines_words (laid_clues n skip step len cells.now)) ≤ length out.old }
    ensures { Wrote (lines_words (laid_clues n skip step len cells.now)) out.old from out.new result }
{
    out[from] = n as u32;
    let mut to = from + 1;
    for i in 0..n {
        to = put_clue(cells, i * skip, step, len, out, to);
    }
    to
}
