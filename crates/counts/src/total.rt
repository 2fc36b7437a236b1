// The counts of a whole puzzle.
ghost use Rattle.std.specs.Prelude.{◌≡◌, ◌+◌, ◌≤◌};
ghost use Rattle.puzzles.specs.Puzzle as P;
ghost use Rattle.numbering.specs.Held.{puzzle_in, puzzle_read};
ghost use Rattle.counts.specs.Counted.{SideCounted, CellsCounted, SmallSums, summed, Counted};

use crate::line::count_lines;
use crate::measure::Measure;
use crate::units::count_units;
use numbering::reading::{Lines, Reading};

// The clauses of the columns, or of the rows.
#[derive(Clone, Copy)]
pub struct Side {
    pub positions: usize,
    pub once: usize,
    pub overlap: usize,
}

// The clauses of the cells.
#[derive(Clone, Copy)]
pub struct Cells {
    pub color: usize,
    pub space: usize,
    pub point: usize,
    pub units: usize,
}

#[derive(Clone, Copy)]
pub struct Counts {
    pub variables: usize,
    pub columns: Side,
    pub rows: Side,
    pub cells: Cells,
    pub literals: usize,
    pub words: usize,
}

impl Counts {
    ghost use Rattle.counts.specs.Counted.{numbers};

    // As they are told: the variables, the ten families in their order, the literals, the words.
    pub fn numbers(self) -> [u64; 13]
        ensures { result ≡ numbers self }
    {
        [
            self.variables as u64,
            self.columns.positions as u64,
            self.rows.positions as u64,
            self.columns.once as u64,
            self.rows.once as u64,
            self.columns.overlap as u64,
            self.rows.overlap as u64,
            self.cells.color as u64,
            self.cells.space as u64,
            self.cells.point as u64,
            self.cells.units as u64,
            self.literals as u64,
            self.words as u64,
        ]
    }
}

// Of n lines from line l on.
fn count_side(lines: Lines, l: usize, n: usize) -> Side
    requires { l + n ≤ P.lines (puzzle_in lines) }
    ensures { SideCounted (puzzle_in lines.entry) l n result }
{
    let positions = count_lines(Measure::Blocks, lines, l, n);
    let once = count_lines(Measure::Once, lines, l, n);
    let overlap = count_lines(Measure::Overlap, lines, l, n);
    Side {
        positions,
        once,
        overlap,
    }
}

fn count_cells(reading: Reading) -> Cells
    ensures { CellsCounted (puzzle_read reading.entry) result }
{
    let board = reading.board;
    let hues = u32::count_ones(board.colors) as usize;
    let area = board.width * board.height;
    let space = count_lines(Measure::Space, reading.lines, 0, board.width + board.height);
    let units = count_units(board.colors, reading.masks());
    Cells {
        color: 2 * (area * hues),
        space,
        point: area * (hues * (hues - 1) / 2),
        units,
    }
}

// What the ten families have in all. Two literals to a clause, but for the first two families, 7 and 10.
fn summed(first: usize, columns: Side, rows: Side, cells: Cells) -> Counts
    requires { SmallSums first columns rows cells }
    ensures { result ≡ summed first columns rows cells }
{
    let positions = first - 1;
    let twos = columns.once
        + rows.once
        + columns.overlap
        + rows.overlap
        + cells.space
        + cells.point;
    let literals = positions + 2 * twos + cells.color + cells.space + cells.units;
    let clauses = columns.positions + rows.positions + twos + cells.color + cells.units;
    Counts {
        variables: positions + cells.color / 2,
        columns,
        rows,
        cells,
        literals,
        words: 10 + clauses + literals,
    }
}

pub fn count_all(reading: Reading) -> Counts
    ensures { Counted (puzzle_read reading.entry) result }
{
    let board = reading.board;
    let columns = count_side(reading.lines, 0, board.width);
    let rows = count_side(reading.lines, board.width, board.height);
    let cells = count_cells(reading);
    summed(board.first, columns, rows, cells)
}
