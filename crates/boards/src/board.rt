// A puzzle's words read as a whole: a board of numbers beside the words, and the table of their lines.
ghost use Rattle.std.specs.Prelude.{◌≡◌, ◌≤◌, length};
ghost use Rattle.refusals.specs.Told.{told};
ghost use Rattle.refusals.specs.Verdict.{accepted, and_then, passed};
ghost use Rattle.puzzles.specs.Puzzle as P;
ghost use Rattle.puzzles.specs.Checks as C;
ghost use Rattle.tables.specs.Layout.{table_size};
ghost use Rattle.tables.specs.Table.{Laid};
ghost use Rattle.boards.specs.Reading.{Stands, Reads};

use crate::colors::{check_cells, check_columns, row_colors};
use lists::wide;
use puzzles::check::check_sections;
use refusals::Refusal;
use tables::table::{Table, lay_lines};

// Where the rows and the cells begin, the first cell variable, and the colour set as a mask.
#[derive(Clone, Copy)]
pub struct Board {
    pub width: usize,
    pub height: usize,
    pub rows: usize,
    pub cells: usize,
    pub first: usize,
    pub colors: u32,
}

// Once the sections are read: 6, 9, 10; and else the colour set.
fn check_meaning(
    words: &[u32],
    width: usize,
    height: usize,
    table: &mut [u32],
) -> Result<u32, Refusal>
    requires sectioned { C.Sectioned words.now }
    requires width_value { (width ≡ P.width (C.puzzle words.now)) × (height ≡ P.height (C.puzzle words.now)) × (table_size ≤ length table.old) }
    ensures result_value { told result ≡ and_then (C.meaning_checks (C.puzzle words.now)) (accepted (C.colors (C.puzzle words.now))) }
    ensures laid { passed ≡ C.meaning_checks (C.puzzle words.now) → Laid (C.puzzle words.now) table.new }
{
    let cells = lay_lines(words, width, height, table)?;
    let laid = Table {
        words,
        lines: table,
    };
    let colors = row_colors(laid, width, height);
    check_columns(laid, width, colors)?;
    check_cells(&words[cells + 1..], colors)?;
    Ok(colors)
}

// Document 01's order: the walk and 11; 6; 9; 10.
fn check_puzzle(words: &[u32], table: &mut [u32]) -> Result<u32, Refusal>
    requires { table_size ≤ length table.old }
    ensures result_value { told result ≡ and_then (C.puzzle_checks words.now) (accepted (C.colors (C.puzzle words.now))) }
    ensures laid { passed ≡ C.puzzle_checks words.now → Laid (C.puzzle words.now) table.new }
{
    let rows = check_sections(words, 0)?;
    let width = wide(words[0]);
    let height = wide(words[rows]);
    check_meaning(words, width, height, table)
}

// The board of words that were accepted, from the table of their lines.
fn board_of(table: Table, colors: u32) -> Board
    requires { colors ≡ C.colors (C.puzzle table.words.now) }
    ensures { Stands result (C.puzzle table.entry.words.now) }
{
    let width = wide(table.words[0]);
    let row = table.find_line(width);
    let rows = row.begin - 2;
    let height = wide(table.words[rows]);
    let last = width + height - 1;
    let line = table.find_line(last);
    Board {
        width,
        height,
        rows,
        cells: line.end,
        first: table.next_first(last),
        colors,
    }
}

// Reads a puzzle's words, and lays its lines into a table.
pub fn read_puzzle(words: &[u32], table: &mut [u32]) -> Result<Board, Refusal>
    requires { table_size ≤ length table.old }
    ensures { Reads words.now table.new result }
{
    let colors = check_puzzle(words, table)?;
    let laid = Table {
        words,
        lines: table,
    };
    Ok(board_of(laid, colors))
}
