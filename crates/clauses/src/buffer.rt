// The ten sections, one after another: the next section is written into the rest of the buffer.
ghost use Rattle.std.specs.Prelude.{◌≡◌, ◌≤◌, length};
ghost use Rattle.lists.specs.Wrote.{Wrote};
ghost use Rattle.sections.specs.Sections.{sections_words};
ghost use Rattle.numbering.specs.Held.{puzzle_read};
ghost use Rattle.placement.specs.Placement.{of_columns, of_rows};
ghost use Rattle.cells.specs.Held.{puzzle_given};
ghost use Rattle.counts.specs.Families.{buffer};
ghost use Rattle.counts.specs.Counted.{CellsCounted, Counted};
ghost use Rattle.clauses.specs.Groups.{both, line_sections, cell_sections};

use cells::given::Given;
use cells::rule::Rule as Cover;
use cells::section::write_cells;
use counts::total::{Cells, Counts};
use numbering::palette;
use numbering::reading::Reading;
use placement::rule::Rule;
use placement::section::write_lines;
use points::once::write_points;
use points::precomputed::write_precomputed;

// What a rule says of the columns, then of the rows.
fn write_both(rule: Rule, reading: Reading, columns: usize, rows: usize, out: &mut [i32]) -> usize
    requires columns_value { (columns ≡ length (of_columns (puzzle_read reading) rule)) × (rows ≡ length (of_rows (puzzle_read reading) rule)) }
    requires rule_in_bounds { length (sections_words (both (puzzle_read reading) rule)) ≤ length out.old }
    ensures { Wrote (sections_words (both (puzzle_read reading.entry) rule)) out.old 0 out.new result }
{
    let lines = reading.lines;
    let w = reading.board.width;
    let h = reading.board.height;
    let at = write_lines(rule, lines, 0, w, columns, out);
    at + write_lines(rule, lines, w, h, rows, &mut out[at..])
}

// Sections 1 to 6.
fn write_line_sections(reading: Reading, counts: Counts, out: &mut [i32]) -> usize
    requires counted { Counted (puzzle_read reading) counts }
    requires words_in_bounds { length (sections_words (line_sections (puzzle_read reading))) ≤ length out.old }
    ensures { Wrote (sections_words (line_sections (puzzle_read reading.entry))) out.old 0 out.new result }
{
    let x = counts.columns;
    let y = counts.rows;
    let mut at = write_both(Rule::Positions, reading, x.positions, y.positions, out);
    at += write_both(Rule::Once, reading, x.once, y.once, &mut out[at..]);
    at += write_both(Rule::Overlap, reading, x.overlap, y.overlap, &mut out[at..]);
    at
}

// Sections 7 to 10.
fn write_cell_sections(given: Given, counts: Cells, out: &mut [i32]) -> usize
    requires cells_counted { CellsCounted (puzzle_given given) counts }
    requires words_in_bounds { length (sections_words (cell_sections (puzzle_given given))) ≤ length out.old }
    ensures { Wrote (sections_words (cell_sections (puzzle_given given.entry))) out.old 0 out.new result }
{
    let words = given.reading.lines.words;
    let board = given.reading.board;
    let colors = given.palette;
    let mut at = write_cells(Cover::Color, given, counts.color, out);
    at += write_cells(Cover::Space, given, counts.space, &mut out[at..]);
    at += write_points(board, colors.len(), counts.point, &mut out[at..]);
    at += write_precomputed(words, board, colors, counts.units, &mut out[at..]);
    at
}

pub fn write_sections(reading: Reading, counts: Counts, out: &mut [i32]) -> usize
    requires counted { Counted (puzzle_read reading) counts }
    requires words_in_bounds { length (buffer (puzzle_read reading)) ≤ length out.old }
    ensures { Wrote (buffer (puzzle_read reading.entry)) out.old 0 out.new result }
{
    let mut colors = [0u32; 31];
    let k = palette(reading.board.colors, &mut colors);
    let given = Given {
        reading,
        palette: &colors[..k],
    };
    let at = write_line_sections(reading, counts, out);
    at + write_cell_sections(given, counts.cells, &mut out[at..])
}
