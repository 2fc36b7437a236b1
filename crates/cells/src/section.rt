// Sections 7 and 8: cells column by column, top to bottom; per cell its colours; per colour the column, then the row.
ghost use Rattle.std.specs.Prelude.{◌≡◌, ◌++◌, ◌+◌, ◌≤◌, ◌<◌, length};
ghost use Rattle.lists.specs.Each.{each};
ghost use Rattle.lists.specs.Wrote.{Wrote};
ghost use Rattle.literals.specs.Literals.{IsVariable};
ghost use Rattle.sections.specs.Sections.{clauses_words, section_words};
ghost use Rattle.puzzles.specs.Puzzle as P;
ghost use Rattle.numbering.specs.Held.{puzzle_in};
ghost use Rattle.cells.specs.Cells.{of_cells, of_cell};
ghost use Rattle.cells.specs.Asked.{asked};
ghost use Rattle.cells.specs.Held.{puzzle_given};

use crate::covering::find_covering;
use crate::given::Given;
use crate::rule::Rule;
use crate::support::rule_clauses;
use literals::count_word;
use numbering::reading::Lines;

// What is asked of a line: the rule, the colour, and the variable of the cell's colour.
#[derive(Clone, Copy)]
pub struct Ask {
    pub rule: Rule,
    pub color: u32,
    pub v: usize,
}

// Of line l and its cell t.
fn cover_line(
    lines: Lines,
    l: usize,
    t: usize,
    ask: Ask,
    found: &mut [usize],
    out: &mut [i32],
    at: usize,
) -> usize
    requires l_bound { (l < P.lines (puzzle_in lines)) × IsVariable ask.v × (64 ≤ length found.old) }
    requires t_in_bounds { at + length (clauses_words (asked (puzzle_in lines) ask l t)) ≤ length out.old }
    ensures { Wrote (clauses_words (asked (puzzle_in lines.entry) ask l t)) out.old at out.new result }
{
    let n = find_covering(lines, l, t, ask.color, found);
    let rule = ask.rule;
    rule_clauses(rule, &found[..n], ask.v, out, at)
}

// Of the cell of column x and row y.
fn color_clauses(
    lines: Lines,
    width: usize,
    x: usize,
    y: usize,
    ask: Ask,
    found: &mut [usize; 64],
    out: &mut [i32],
    at: usize,
) -> usize
    requires width_value { (width ≡ P.width (puzzle_in lines)) × (x < width) × (y < P.height (puzzle_in lines)) × IsVariable ask.v }
    requires x_in_bounds { at + length (clauses_words (asked (puzzle_in lines) ask x y ++ asked (puzzle_in lines) ask (width + y) x)) ≤ length out.old }
    ensures { Wrote (clauses_words (asked (puzzle_in lines.entry) ask x y ++ asked (puzzle_in lines.entry) ask (width + y) x)) out.old at out.new result }
{
    let row = width + y;
    let to = cover_line(lines, x, y, ask, found, out, at);
    cover_line(lines, row, x, ask, found, out, to)
}

fn cell_clauses(
    rule: Rule,
    given: Given,
    x: usize,
    y: usize,
    found: &mut [usize; 64],
    out: &mut [i32],
    at: usize,
) -> usize
    requires x_lt_width { (x < given.reading.board.width) × (y < given.reading.board.height) }
    requires y_in_bounds { at + length (clauses_words (of_cell (puzzle_given given) rule x y)) ≤ length out.old }
    ensures { Wrote (clauses_words (of_cell (puzzle_given given.entry) rule x y)) out.old at out.new result }
{
    let lines = given.reading.lines;
    let width = given.reading.board.width;
    let first = given.cell_first(x, y);
    let mut to = at;
    for (r, &color) in given.palette.iter().enumerate() {
        let ask = Ask {
            rule,
            color,
            v: first + r,
        };
        to = color_clauses(lines, width, x, y, ask, found, out, to);
    }
    to
}

// Of column x.
fn column_clauses(
    rule: Rule,
    given: Given,
    x: usize,
    found: &mut [usize; 64],
    out: &mut [i32],
    at: usize,
) -> usize
    requires x_lt_width { x < given.reading.board.width }
    requires x_in_bounds { at + length (clauses_words (each given.reading.board.height (of_cell (puzzle_given given) rule x))) ≤ length out.old }
    ensures { Wrote (clauses_words (each given.entry.reading.board.height (of_cell (puzzle_given given.entry) rule x))) out.old at out.new result }
{
    let mut to = at;
    for y in 0..given.reading.board.height {
        to = cell_clauses(rule, given, x, y, found, out, to);
    }
    to
}

// The section, after the number of its clauses.
pub fn write_cells(rule: Rule, given: Given, count: usize, out: &mut [i32]) -> usize
    requires count_value { (count ≡ length (of_cells (puzzle_given given) rule)) × (count < 2147483648) }
    requires rule_in_bounds { length (section_words (of_cells (puzzle_given given) rule)) ≤ length out.old }
    ensures { Wrote (section_words (of_cells (puzzle_given given.entry) rule)) out.old 0 out.new result }
{
    out[0] = count_word(count);
    let mut found = [0usize; 64];
    let mut to = 1;
    for x in 0..given.reading.board.width {
        to = column_clauses(rule, given, x, &mut found, out, to);
    }
    to
}
