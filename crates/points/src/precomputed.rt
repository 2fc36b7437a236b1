// Section 10: unit clauses, by each cell's mask and each colour. Cells row by row.
ghost use Rattle.std.specs.Prelude.{◌≡◌, ◌+◌, ◌*◌, ◌≤◌, ◌<◌, length};
ghost use Rattle.lists.specs.Wrote.{Wrote};
ghost use Rattle.literals.specs.Literals.{IsVariable, largest};
ghost use Rattle.sections.specs.Sections.{clauses_words, section_words};
ghost use Rattle.puzzles.specs.Checks.{puzzle};
ghost use Rattle.cells.specs.Cells.{precomputed, precomputed_cells};
ghost use Rattle.points.specs.Points.{of_mask, of_masks, Masked};

use bits::mask::{has, solved};
use boards::board::Board;
use literals::{count_word, no, yes};
use sections::put_clause;

// One colour of a cell: its variable, the same negated, or nothing.
fn precomputed_color(mask: u32, color: u32, v: usize, out: &mut [i32], at: usize) -> usize
    requires variable { IsVariable v }
    requires v_in_bounds { at + length (clauses_words (precomputed mask color v)) ≤ length out.old }
    ensures { Wrote (clauses_words (precomputed mask color v)) out.old at out.new result }
{
    let there = has(mask, color);
    if solved(mask) {
        if has(mask, 0) {
            return put_clause([no(v)], out, at);
        }
        if there {
            return put_clause([yes(v)], out, at);
        }
        return at;
    }
    if there {
        return at;
    }
    put_clause([no(v)], out, at)
}

// A cell, whose variables begin at v.
fn precomputed_cell(mask: u32, palette: &[u32], v: usize, out: &mut [i32], at: usize) -> usize
    requires v_nonzero { (0 < v) × (v + length palette.now ≤ largest + 1) }
    requires v_in_bounds { at + length (clauses_words (of_mask palette.now mask v)) ≤ length out.old }
    ensures { Wrote (clauses_words (of_mask palette.now mask v)) out.old at out.new result }
{
    let mut to = at;
    for (r, &color) in palette.iter().enumerate() {
        to = precomputed_color(mask, color, v + r, out, to);
    }
    to
}

// All cells, whose variables begin at v.
fn precomputed_cells_clauses(
    masks: &[u32],
    palette: &[u32],
    v: usize,
    out: &mut [i32],
    at: usize,
) -> usize
    requires v_nonzero { (0 < v) × (v + length masks.now * length palette.now ≤ largest + 1) }
    requires v_in_bounds { at + length (clauses_words (of_masks palette.now masks.now v)) ≤ length out.old }
    ensures { Wrote (clauses_words (of_masks palette.now masks.now v)) out.old at out.new result }
{
    let k = palette.len();
    let mut to = at;
    for (i, &mask) in masks.iter().enumerate() {
        to = precomputed_cell(mask, palette, v + i * k, out, to);
    }
    to
}

// The section, after the number of its clauses.
pub fn write_precomputed(
    words: &[u32],
    board: Board,
    palette: &[u32],
    count: usize,
    out: &mut [i32],
) -> usize
    requires masked { Masked words.now board palette.now }
    requires count_value { (count ≡ length (precomputed_cells (puzzle words.now))) × (count < 2147483648) }
    requires words_in_bounds { length (section_words (precomputed_cells (puzzle words.now))) ≤ length out.old }
    ensures { Wrote (section_words (precomputed_cells (puzzle words.now))) out.old 0 out.new result }
{
    out[0] = count_word(count);
    let cells = board.cells;
    precomputed_cells_clauses(&words[cells + 1..], palette, board.first, out, 1)
}
