// The positions of a line's blocks that cover a cell.
ghost use Rattle.std.specs.Prelude.{◌≡◌, ◌+◌, ◌≤◌, ◌<◌, length, take};
ghost use Rattle.lists.specs.Wrote.{Wrote};
ghost use Rattle.literals.specs.Literals.{largest};
ghost use Rattle.lines.specs.Clue.{end};
ghost use Rattle.lines.specs.Runs.{run};
ghost use Rattle.puzzles.specs.Puzzle as P;
ghost use Rattle.numbering.specs.Variables.{line_at};
ghost use Rattle.numbering.specs.Held.{line_in, puzzle_in};
ghost use Rattle.cells.specs.Cells.{covering};
ghost use Rattle.cells.specs.Found.{covering_block};

use lines::meet::{Run, behind, covers};
use numbering::line::Line;
use numbering::reading::Lines;

// Of a block with p positions, numbered from v on, those that cover cell t. From the first that begins behind it on, none does.
fn covering_block(v: usize, p: usize, block: Run, t: usize, found: &mut [usize], at: usize) -> usize
    requires p_bound { (v + p ≤ largest + 1) × (end (run block) + p ≤ 65) }
    requires t_in_bounds { at + length (covering_block v p (run block) t) ≤ length found.old }
    ensures { Wrote (covering_block v p (run block) t) found.old at found.new result }
{
    // `to` counts what was written, which not every turn does.
    let mut to = at;
    for i in 0..p {
        if behind(block, i, t) {
            return to;
        }
        if !covers(block, i, t) {
            continue;
        }
        found[to] = v + i;
        to += 1;
    }
    to
}

// Of a line: the positions of that colour that cover cell t.
fn covering_positions(line: Line, color: u32, t: usize, found: &mut [usize]) -> usize
    requires { 64 ≤ length found.old }
    ensures { Wrote (covering (line_in line.entry) color t) found.old 0 found.new result }
{
    let p = line.positions();
    let mut to = 0;
    for b in 0..line.blocks() {
        let block = line.run_at(b);
        if block.color != color {
            continue;
        }
        to = covering_block(line.block_first(b), p, block, t, found, to);
    }
    to
}

// Of line l, in front of found.
pub fn find_covering(lines: Lines, l: usize, t: usize, color: u32, found: &mut [usize]) -> usize
    requires { (l < P.lines (puzzle_in lines)) × (64 ≤ length found.old) }
    ensures { (result ≤ length found.new) × (take result found.new ≡ covering (line_at (puzzle_in lines.entry) l) color t) }
{
    covering_positions(lines.line(l), color, t, found)
}
