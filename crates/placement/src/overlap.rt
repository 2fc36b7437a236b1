// Families 5 and 6, of one line: two blocks are not in conflict.
ghost use Rattle.std.specs.Prelude.{◌+◌, ◌≤◌, ◌<◌, length};
ghost use Rattle.lists.specs.Wrote.{Wrote};
ghost use Rattle.literals.specs.Literals.{largest};
ghost use Rattle.sections.specs.Sections.{clauses_words};
ghost use Rattle.numbering.specs.Variables.{many};
ghost use Rattle.numbering.specs.Held.{line_in};
ghost use Rattle.placement.specs.Placement.{non_overlap};
ghost use Rattle.placement.specs.PairRows.{rows_from, later_pairs};

use numbering::line::Line;
use sections::put_row;

// The p positions from va on, each with those from vb on that it meets: the first d meet none.
fn put_rows(va: usize, vb: usize, d: usize, p: usize, out: &mut [i32], at: usize) -> usize
    requires va_nonzero { (0 < va) × (va + p ≤ largest + 1) × (0 < vb) × (vb + p ≤ largest + 1) }
    requires p_in_bounds { at + length (clauses_words (rows_from va vb d p)) ≤ length out.old }
    ensures { Wrote (clauses_words (rows_from va vb d p)) out.old at out.new result }
{
    let mut to = at;
    for i in d..p {
        to = put_row(va + i, vb, i + 1 - d, out, to);
    }
    to
}

// Block a with each later one.
fn later_clauses(a: usize, line: Line, out: &mut [i32], at: usize) -> usize
    requires a_bound { a < many (line_in line) }
    requires a_in_bounds { at + length (clauses_words (later_pairs (line_in line) a)) ≤ length out.old }
    ensures { Wrote (clauses_words (later_pairs (line_in line.entry) a)) out.old at out.new result }
{
    let p = line.positions();
    let va = line.block_first(a);
    let mut to = at;
    for b in a + 1..line.blocks() {
        let d = line.distance_of(a, b);
        to = put_rows(va, line.block_first(b), d, p, out, to);
    }
    to
}

// Each block with the later ones.
pub fn non_overlap_clauses(line: Line, out: &mut [i32], at: usize) -> usize
    requires { at + length (clauses_words (non_overlap (line_in line))) ≤ length out.old }
    ensures { Wrote (clauses_words (non_overlap (line_in line.entry))) out.old at out.new result }
{
    let mut to = at;
    for a in 0..line.blocks() {
        to = later_clauses(a, line, out, to);
    }
    to
}
