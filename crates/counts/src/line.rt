// What is counted of the lines.
ghost use Rattle.std.specs.Prelude.{◌≡◌, ◌+◌, ◌-◌, ◌*◌, ◌/◌, ◌≤◌, ◌<◌};
ghost use Rattle.puzzles.specs.Puzzle as P;
ghost use Rattle.numbering.specs.Variables.{many};
ghost use Rattle.numbering.specs.Held.{line_in, puzzle_in};
ghost use Rattle.counts.specs.Formulas.{cells_in, overlap_at, overlap_in, measured, over_lines};

use crate::measure::Measure;
use numbering::line::Line;
use numbering::reading::Lines;

// The positions of two blocks that are in conflict: a triangle of them.
fn pair_count(p: usize, d: usize) -> usize
    requires { p ≤ 65 }
    ensures { result ≡ (p - d) * (p - d + 1) / 2 }
{
    if p <= d {
        return 0;
    }
    let n = p - d;
    n * (n + 1) / 2
}

// Those of block a with each later one.
fn later_count(a: usize, line: Line) -> usize
    requires { a < many (line_in line) }
    ensures { result ≡ overlap_at (line_in line.entry) a }
{
    let p = line.positions();
    let mut total = 0;
    // From 0, as the law of sums counts.
    for k in 0..line.blocks() - (a + 1) {
        total += pair_count(p, line.distance_of(a, a + 1 + k));
    }
    total
}

fn overlap_count(line: Line) -> usize
    ensures { result ≡ overlap_in (line_in line.entry) }
{
    let mut total = 0;
    for a in 0..line.blocks() {
        total += later_count(a, line);
    }
    total
}

// The cells that its blocks have.
fn size_count(line: Line) -> usize
    ensures { result ≡ cells_in (line_in line.entry) }
{
    let mut total = 0;
    for b in 0..line.blocks() {
        total += line.run_at(b).size;
    }
    total
}

fn line_count(measure: Measure, line: Line) -> usize
    ensures { result ≡ measured measure (line_in line.entry) }
{
    let n = line.blocks();
    let p = line.positions();
    match measure {
        Measure::Blocks => n,
        Measure::Once => n * (p * (p - 1) / 2),
        Measure::Overlap => overlap_count(line),
        Measure::Space => p * size_count(line),
    }
}

// Of n lines from line l on.
pub fn count_lines(measure: Measure, lines: Lines, l: usize, n: usize) -> usize
    requires { l + n ≤ P.lines (puzzle_in lines) }
    ensures { result ≡ over_lines (puzzle_in lines.entry) measure l n }
{
    let mut total = 0;
    for k in 0..n {
        total += line_count(measure, lines.line(l + k));
    }
    total
}
