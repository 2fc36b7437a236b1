// A section of one rule: its clause count, then what it says of the lines, one after another.
ghost use Rattle.std.specs.Prelude.{◌≡◌, ◌+◌, ◌≤◌, ◌<◌, length};
ghost use Rattle.lists.specs.Wrote.{Wrote};
ghost use Rattle.sections.specs.Sections.{section_words};
ghost use Rattle.puzzles.specs.Puzzle as P;
ghost use Rattle.numbering.specs.Held.{puzzle_in};
ghost use Rattle.placement.specs.Placement.{of_lines};

use crate::line::line_clauses;
use crate::rule::Rule;
use literals::count_word;
use numbering::reading::Lines;

// The n lines from line `from` on, which have `count` clauses.
pub fn write_lines(
    rule: Rule,
    lines: Lines,
    from: usize,
    n: usize,
    count: usize,
    out: &mut [i32],
) -> usize
    requires lines { from + n ≤ P.lines (puzzle_in lines) }
    requires count_value { (count ≡ length (of_lines (puzzle_in lines) rule from n)) × (count < 2147483648) }
    requires n_in_bounds { length (section_words (of_lines (puzzle_in lines) rule from n)) ≤ length out.old }
    ensures { Wrote (section_words (of_lines (puzzle_in lines.entry) rule from n)) out.old 0 out.new result }
{
    out[0] = count_word(count);
    let mut to = 1;
    for l in from..from + n {
        to = line_clauses(rule, lines.line(l), out, to);
    }
    to
}
