// What a model makes of a section of one rule: the lines one after another.
ghost use Rattle.std.specs.Prelude.{◌≡◌, ◌+◌, ◌≤◌};
ghost use Rattle.refusals.specs.Told.{told};
ghost use Rattle.truth.specs.Truth.{value};
ghost use Rattle.truth.specs.Tested.{tested, Countable};
ghost use Rattle.puzzles.specs.Puzzle as P;
ghost use Rattle.placement.specs.Placement.{of_lines};
ghost use Rattle.placed.specs.Held.{puzzle_tried};

use crate::line::test_rule;
use crate::trial::Trial;
use placement::rule::Rule;
use refusals::Refusal;

// The n lines from line `from` on.
pub fn test_lines(
    rule: Rule,
    trial: Trial,
    from: usize,
    n: usize,
    at: usize,
) -> Result<usize, Refusal>
    requires lines { from + n ≤ P.lines (puzzle_tried trial) }
    requires countable { Countable at (of_lines (puzzle_tried trial) rule from n) }
    ensures { told result ≡ tested (value trial.entry.model.now) at (of_lines (puzzle_tried trial.entry) rule from n) }
{
    let mut to = at;
    for l in from..from + n {
        to = test_rule(rule, trial.line(l), to)?;
    }
    Ok(to)
}
