// Family 8 of a cell: where a position of a colour covers it, the cell has the colour. Each position is tested where it is found.
ghost use Rattle.std.specs.Prelude.{◌≡◌, ℕ, ◌+◌, ◌≤◌, ◌<◌};
ghost use Rattle.lists.specs.Each.{each};
ghost use Rattle.refusals.specs.Told.{told};
ghost use Rattle.lines.specs.Clue.{end};
ghost use Rattle.lines.specs.Runs.{run};
ghost use Rattle.puzzles.specs.Puzzle as P;
ghost use Rattle.numbering.specs.Held.{line_in};
ghost use Rattle.truth.specs.Truth.{value};
ghost use Rattle.truth.specs.Tested.{tested, Countable};
ghost use Rattle.placed.specs.Held.{puzzle_tried};
ghost use Rattle.cells.specs.Cells.{covering, ruled};
ghost use Rattle.cells.specs.Found.{covering_block};
ghost use Rattle.cells.specs.declared.rule.Rule.TheVariants.{Space};
ghost use Rattle.colored.specs.Models.{Of};
ghost use Rattle.colored.specs.Sides.{of_side};

use lines::meet::{Run, behind, covers};
use placed::trial::{LineTrial, Trial};
use refusals::Refusal;
use truth::on;

// Of a block with p positions, numbered from u on, those that cover cell t. They are counted with no branch.
fn test_block(
    model: &[u8],
    u: usize,
    p: usize,
    block: Run,
    t: usize,
    v: usize,
    at: usize,
) -> Result<usize, Refusal>
    requires by_index { ((i : ℕ) → i < p → Of model.now (u + i)) × Of model.now v × (end (run block) + p ≤ 65) }
    requires countable { Countable at (ruled Space v (covering_block u p (run block) t)) }
    ensures { told result ≡ tested (value model.now) at (ruled Space v (covering_block u p (run block) t)) }
{
    let holds = on(model, v);
    let mut to = at;
    for i in 0..p {
        if behind(block, i, t) {
            return Ok(to);
        }
        let covered = covers(block, i, t);
        if !holds && on(model, u + i) && covered {
            return Err(Refusal::FalseClause(to));
        }
        to += usize::from(covered);
    }
    Ok(to)
}

// Of a line: the positions of that colour.
fn test_line(trial: LineTrial, color: u32, t: usize, v: usize, at: usize) -> Result<usize, Refusal>
    requires of { Of trial.model.now v }
    requires countable { Countable at (ruled Space v (covering (line_in trial.line) color t)) }
    ensures { told result ≡ tested (value trial.entry.model.now) at (ruled Space v (covering (line_in trial.entry.line) color t)) }
{
    let p = trial.line.positions();
    let mut to = at;
    for b in 0..trial.line.blocks() {
        let block = trial.line.run_at(b);
        if block.color != color {
            continue;
        }
        let u = trial.line.block_first(b);
        to = test_block(trial.model, u, p, block, t, v, to)?;
    }
    Ok(to)
}

// Of column x and of the row's line, whose cells are y and x.
pub fn test_spaces(
    trial: Trial,
    x: usize,
    row: usize,
    y: usize,
    color: u32,
    v: usize,
    at: usize,
) -> Result<usize, Refusal>
    requires x_bound { (x < P.lines (puzzle_tried trial)) × (row < P.lines (puzzle_tried trial)) × Of trial.model.now v }
    requires countable { Countable at (each 2 (of_side (puzzle_tried trial) Space color v x row y)) }
    ensures { told result ≡ tested (value trial.entry.model.now) at (each 2 (of_side (puzzle_tried trial.entry) Space color v x row y)) }
{
    let mut to = at;
    // one call in a loop of two: with two calls `check_model` took up to a tenth longer
    for &(l, t) in &[(x, y), (row, x)] {
        to = test_line(trial.line(l), color, t, v, to)?;
    }
    Ok(to)
}
