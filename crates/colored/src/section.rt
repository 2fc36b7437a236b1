// Families 7 and 8: cells column by column, top to bottom; per cell its colours; per colour the column, then the row.
ghost use Rattle.std.specs.Prelude.{◌≡◌, ◌++◌, ◌+◌, ◌<◌};
ghost use Rattle.lists.specs.Each.{each};
ghost use Rattle.refusals.specs.Told.{told};
ghost use Rattle.puzzles.specs.Puzzle as P;
ghost use Rattle.truth.specs.Truth.{value};
ghost use Rattle.truth.specs.Tested.{tested, Countable};
ghost use Rattle.placed.specs.Held.{puzzle_tried};
ghost use Rattle.cells.specs.Cells.{of_cells, of_cell};
ghost use Rattle.cells.specs.Asked.{asked};
ghost use Rattle.colored.specs.Models.{Of};
ghost use Rattle.colored.specs.Held.{puzzle_claimed};

use crate::claim::Claim;
use crate::spaces::test_spaces;
use crate::support::test_support;
use cells::rule::Rule;
use cells::section::Ask;
use placed::trial::Trial;
use refusals::Refusal;

// Of the cell of column x and row y: its column, then its row.
fn test_color(
    trial: Trial,
    width: usize,
    x: usize,
    y: usize,
    ask: Ask,
    found: &mut [usize; 64],
    at: usize,
) -> Result<usize, Refusal>
    requires width_value { (width ≡ P.width (puzzle_tried trial)) × (x < width) × (y < P.height (puzzle_tried trial)) × Of trial.model.now ask.v }
    requires countable { Countable at (asked (puzzle_tried trial) ask x y ++ asked (puzzle_tried trial) ask (width + y) x) }
    ensures { told result ≡ tested (value trial.entry.model.now) at (asked (puzzle_tried trial.entry) ask x y ++ asked (puzzle_tried trial.entry) ask (width + y) x) }
{
    let row = width + y;
    let rule = ask.rule;
    match rule {
        Rule::Color => test_support(trial, x, row, y, ask.color, ask.v, found, at),
        Rule::Space => test_spaces(trial, x, row, y, ask.color, ask.v, at),
    }
}

fn test_cell(
    rule: Rule,
    claim: Claim,
    x: usize,
    y: usize,
    found: &mut [usize; 64],
    at: usize,
) -> Result<usize, Refusal>
    requires x_lt_width { (x < claim.given.reading.board.width) × (y < claim.given.reading.board.height) }
    requires countable { Countable at (of_cell (puzzle_claimed claim) rule x y) }
    ensures { told result ≡ tested (value claim.entry.model.now) at (of_cell (puzzle_claimed claim.entry) rule x y) }
{
    let trial = claim.trial();
    let width = claim.given.reading.board.width;
    let first = claim.given.cell_first(x, y);
    let mut to = at;
    for (r, &color) in claim.given.palette.iter().enumerate() {
        let ask = Ask {
            rule,
            color,
            v: first + r,
        };
        to = test_color(trial, width, x, y, ask, found, to)?;
    }
    Ok(to)
}

// Of column x.
fn test_column(
    rule: Rule,
    claim: Claim,
    x: usize,
    found: &mut [usize; 64],
    at: usize,
) -> Result<usize, Refusal>
    requires x_lt_width { x < claim.given.reading.board.width }
    requires countable { Countable at (each claim.given.reading.board.height (of_cell (puzzle_claimed claim) rule x)) }
    ensures { told result ≡ tested (value claim.entry.model.now) at (each claim.entry.given.reading.board.height (of_cell (puzzle_claimed claim.entry) rule x)) }
{
    let mut to = at;
    for y in 0..claim.given.reading.board.height {
        to = test_cell(rule, claim, x, y, found, to)?;
    }
    Ok(to)
}

pub fn test_cells(rule: Rule, claim: Claim, at: usize) -> Result<usize, Refusal>
    requires { Countable at (of_cells (puzzle_claimed claim) rule) }
    ensures { told result ≡ tested (value claim.entry.model.now) at (of_cells (puzzle_claimed claim.entry) rule) }
{
    let mut found = [0usize; 64];
    let mut to = at;
    for x in 0..claim.given.reading.board.width {
        to = test_column(rule, claim, x, &mut found, to)?;
    }
    Ok(to)
}
