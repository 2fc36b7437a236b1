// Family 10: unit clauses, by each cell's mask and each colour. Cells row by row.
ghost use Rattle.std.specs.Prelude.{◌≡◌, [], ◌∷◌, ◌+◌, ◌*◌, ◌^◌, ◌≤◌, ◌<◌, length};
ghost use Rattle.refusals.specs.Told.{told};
ghost use Rattle.puzzles.specs.Checks.{puzzle};
ghost use Rattle.numbering.specs.Variables.{variables};
ghost use Rattle.sections.specs.Sections.{Clause};
ghost use Rattle.truth.specs.Truth.{Assignment, value, clause_true};
ghost use Rattle.truth.specs.Tested.{tested, Countable};
ghost use Rattle.cells.specs.Cells.{precomputed, precomputed_cells};
ghost use Rattle.points.specs.Points.{of_mask, of_masks, Masked};
ghost use Rattle.colored.specs.Models.{Of};

use bits::mask::{has, solved};
use boards::board::Board;
use refusals::Refusal;
use truth::on;

// One clause, of which it is known whether it holds.
fn test_one(holds: bool, at: usize) -> Result<usize, Refusal>
    requires { at + 1 < 2 ^ 63 }
    ensures { (β : Assignment) (c : Clause) → clause_true β c ≡ holds → told result ≡ tested β at (c ∷ []) }
{
    if holds {
        return Ok(at + 1);
    }
    Err(Refusal::FalseClause(at))
}

// One colour of a cell: its variable, the same negated, or nothing.
fn test_color(mask: u32, color: u32, v: usize, model: &[u8], at: usize) -> Result<usize, Refusal>
    requires of { Of model.now v }
    requires countable { Countable at (precomputed mask color v) }
    ensures { told result ≡ tested (value model.now) at (precomputed mask color v) }
{
    let there = has(mask, color);
    if solved(mask) {
        if has(mask, 0) {
            return test_one(!on(model, v), at);
        }
        if there {
            return test_one(on(model, v), at);
        }
        return Ok(at);
    }
    if there {
        return Ok(at);
    }
    test_one(!on(model, v), at)
}

// A cell, whose variables begin at v.
fn test_cell(
    mask: u32,
    palette: &[u32],
    v: usize,
    model: &[u8],
    at: usize,
) -> Result<usize, Refusal>
    requires v_nonzero { (0 < v) × (v + length palette.now ≤ length model.now + 1) }
    requires countable { Countable at (of_mask palette.now mask v) }
    ensures { told result ≡ tested (value model.now) at (of_mask palette.now mask v) }
{
    let mut to = at;
    for (r, &color) in palette.iter().enumerate() {
        to = test_color(mask, color, v + r, model, to)?;
    }
    Ok(to)
}

// All cells, whose variables begin at v.
fn test_masks(
    masks: &[u32],
    palette: &[u32],
    v: usize,
    model: &[u8],
    at: usize,
) -> Result<usize, Refusal>
    requires v_nonzero { (0 < v) × (v + length masks.now * length palette.now ≤ length model.now + 1) }
    requires countable { Countable at (of_masks palette.now masks.now v) }
    ensures { told result ≡ tested (value model.now) at (of_masks palette.now masks.now v) }
{
    let k = palette.len();
    let mut to = at;
    for (i, &mask) in masks.iter().enumerate() {
        to = test_cell(mask, palette, v + i * k, model, to)?;
    }
    Ok(to)
}

pub fn test_precomputed(
    words: &[u32],
    board: Board,
    palette: &[u32],
    model: &[u8],
    at: usize,
) -> Result<usize, Refusal>
    requires masked { Masked words.now board palette.now × (length model.now ≡ variables (puzzle words.now)) }
    requires countable { Countable at (precomputed_cells (puzzle words.now)) }
    ensures { told result ≡ tested (value model.now) at (precomputed_cells (puzzle words.now)) }
{
    let cells = board.cells;
    test_masks(&words[cells + 1..], palette, board.first, model, at)
}
