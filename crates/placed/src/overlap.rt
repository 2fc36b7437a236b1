// Families 5 and 6, of one line: whether a model has no two blocks in conflict.
ghost use Rattle.std.specs.Prelude.{◌≡◌, ◌+◌, ◌≤◌, ◌<◌, length};
ghost use Rattle.refusals.specs.Told.{told};
ghost use Rattle.truth.specs.Truth.{value};
ghost use Rattle.truth.specs.Tested.{tested, Countable};
ghost use Rattle.numbering.specs.Variables.{many};
ghost use Rattle.numbering.specs.Held.{line_in};
ghost use Rattle.placement.specs.Placement.{non_overlap};
ghost use Rattle.placement.specs.PairRows.{rows_from, later_pairs};

use crate::trial::LineTrial;
use refusals::Refusal;
use truth::test_row;

// The p positions from va on, each with those from vb on that it meets: the first d meet none.
fn test_rows(
    model: &[u8],
    va: usize,
    vb: usize,
    d: usize,
    p: usize,
    at: usize,
) -> Result<usize, Refusal>
    requires va_nonzero { (0 < va) × (va + p ≤ length model.now + 1) × (0 < vb) × (vb + p ≤ length model.now + 1) }
    requires countable { Countable at (rows_from va vb d p) }
    ensures { told result ≡ tested (value model.now) at (rows_from va vb d p) }
{
    let mut to = at;
    for i in d..p {
        to = test_row(model, va + i, vb, i + 1 - d, to)?;
    }
    Ok(to)
}

// Block a with each later one.
fn test_later(a: usize, trial: LineTrial, at: usize) -> Result<usize, Refusal>
    requires a_bound { a < many (line_in trial.line) }
    requires countable { Countable at (later_pairs (line_in trial.line) a) }
    ensures { told result ≡ tested (value trial.entry.model.now) at (later_pairs (line_in trial.entry.line) a) }
{
    let p = trial.line.positions();
    let va = trial.line.block_first(a);
    let mut to = at;
    for b in a + 1..trial.line.blocks() {
        let d = trial.line.distance_of(a, b);
        to = test_rows(trial.model, va, trial.line.block_first(b), d, p, to)?;
    }
    Ok(to)
}

// Each block with the later ones.
pub fn test_overlaps(trial: LineTrial, at: usize) -> Result<usize, Refusal>
    requires { Countable at (non_overlap (line_in trial.line)) }
    ensures { told result ≡ tested (value trial.entry.model.now) at (non_overlap (line_in trial.entry.line)) }
{
    let mut to = at;
    for a in 0..trial.line.blocks() {
        to = test_later(a, trial, to)?;
    }
    Ok(to)
}
