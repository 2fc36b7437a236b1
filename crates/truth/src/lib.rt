// What a model makes of clauses, tested with no clause written.
#![tactic(auto)]

ghost use Rattle.std.specs.Prelude.{◌≡◌, ◌+◌, ◌≤◌, ◌<◌, length};
ghost use Rattle.refusals.specs.Told.{told};
ghost use Rattle.sections.specs.Sections.{row, at_most_one};
ghost use Rattle.truth.specs.Truth.{value};
ghost use Rattle.truth.specs.Tested.{tested, Countable};

use refusals::Refusal;

// Whether the model makes a variable true.
pub fn on(model: &[u8], v: usize) -> bool
    requires { (0 < v) × (v ≤ length model.now) }
    ensures { result ≡ value model.now v }
{
    model[v - 1] == 1
}

// A row: x with none of the n variables from y on.
pub fn test_row(model: &[u8], x: usize, y: usize, n: usize, at: usize) -> Result<usize, Refusal>
    requires x_nonzero { (0 < x) × (x ≤ length model.now) × (0 < y) × (y + n ≤ length model.now + 1) }
    requires countable { Countable at (row x y n) }
    ensures { told result ≡ tested (value model.now) at (row x y n) }
{
    if !on(model, x) {
        return Ok(at + n);
    }
    for j in 0..n {
        if on(model, y + j) {
            return Err(Refusal::FalseClause(at + j));
        }
    }
    Ok(at + n)
}

// No two of the n variables from v on: for each of them a row.
pub fn test_at_most_one(model: &[u8], v: usize, n: usize, at: usize) -> Result<usize, Refusal>
    requires v_nonzero { (0 < v) × (v + n ≤ length model.now + 1) }
    requires countable { Countable at (at_most_one v n) }
    ensures { told result ≡ tested (value model.now) at (at_most_one v n) }
{
    let mut to = at;
    for i in 0..n {
        to = test_row(model, v + i, v + i + 1, n - 1 - i, to)?;
    }
    Ok(to)
}
