// The bytes of a model and its true variables: 14 and 16.
ghost use Rattle.std.specs.Prelude.{◌≡◌, ◌+◌, ◌*◌, ◌≤◌, ◌<◌, length};
ghost use Rattle.refusals.specs.Told.{checked};
ghost use Rattle.truth.specs.Truth.{value};
ghost use Rattle.checker.specs.Models.{trues, value_checks, cell_checks};

use refusals::Refusal;
use truth::on;

pub fn check_values(model: &[u8]) -> Result<(), Refusal>
    ensures { checked result ≡ value_checks model.now }
{
    for (i, &byte) in model.iter().enumerate() {
        if 1 < byte {
            return Err(Refusal::ModelByte(i));
        }
    }
    Ok(())
}

// How many of the n variables from v on are true.
pub fn count_true(model: &[u8], v: usize, n: usize) -> usize
    requires { (0 < v) × (v + n ≤ length model.now + 1) }
    ensures { result ≡ trues (value model.now) v n }
{
    let mut total = 0;
    for r in 0..n {
        total += usize::from(on(model, v + r));
    }
    total
}

// Of n cells of k colours, whose variables begin at v.
pub fn check_cells(model: &[u8], v: usize, n: usize, k: usize) -> Result<(), Refusal>
    requires { (0 < v) × (v + n * k ≤ length model.now + 1) }
    ensures { checked result ≡ cell_checks (value model.now) v n k }
{
    for i in 0..n {
        if 1 < count_true(model, v + i * k, k) {
            return Err(Refusal::TwoColors(i));
        }
    }
    Ok(())
}
