// A grid's size.
ghost use Rattle.std.specs.Prelude.{◌≡◌};
ghost use Rattle.refusals.specs.Told.{checked};
ghost use Rattle.grids.specs.Grid.{size_checks};

use lines::limits::off_size;
use refusals::Refusal;

// The product is taken of two numbers that are at most 64.
#[tactic(auto, using(crate::proofs::Checking::sizing))]
pub fn check_size(width: usize, height: usize, grid: &[u8]) -> Result<(), Refusal>
    ensures { checked result ≡ size_checks width height grid.now }
{
    if off_size(width) {
        return Err(Refusal::Size(0));
    }
    if off_size(height) {
        return Err(Refusal::Size(1));
    }
    if grid.len() != width * height {
        return Err(Refusal::CellCount(grid.len()));
    }
    Ok(())
}
