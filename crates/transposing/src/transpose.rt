// A grid's columns as rows.
ghost use Rattle.refusals.specs.Outcome.{Answers};
ghost use Rattle.grids.specs.Grid.{transposed, size_checks};

use crate::columns::put_columns;
use grids::grid::Grid;
use grids::size::check_size;
use refusals::Refusal;

// The grid of height cells a row that has the columns as its rows.
pub fn transpose(width: usize, height: usize, grid: &[u8], out: &mut [u8]) -> Result<usize, Refusal>
    ensures { Answers (size_checks width height grid.now) (transposed width height grid.now) out.old result out.new }
{
    check_size(width, height, grid)?;
    if out.len() < grid.len() {
        return Err(Refusal::OutputTooShort(grid.len()));
    }
    let sized = Grid {
        width,
        height,
        cells: grid,
    };
    Ok(put_columns(sized, out))
}
