// The columns of a grid, one after another.
ghost use Rattle.std.specs.Prelude.{◌+◌, ◌≤◌, ◌<◌, length};
ghost use Rattle.lists.specs.Wrote.{Wrote};
ghost use Rattle.grids.specs.Grid.{column, transposed};

use grids::grid::Grid;

// Writes column x.
fn put_column(grid: Grid, x: usize, out: &mut [u8], at: usize) -> usize
    requires { (x < grid.width) × (at + grid.height ≤ length out.old) }
    ensures { Wrote (column grid.entry.width grid.entry.height grid.entry.cells.now x) out.old at out.new result }
{
    for y in 0..grid.height {
        out[at + y] = grid.cells[y * grid.width + x];
    }
    at + grid.height
}

// Writes the columns.
pub fn put_columns(grid: Grid, out: &mut [u8]) -> usize
    requires { length grid.cells.now ≤ length out.old }
    ensures { Wrote (transposed grid.entry.width grid.entry.height grid.entry.cells.now) out.old 0 out.new result }
{
    let mut at = 0;
    for x in 0..grid.width {
        at = put_column(grid, x, out, at);
    }
    at
}
