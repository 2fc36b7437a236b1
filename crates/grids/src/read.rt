// Reading a grid into puzzle words.
ghost use Rattle.std.specs.Prelude.{◌≡◌, ◌≤◌, length};
ghost use Rattle.lists.specs.Wrote.{Wrote};
ghost use Rattle.refusals.specs.Told.{checked};
ghost use Rattle.refusals.specs.Outcome.{Answers};
ghost use Rattle.grids.specs.Grid.{grid_checks, grid_words};
ghost use Rattle.grids.specs.Mask.{Colored};

use crate::clues::{count_clues, count_columns, put_clues};
use crate::grid::Grid;
use crate::masks::{cells_mask, put_masks};
use crate::size::check_size;
use refusals::Refusal;
use runs::line::check_bytes;

// The size, then the bytes.
fn check_grid(width: usize, height: usize, grid: &[u8]) -> Result<(), Refusal>
    ensures { checked result ≡ grid_checks width height grid.now }
{
    check_size(width, height, grid)?;
    check_bytes(grid)
}

// How many words the puzzle takes.
#[tactic(auto, using(crate::proofs::GridWords::grid_words_most, crate::proofs::GridWords::grid_words_length))]
fn count_grid(grid: Grid) -> usize
    ensures { result ≡ length (grid_words grid.entry.width grid.entry.height grid.entry.cells.now) }
{
    count_columns(grid) + count_clues(grid) + 1 + grid.cells.len()
}

// Writes the columns, the rows and the cells.
fn put_grid(grid: Grid, out: &mut [u32]) -> usize
    requires { Colored grid.cells.now × (length (grid_words grid.width grid.height grid.cells.now) ≤ length out.old) }
    ensures { Wrote (grid_words grid.entry.width grid.entry.height grid.entry.cells.now) out.old 0 out.new result }
{
    let width = grid.width;
    let height = grid.height;
    let rows = put_clues(width, 1, width, height, grid.cells, out, 0);
    let cells = put_clues(height, width, 1, width, grid.cells, out, rows);
    put_masks(cells_mask(grid.cells), grid.cells.len(), out, cells)
}

// The puzzle that a grid solves, with all masks open.
pub fn read_grid(
    width: usize,
    height: usize,
    grid: &[u8],
    out: &mut [u32],
) -> Result<usize, Refusal>
    ensures { Answers (grid_checks width height grid.now) (grid_words width height grid.now) out.old result out.new }
{
    check_grid(width, height, grid)?;
    let sized = Grid {
        width,
        height,
        cells: grid,
    };
    let need = count_grid(sized);
    if out.len() < need {
        return Err(Refusal::OutputTooShort(need));
    }
    Ok(put_grid(sized, out))
}
