// The mask of every cell of a grid: bit 0 and the colour set.
ghost use Rattle.std.specs.Prelude.{◌≡◌, ◌+◌, ◌≤◌, length};
ghost use Rattle.lists.specs.Each.{tab};
ghost use Rattle.lists.specs.Wrote.{Wrote};
ghost use Rattle.puzzles.specs.Puzzle.{cells_words};
ghost use Rattle.grids.specs.Mask.{Colored, grid_colors, cells_mask};

use bits::mask::set;

// Bit 0 and the colours of the cells.
fn cell_colors(grid: &[u8]) -> u32
    requires { Colored grid.now }
    ensures { result ≡ grid_colors grid.now }
{
    let mut mask = 1;
    for &color in grid {
        mask = set(mask, u32::from(color));
    }
    mask
}

// A blank grid has colour 1.
#[tactic(auto, using(crate::proofs::CellMasks::mask_blank, crate::proofs::CellMasks::mask_colors))]
pub fn cells_mask(grid: &[u8]) -> u32
    requires { Colored grid.now }
    ensures { result ≡ cells_mask grid.now }
{
    let mask = cell_colors(grid);
    if mask == 1 {
        return 3;
    }
    mask
}

// Writes a section of n cells that have one mask.
pub fn put_masks(mask: u32, n: usize, out: &mut [u32], from: usize) -> usize
    requires { (n ≤ 4096) × (from + 1 + n ≤ length out.old) }
    ensures { Wrote (cells_words (tab n (λ _. mask))) out.old from out.new result }
{
    let at = from + 1;
    let to = at + n;
    out[from] = n as u32;
    out[at..to].fill(mask);
    to
}
