// The colour set K, as a mask, and the checks against it.
ghost use Rattle.std.specs.Prelude.{◌≡◌};
ghost use Rattle.refusals.specs.Told.{checked};
ghost use Rattle.lines.specs.Clue.{blocks};
ghost use Rattle.puzzles.specs.Puzzle as P;
ghost use Rattle.puzzles.specs.Colors.{with_colors, known, off_solved};
ghost use Rattle.puzzles.specs.Checks as C;

use bits::mask::{has, solved, with};
use lines::clue::blocks;
use refusals::Refusal;
use tables::table::Table;

// The mask, with the colours of a clue's blocks.
fn with_colors(mask: u32, clue: &[u32]) -> u32
    ensures { result ≡ with_colors mask (blocks clue.now) }
{
    let mut all = mask;
    for &[_, color] in blocks(clue) {
        all = with(all, color);
    }
    all
}

// The colours of row blocks, or 1 alone where no row has a block.
pub fn row_colors(table: Table, width: usize, height: usize) -> u32
    requires { (width ≡ P.width (C.puzzle table.words.now)) × (height ≡ P.height (C.puzzle table.words.now)) }
    ensures { result ≡ C.colors (C.puzzle table.entry.words.now) }
{
    let mut all = 0;
    for l in width..width + height {
        all = with_colors(all, table.clue(l));
    }
    if all == 0 {
        return 2;
    }
    all
}

// Whether every block of a clue has a colour of K.
fn all_known(colors: u32, clue: &[u32]) -> bool
    ensures { result ≡ known colors (blocks clue.now) }
{
    for &[_, color] in blocks(clue) {
        if !has(colors, color) {
            return false;
        }
    }
    true
}

// The first column with a colour that K lacks.
pub fn check_columns(table: Table, width: usize, colors: u32) -> Result<(), Refusal>
    requires { width ≡ P.width (C.puzzle table.words.now) }
    ensures { checked result ≡ C.column_checks colors (C.puzzle table.entry.words.now).columns }
{
    for l in 0..width {
        if !all_known(colors, table.clue(l)) {
            return Err(Refusal::ColumnColor(l));
        }
    }
    Ok(())
}

// Whether a mask is a solved cell's whose colour K lacks.
fn off_solved(colors: u32, mask: u32) -> bool
    ensures { result ≡ off_solved colors mask }
{
    if !solved(mask) {
        return false;
    }
    mask & (colors | 1) == 0
}

// The first cell that is solved with a colour that K lacks.
pub fn check_cells(masks: &[u32], colors: u32) -> Result<(), Refusal>
    ensures { checked result ≡ C.solved_checks colors masks.now }
{
    for (i, &mask) in masks.iter().enumerate() {
        if off_solved(colors, mask) {
            return Err(Refusal::SolvedColor(i));
        }
    }
    Ok(())
}
