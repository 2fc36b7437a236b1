// Family 9: no cell has two colours. Cells column by column, top to bottom.
ghost use Rattle.std.specs.Prelude.{◌≡◌, ◌<◌, length};
ghost use Rattle.refusals.specs.Told.{told};
ghost use Rattle.puzzles.specs.Puzzle.{Puzzle};
ghost use Rattle.numbering.specs.Variables.{variables};
ghost use Rattle.truth.specs.Truth.{value};
ghost use Rattle.truth.specs.Tested.{tested, Countable};
ghost use Rattle.cells.specs.Cells.{point_once};
ghost use Rattle.cells.specs.Given.{Shows};
ghost use Rattle.points.specs.Points.{column_once};

use boards::board::Board;
use cells::given::Shown;
use refusals::Refusal;
use truth::test_at_most_one;

// Of column x.
fn test_column(shown: Shown, x: usize, model: &[u8], at: usize) -> Result<usize, Refusal>
    requires known { (z : Puzzle) × Shows shown.board shown.hues z × (length model.now ≡ variables z) }
    requires x_lt_width { x < shown.board.width }
    requires countable { Countable at (column_once shown.board shown.hues x) }
    ensures { told result ≡ tested (value model.now) at (column_once shown.board shown.hues x) }
{
    let mut to = at;
    for y in 0..shown.board.height {
        to = test_at_most_one(model, shown.cell_first(x, y), shown.hues, to)?;
    }
    Ok(to)
}

// On a board of k colours.
pub fn test_points(board: Board, k: usize, model: &[u8], at: usize) -> Result<usize, Refusal>
    requires { (z : Puzzle) × Shows board k z × (length model.now ≡ variables z) × Countable at (point_once z) }
    ensures { (z : Puzzle) → Shows board k z → told result ≡ tested (value model.now) at (point_once z) }
{
    let shown = Shown { board, hues: k };
    let mut to = at;
    for x in 0..board.width {
        to = test_column(shown, x, model, to)?;
    }
    Ok(to)
}
