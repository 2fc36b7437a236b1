// A model's refusals in document 01's order: 13, 14, 15, 16.
ghost use Rattle.std.specs.Prelude.{◌≡◌};
ghost use Rattle.refusals.specs.Told.{checked};
ghost use Rattle.cells.specs.Held.{puzzle_given};
ghost use Rattle.checker.specs.Models.{model_checks};

use crate::count::{check_cells, check_values};
use crate::families::test_sections;
use cells::given::Given;
use colored::claim::Claim;
use refusals::Refusal;

pub fn check(given: Given, model: &[u8]) -> Result<(), Refusal>
    ensures { checked result ≡ model_checks (puzzle_given given.entry) model.now }
{
    let board = given.reading.board;
    let k = given.palette.len();
    let cells = board.width * board.height;
    let variables = board.first - 1 + cells * k;
    if model.len() != variables {
        return Err(Refusal::ModelLength(variables));
    }
    check_values(model)?;
    test_sections(Claim { given, model })?;
    check_cells(model, board.first, cells, k)
}
