// Family 7 of a cell: where it has a colour, some position of the colour covers it, in its column and in its row.
ghost use Rattle.std.specs.Prelude.{◌≡◌, ◌+◌, ◌^◌, ◌<◌};
ghost use Rattle.lists.specs.Each.{each};
ghost use Rattle.refusals.specs.Told.{told};
ghost use Rattle.puzzles.specs.Puzzle as P;
ghost use Rattle.truth.specs.Truth.{value};
ghost use Rattle.truth.specs.Tested.{tested};
ghost use Rattle.placed.specs.Held.{puzzle_tried};
ghost use Rattle.cells.specs.declared.rule.Rule.TheVariants.{Color};
ghost use Rattle.colored.specs.Models.{Of};
ghost use Rattle.colored.specs.Sides.{of_side};

use cells::covering::find_covering;
use placed::trial::Trial;
use refusals::Refusal;
use truth::on;

// The clauses of column x and of the row's line, whose cells are y and x. The cell variable v is the first literal that is looked at:
// few cells have the colour, and for the others no position is looked for.
pub fn test_support(
    trial: Trial,
    x: usize,
    row: usize,
    y: usize,
    color: u32,
    v: usize,
    found: &mut [usize; 64],
    at: usize,
) -> Result<usize, Refusal>
    requires { (x < P.lines (puzzle_tried trial)) × (row < P.lines (puzzle_tried trial)) × Of trial.model.now v × (at + 2 < 2 ^ 63) }
    ensures { told result ≡ tested (value trial.entry.model.now) at (each 2 (of_side (puzzle_tried trial.entry) Color color v x row y)) }
{
    let sides = [(x, y), (row, x)];
    'clauses: for (side, &(l, t)) in sides.iter().enumerate() {
        if !on(trial.model, v) {
            continue 'clauses;
        }
        let n = find_covering(trial.lines, l, t, color, found);
        for &u in &found[..n] {
            if on(trial.model, u) {
                continue 'clauses;
            }
        }
        return Err(Refusal::FalseClause(at + side));
    }
    Ok(at + 2)
}
