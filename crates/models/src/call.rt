// The calls `check_model` and `blocking`.
ghost use Rattle.std.specs.Prelude.{◌≡◌, ◌≤◌, length};
ghost use Rattle.std.specs.Result.{IfOk};
ghost use Rattle.refusals.specs.Verdict.{and_then};
ghost use Rattle.refusals.specs.Told.{checked};
ghost use Rattle.refusals.specs.Outcome.{Answers};
ghost use Rattle.sections.specs.Sections.{clause_words};
ghost use Rattle.truth.specs.Truth.{value};
ghost use Rattle.puzzles.specs.Checks.{puzzle, puzzle_checks};
ghost use Rattle.tables.specs.Layout.{table_size};
ghost use Rattle.cells.specs.Held.{puzzle_given};
ghost use Rattle.pictures.specs.Pictures as S;
ghost use Rattle.checker.specs.Models.{model_checks};

use crate::block::write_blocking;
use crate::picture::write_colors;
use boards::board::read_puzzle;
use cells::given::Given;
use checker::check::check;
use checker::count::count_true;
use numbering::palette;
use numbering::reading::Reading;
use refusals::Refusal;
use tables::layout::TABLE_SIZE;

// The puzzle read and the model checked: what is given.
fn accept<'a>(
    words: &'a [u32],
    model: &[u8],
    table: &'a mut [u32],
    colors: &'a mut [u32],
) -> Result<Given<'a>, Refusal>
    requires { (table_size ≤ length table.old) × (31 ≤ length colors.old) }
    ensures checked { checked result ≡ and_then (puzzle_checks words.now) (model_checks (puzzle words.now) model.now) }
    ensures puzzle { IfOk result (λ given. puzzle_given given ≡ puzzle words.now) }
{
    let board = read_puzzle(words, table)?;
    let reading = Reading::new(words, table, board);
    let k = palette(board.colors, colors);
    let given = Given {
        reading,
        palette: &colors[..k],
    };
    check(given, model)?;
    Ok(given)
}

// Then 12, or the picture.
pub fn check_model(words: &[u32], model: &[u8], out: &mut [u8]) -> Result<usize, Refusal>
    ensures { Answers (and_then (puzzle_checks words.now) (model_checks (puzzle words.now) model.now)) (S.shown (puzzle words.now) (value model.now)) out.old result out.new }
{
    let mut table = [0u32; TABLE_SIZE];
    let mut colors = [0u32; 31];
    let given = accept(words, model, &mut table, &mut colors)?;
    let board = given.reading.board;
    let cells = board.width * board.height;
    if out.len() < cells {
        return Err(Refusal::OutputTooShort(cells));
    }
    Ok(write_colors(model, board.first, cells, given.palette, out))
}

// Or the clause.
pub fn blocking(words: &[u32], model: &[u8], out: &mut [i32]) -> Result<usize, Refusal>
    ensures { Answers (and_then (puzzle_checks words.now) (model_checks (puzzle words.now) model.now)) (clause_words (S.blocking (puzzle words.now) (value model.now))) out.old result out.new }
{
    let mut table = [0u32; TABLE_SIZE];
    let mut colors = [0u32; 31];
    let given = accept(words, model, &mut table, &mut colors)?;
    let board = given.reading.board;
    let first = board.first;
    let n = board.width * board.height * given.palette.len();
    let count = count_true(model, first, n);
    if out.len() < 1 + count {
        return Err(Refusal::OutputTooShort(1 + count));
    }
    Ok(write_blocking(model, first, n, count, out))
}
