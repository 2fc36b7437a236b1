// The walk over all sections.
ghost use Rattle.std.specs.Prelude.{◌≡◌, ◌+◌, ◌^◌, ◌<◌, length};
ghost use Rattle.refusals.specs.Told.{told};
ghost use Rattle.refusals.specs.Verdict.{accepted, and_then};
ghost use Rattle.refusals.specs.Walk.{walked};
ghost use Rattle.puzzles.specs.Puzzle.{rows_at};
ghost use Rattle.puzzles.specs.Walk.{read_puzzle};
ghost use Rattle.puzzles.specs.Checks.{puzzle_of};

use crate::section::{read_cells, read_lines};
use lists::wide;
use refusals::Refusal;

// The walk, then 11; and else the place where the rows begin. The part is words from place `at` on.
pub fn check_sections(part: &[u32], at: usize) -> Result<usize, Refusal>
    requires { at + length part.now < 2 ^ 63 }
    ensures { told result ≡ and_then (walked 11 (read_puzzle at part.now)) (accepted (at + rows_at (puzzle_of (read_puzzle at part.now)))) }
{
    // `let .. else`, and not `?`: each of the three hands its refusal up as it came.
    let columns = read_lines(part, at);
    let Ok(rows) = columns else {
        return columns;
    };
    let read = read_lines(&part[rows - at..], rows);
    let Ok(cells) = read else {
        return read;
    };
    let area = wide(part[0]) * wide(part[rows - at]);
    let masks = read_cells(area, &part[cells - at..], cells);
    let Ok(end) = masks else {
        return masks;
    };
    if end - at < part.len() {
        return Err(Refusal::LeftOver(end));
    }
    Ok(rows)
}
