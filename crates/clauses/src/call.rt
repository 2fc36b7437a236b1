// The call `clauses`.
ghost use Rattle.refusals.specs.Outcome.{Answers};
ghost use Rattle.puzzles.specs.Checks.{puzzle, puzzle_checks};
ghost use Rattle.counts.specs.Families.{buffer};

use crate::buffer::write_sections;
use boards::board::read_puzzle;
use counts::total::count_all;
use numbering::reading::Reading;
use refusals::Refusal;
use tables::layout::TABLE_SIZE;

pub fn clauses(words: &[u32], out: &mut [i32]) -> Result<usize, Refusal>
    ensures { Answers (puzzle_checks words.now) (buffer (puzzle words.now)) out.old result out.new }
{
    let mut table = [0u32; TABLE_SIZE];
    let board = read_puzzle(words, &mut table)?;
    let reading = Reading::new(words, &table, board);
    let counts = count_all(reading);
    if out.len() < counts.words {
        return Err(Refusal::OutputTooShort(counts.words));
    }
    Ok(write_sections(reading, counts, out))
}
