// The call `counts`: variables, the ten clause counts, all literals, words.
ghost use Rattle.refusals.specs.Outcome.{Answers};
ghost use Rattle.puzzles.specs.Checks.{puzzle, puzzle_checks};
ghost use Rattle.counts.specs.Families.{counts_of};

use crate::total::count_all;
use boards::board::read_puzzle;
use numbering::reading::Reading;
use refusals::Refusal;
use tables::layout::TABLE_SIZE;

pub fn counts(words: &[u32], out: &mut [u64]) -> Result<usize, Refusal>
    ensures { Answers (puzzle_checks words.now) (counts_of (puzzle words.now)) out.old result out.new }
{
    let mut table = [0u32; TABLE_SIZE];
    let board = read_puzzle(words, &mut table)?;
    if out.len() < 13 {
        return Err(Refusal::OutputTooShort(13));
    }
    let counts = count_all(Reading::new(words, &table, board));
    out[..13].copy_from_slice(&counts.numbers());
    Ok(13)
}
