// The call `probes`.
ghost use Rattle.std.specs.Prelude.{◌≡◌};
ghost use Rattle.refusals.specs.Outcome.{Answers};
ghost use Rattle.refusals.specs.Verdict.{and_then, passed};
ghost use Rattle.sections.specs.Sections.{section_words};
ghost use Rattle.puzzles.specs.Puzzle.{Puzzle};
ghost use Rattle.puzzles.specs.Good.{Good};
ghost use Rattle.puzzles.specs.Checks.{puzzle, puzzle_checks};
ghost use Rattle.boards.specs.Reading.{Stands};
ghost use Rattle.numbering.specs.Variables as N;
ghost use Rattle.probes.specs.Probes as P;
ghost use Rattle.probes.specs.Probes.{probe_checks, checks_on};
ghost use Rattle.implied.specs.Implications.{implications};
ghost use Rattle.implied.specs.ByWords.{of_probes};

use crate::count::count_probes;
use crate::painted::{Painted, Probed};
use crate::write::write_probes;
use boards::board::{Board, read_puzzle};
use cells::given::Shown;
use numbering::palette;
use probes::read::check_probes;
use refusals::Refusal;
use tables::layout::TABLE_SIZE;

// Once the probes are checked: 12, or the section.
fn write_section(board: Board, probe: &[u32], out: &mut [i32]) -> Result<usize, Refusal>
    requires good { (z : Puzzle) × Good z × Stands board z }
    requires passed_value { passed ≡ checks_on board.width board.height board.colors probe.now }
    ensures { Answers passed (section_words (of_probes board (N.palette board.colors) probe.now)) out.old result out.new }
{
    let mut colors = [0u32; 31];
    let k = palette(board.colors, &mut colors);
    let shown = Shown { board, hues: k };
    let painted = Painted {
        shown,
        palette: &colors[..k],
    };
    let probed = Probed {
        painted,
        words: probe,
    };
    let size = count_probes(probed);
    let need = 1 + size.words;
    if out.len() < need {
        return Err(Refusal::OutputTooShort(need));
    }
    Ok(write_probes(probed, size.clauses, out))
}

// Once the puzzle is read: the probes' refusals, and what follows.
fn answer_probes(board: Board, probe: &[u32], out: &mut [i32]) -> Result<usize, Refusal>
    requires { (z : Puzzle) × Good z × Stands board z }
    ensures { Answers (checks_on board.width board.height board.colors probe.now) (section_words (of_probes board (N.palette board.colors) probe.now)) out.old result out.new }
{
    check_probes(board.width, board.height, board.colors, probe)?;
    write_section(board, probe, out)
}

pub fn probes(words: &[u32], probe: &[u32], out: &mut [i32]) -> Result<usize, Refusal>
    ensures { Answers (and_then (puzzle_checks words.now) (probe_checks (puzzle words.now) probe.now)) (section_words (implications (puzzle words.now) (P.probes (puzzle words.now) probe.now))) out.old result out.new }
{
    let mut table = [0u32; TABLE_SIZE];
    let board = read_puzzle(words, &mut table)?;
    answer_probes(board, probe, out)
}
