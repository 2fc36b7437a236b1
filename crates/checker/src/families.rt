// The ten sections, one after another, tested: the place of the first false clause counts over all of them.
ghost use mathlib.Core.List.{flatten};
ghost use Rattle.std.specs.Prelude.{◌≡◌};
ghost use Rattle.refusals.specs.Told.{told};
ghost use Rattle.truth.specs.Truth.{value};
ghost use Rattle.truth.specs.Tested.{tested, Countable};
ghost use Rattle.colored.specs.Held.{puzzle_claimed};
ghost use Rattle.counts.specs.Families.{clauses};
ghost use Rattle.clauses.specs.Groups.{both, line_sections, cell_sections};

use cells::rule::Rule as Cover;
use colored::claim::Claim;
use colored::section::test_cells;
use placed::section::test_lines;
use placement::rule::Rule;
use pointed::once::test_points;
use pointed::precomputed::test_precomputed;
use refusals::Refusal;

// What a rule says of the columns, then of the rows.
fn test_both(rule: Rule, claim: Claim, at: usize) -> Result<usize, Refusal>
    requires { Countable at (flatten (both (puzzle_claimed claim) rule)) }
    ensures { told result ≡ tested (value claim.entry.model.now) at (flatten (both (puzzle_claimed claim.entry) rule)) }
{
    let trial = claim.trial();
    let w = claim.given.reading.board.width;
    let h = claim.given.reading.board.height;
    let next = test_lines(rule, trial, 0, w, at)?;
    test_lines(rule, trial, w, h, next)
}

// Sections 1 to 6.
fn test_line_sections(claim: Claim, at: usize) -> Result<usize, Refusal>
    requires { Countable at (flatten (line_sections (puzzle_claimed claim))) }
    ensures { told result ≡ tested (value claim.entry.model.now) at (flatten (line_sections (puzzle_claimed claim.entry))) }
{
    let third = test_both(Rule::Positions, claim, at)?;
    let fifth = test_both(Rule::Once, claim, third)?;
    test_both(Rule::Overlap, claim, fifth)
}

// Sections 7 to 10.
fn test_cell_sections(claim: Claim, at: usize) -> Result<usize, Refusal>
    requires { Countable at (flatten (cell_sections (puzzle_claimed claim))) }
    ensures { told result ≡ tested (value claim.entry.model.now) at (flatten (cell_sections (puzzle_claimed claim.entry))) }
{
    let words = claim.given.reading.lines.words;
    let board = claim.given.reading.board;
    let palette = claim.given.palette;
    let eighth = test_cells(Cover::Color, claim, at)?;
    let ninth = test_cells(Cover::Space, claim, eighth)?;
    let tenth = test_points(board, palette.len(), claim.model, ninth)?;
    test_precomputed(words, board, palette, claim.model, tenth)
}

pub fn test_sections(claim: Claim) -> Result<usize, Refusal>
    ensures { told result ≡ tested (value claim.entry.model.now) 0 (clauses (puzzle_claimed claim.entry)) }
{
    let seventh = test_line_sections(claim, 0)?;
    test_cell_sections(claim, seventh)
}
