// The call `dimacs`: clause words of any kind, written as text.
ghost use Rattle.std.specs.Prelude.{◌≡◌, ◌≤◌, length};
ghost use Rattle.lists.specs.Wrote.{Wrote};
ghost use Rattle.refusals.specs.Outcome.{Answers};
ghost use Rattle.refusals.specs.Verdict.{passed};
ghost use Rattle.formulas.specs.Walk.{word_checks, clauses_of};
ghost use Rattle.formulas.specs.Clauses.{clauses_in};
ghost use Rattle.dimacs.specs.Text.{text};

use crate::count::{count_header, count_lines};
use crate::write::{put_header, put_lines};
use formulas::check::check_words;
use formulas::clauses::Formula;
use refusals::Refusal;

// The first line, and a line per clause.
#[tactic(auto, using(crate::proofs::HeaderLine::text_long))]
fn put_text(variables: usize, clauses: usize, formula: Formula, out: &mut [u8]) -> usize
    requires { (clauses ≡ length (clauses_in formula.words.now)) × (length (text variables (clauses_in formula.words.now)) ≤ length out.old) }
    ensures { Wrote (text variables (clauses_in formula.entry.words.now)) out.old 0 out.new result }
{
    let at = put_header(variables, clauses, out);
    put_lines(formula, out, at)
}

// The text, where there is room.
#[tactic(auto, using(crate::proofs::HeaderLine::text_long))]
fn write_text(variables: usize, formula: Formula, out: &mut [u8]) -> Result<usize, Refusal>
    ensures { Answers passed (text variables (clauses_in formula.entry.words.now)) out.old result out.new }
{
    let size = count_lines(formula);
    let need = count_header(variables, size.clauses) + size.bytes;
    if out.len() < need {
        return Err(Refusal::OutputTooShort(need));
    }
    Ok(put_text(variables, size.clauses, formula, out))
}

pub fn dimacs(
    variables: usize,
    sections: usize,
    words: &[i32],
    out: &mut [u8],
) -> Result<usize, Refusal>
    ensures { Answers (word_checks variables sections words.now) (text variables (clauses_of variables sections words.now)) out.old result out.new }
{
    check_words(variables, sections, words)?;
    write_text(variables, Formula { words }, out)
}
