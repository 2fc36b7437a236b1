// How many clauses accepted words hold, and how many bytes their text has.
ghost use Rattle.std.specs.Prelude.{◌≡◌, ◌≤◌, length};
ghost use Rattle.formulas.specs.Clauses.{AreVariables, clauses_in};
ghost use Rattle.dimacs.specs.Text.{literal_text, clause_text, header};
ghost use Rattle.dimacs.specs.Sizes.{ExtentIs};

use crate::digits::count_digits;
use formulas::clauses::{Clauses, Formula};
use lists::wide;
use literals::Literal;

// Of the lines behind the first. One type with that of implications would not say the unit.
#[derive(Clone, Copy)]
pub struct Extent {
    pub clauses: usize,
    pub bytes: usize,
}

#[tactic(auto, using(crate::proofs::ClauseLines::literal_long))]
fn count_literal(l: Literal) -> usize
    ensures { result ≡ length (literal_text l.word) }
{
    count_digits(wide(l.magnitude())) + usize::from(l.is_negative())
}

// A space behind each literal, then 0 and a newline.
fn count_clause(clause: &[i32]) -> usize
    requires { AreVariables clause.now × (length clause.now ≤ 1073741824) }
    ensures { result ≡ length (clause_text clause.now) }
{
    let mut bytes = 0;
    for &word in clause {
        bytes += count_literal(Literal::of_word(word)) + 1;
    }
    bytes + 2
}

pub fn count_lines(formula: Formula) -> Extent
    ensures { ExtentIs (clauses_in formula.entry.words.now) result }
{
    let mut clauses = 0;
    let mut bytes = 0;
    for clause in Clauses::of(formula) {
        bytes += count_clause(clause);
        clauses += 1;
    }
    Extent { clauses, bytes }
}

#[tactic(auto, using(crate::proofs::HeaderLine::header_long))]
pub fn count_header(variables: usize, clauses: usize) -> usize
    ensures as_written { result ≡ length (header variables clauses) }
    ensures few { result ≤ 48 }
{
    count_digits(variables) + count_digits(clauses) + 8
}
