// The text of accepted words.
ghost use Rattle.std.specs.Prelude.{◌+◌, ◌≤◌, length};
ghost use Rattle.lists.specs.Wrote.{Wrote};
ghost use Rattle.formulas.specs.Clauses.{AreVariables, clauses_in};
ghost use Rattle.dimacs.specs.Text.{literal_text, clause_text, clauses_text, header};

use crate::digits::{put_line, put_number};
use formulas::clauses::{Clauses, Formula};
use lists::{put_slice, wide};
use literals::Literal;

// Its sign and its variable.
fn put_literal(l: Literal, out: &mut [u8], at: usize) -> usize
    requires { at + length (literal_text l.word) ≤ length out.old }
    ensures { Wrote (literal_text l.word) out.old at out.new result }
{
    let v = wide(l.magnitude());
    if l.is_negative() {
        out[at] = b'-';
        return put_number(v, out, at + 1);
    }
    put_number(v, out, at)
}

fn put_clause(clause: &[i32], out: &mut [u8], at: usize) -> usize
    requires { AreVariables clause.now × (at + length (clause_text clause.now) ≤ length out.old) }
    ensures { Wrote (clause_text clause.now) out.old at out.new result }
{
    let mut to = at;
    for &word in clause {
        to = put_literal(Literal::of_word(word), out, to);
        out[to] = b' ';
        to += 1;
    }
    put_slice(b"0\n", out, to)
}

pub fn put_lines(formula: Formula, out: &mut [u8], at: usize) -> usize
    requires { at + length (clauses_text (clauses_in formula.words.now)) ≤ length out.old }
    ensures { Wrote (clauses_text (clauses_in formula.entry.words.now)) out.old at out.new result }
{
    let mut to = at;
    for clause in Clauses::of(formula) {
        to = put_clause(clause, out, to);
    }
    to
}

#[tactic(auto, unfolding(crate::specs::Text::header))]
pub fn put_header(variables: usize, clauses: usize, out: &mut [u8]) -> usize
    requires { length (header variables clauses) ≤ length out.old }
    ensures { Wrote (header variables clauses) out.old 0 out.new result }
{
    put_line(b"p cnf ", variables, b" ", clauses, out)
}
