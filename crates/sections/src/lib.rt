// Clauses and sections in clause words, and the writers that the families share.
#![tactic(auto)]

ghost use Rattle.std.specs.Prelude.{[], ◌∷◌, ◌+◌, ◌≤◌, ◌<◌, length};
ghost use Rattle.lists.specs.Wrote.{Wrote};
ghost use Rattle.literals.specs.Literals.{IsVariable, largest};
ghost use Rattle.sections.specs.Sections.{clause_words, clauses_words, at_least_one, at_most_one, row};

use lists::put_slice;
use literals::{count_word, no, yes};

// The clause of literals, behind their number.
pub fn put_clause<const N: usize>(literals: [i32; N], out: &mut [i32], at: usize) -> usize
    requires literals_few { length literals < 2147483648 }
    requires literals_in_bounds { at + length (clause_words literals) ≤ length out.old }
    ensures { Wrote (clause_words literals.entry) out.old at out.new result }
{
    out[at] = count_word(literals.len());
    put_slice(&literals, out, at + 1)
}

// The clause of two.
pub fn put_two(a: i32, b: i32, out: &mut [i32], at: usize) -> usize
    requires { at + 3 ≤ length out.old }
    ensures { Wrote (clause_words (a ∷ b ∷ [])) out.old at out.new result }
{
    put_clause([a, b], out, at)
}

// The n variables from v on.
fn put_variables(v: usize, n: usize, out: &mut [i32], at: usize) -> usize
    requires v_nonzero { (0 < v) × (v + n ≤ largest + 1) }
    requires n_in_bounds { at + length (at_least_one v n) ≤ length out.old }
    ensures { Wrote (at_least_one v n) out.old at out.new result }
{
    for i in 0..n {
        out[at + i] = yes(v + i);
    }
    at + n
}

// Some of the n variables from v on.
pub fn at_least_one(v: usize, n: usize, out: &mut [i32], at: usize) -> usize
    requires v_nonzero { (0 < v) × (v + n ≤ largest + 1) }
    requires n_in_bounds { at + length (clause_words (at_least_one v n)) ≤ length out.old }
    ensures { Wrote (clause_words (at_least_one v n)) out.old at out.new result }
{
    let to = put_variables(v, n, out, at + 1);
    out[at] = count_word(n);
    to
}

// A row: x with none of the n variables from y on.
pub fn put_row(x: usize, y: usize, n: usize, out: &mut [i32], at: usize) -> usize
    requires variable { IsVariable x × (0 < y) × (y + n ≤ largest + 1) }
    requires n_in_bounds { at + length (clauses_words (row x y n)) ≤ length out.old }
    ensures { Wrote (clauses_words (row x y n)) out.old at out.new result }
{
    let mut to = at;
    for j in 0..n {
        to = put_two(no(x), no(y + j), out, to);
    }
    to
}

// No two of the n variables from v on: for each of them a row.
pub fn at_most_one(v: usize, n: usize, out: &mut [i32], at: usize) -> usize
    requires v_nonzero { (0 < v) × (v + n ≤ largest + 1) }
    requires n_in_bounds { at + length (clauses_words (at_most_one v n)) ≤ length out.old }
    ensures { Wrote (clauses_words (at_most_one v n)) out.old at out.new result }
{
    let mut to = at;
    for i in 0..n {
        to = put_row(v + i, v + i + 1, n - 1 - i, out, to);
    }
    to
}
