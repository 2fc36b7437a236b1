// What an impact says of one cell behind a premise, by the first of its variables: it has that colour.
ghost use Rattle.std.specs.Prelude.{[], ◌∷◌, ◌++◌, map, ◌+◌, ◌≤◌, ◌<◌, length};
ghost use Rattle.lists.specs.Wrote.{Wrote};
ghost use Rattle.literals.specs.Literals.{IsVariable, largest};
ghost use Rattle.sections.specs.Sections.{clause_words, clauses_words};
ghost use Rattle.implied.specs.Implications.{implied, impact_of};

use literals::{count_word, no, yes};

// A premise, with room for one literal more in a clause.
#[derive(Clone, Copy)]
pub struct Premise<'a> {
    pub literals: &'a [i32],
    pub ghost short: { length literals.now < 2147483647 },
}

// The clause of a premise and one literal.
fn put_clause(premise: Premise, literal: i32, out: &mut [i32], at: usize) -> usize
    requires { at + length (clause_words (premise.literals.now ++ (literal ∷ []))) ≤ length out.old }
    ensures { Wrote (clause_words (premise.entry.literals.now ++ (literal ∷ []))) out.old at out.new result }
{
    let literals = premise.literals;
    out[at] = count_word(literals.len() + 1);
    let to = at + 1 + literals.len();
    out[at + 1..to].copy_from_slice(literals);
    out[to] = literal;
    to + 1
}

// What an impact says of the variable u of one colour: a clause, or nothing.
fn impact_clause(
    premise: Premise,
    color: u32,
    hue: u32,
    u: usize,
    out: &mut [i32],
    at: usize,
) -> usize
    requires variable { IsVariable u }
    requires u_in_bounds { at + length (clauses_words (map (λ l. premise.literals.now ++ (l ∷ [])) (implied color hue u))) ≤ length out.old }
    ensures { Wrote (clauses_words (map (λ l. premise.entry.literals.now ++ (l ∷ [])) (implied color hue u))) out.old at out.new result }
{
    if color == 0 {
        return put_clause(premise, no(u), out, at);
    }
    if hue == color {
        return put_clause(premise, yes(u), out, at);
    }
    at
}

// An impact on a cell whose variables begin at v.
pub fn put_impact(
    premise: Premise,
    color: u32,
    palette: &[u32],
    v: usize,
    out: &mut [i32],
    at: usize,
) -> usize
    requires v_nonzero { (0 < v) × (v + length palette.now ≤ largest + 1) }
    requires color_in_bounds { at + length (clauses_words (impact_of palette.now premise.literals.now v color)) ≤ length out.old }
    ensures { Wrote (clauses_words (impact_of palette.now premise.entry.literals.now v color)) out.old at out.new result }
{
    let mut to = at;
    for (r, &hue) in palette.iter().enumerate() {
        to = impact_clause(premise, color, hue, v + r, out, to);
    }
    to
}
