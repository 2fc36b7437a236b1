// What a rule says of a cell variable and the positions that were found.
ghost use Rattle.std.specs.Prelude.{map, ◌+◌, ◌≤◌, length};
ghost use Rattle.lists.specs.Wrote.{Wrote};
ghost use Rattle.literals.specs.Literals.{IsVariable, positive};
ghost use Rattle.sections.specs.Sections.{clauses_words};
ghost use Rattle.cells.specs.Cells.{ruled};
ghost use Rattle.cells.specs.Found.{AreVariables};
ghost use Rattle.cells.specs.declared.rule.Rule.TheVariants.{Color, Space};

use crate::rule::Rule;
use literals::{count_word, no, yes};
use sections::put_two;

// Their positive literals.
fn put_found(found: &[usize], out: &mut [i32], at: usize) -> usize
    requires are_variables { AreVariables found.now }
    requires found_in_bounds { at + length found.now ≤ length out.old }
    ensures { Wrote (map positive found.now) out.old at out.new result }
{
    for (i, &u) in found.iter().enumerate() {
        out[at + i] = yes(u);
    }
    at + found.len()
}

// 7: a cell that has the colour is covered.
fn cell_color_clauses(found: &[usize], v: usize, out: &mut [i32], at: usize) -> usize
    requires are_variables { AreVariables found.now × IsVariable v }
    requires found_len_bound { length found.now ≤ 64 }
    requires found_in_bounds { at + length (clauses_words (ruled Color v found.now)) ≤ length out.old }
    ensures { Wrote (clauses_words (ruled Color v found.now)) out.old at out.new result }
{
    out[at] = count_word(found.len() + 1);
    let to = put_found(found, out, at + 1);
    out[to] = no(v);
    to + 1
}

// 8: a cell that is covered has the colour.
fn cell_space_clauses(found: &[usize], v: usize, out: &mut [i32], at: usize) -> usize
    requires are_variables { AreVariables found.now × IsVariable v }
    requires found_in_bounds { at + length (clauses_words (ruled Space v found.now)) ≤ length out.old }
    ensures { Wrote (clauses_words (ruled Space v found.now)) out.old at out.new result }
{
    let mut to = at;
    for &u in found {
        to = put_two(no(u), yes(v), out, to);
    }
    to
}

pub fn rule_clauses(rule: Rule, found: &[usize], v: usize, out: &mut [i32], at: usize) -> usize
    requires are_variables { AreVariables found.now × IsVariable v }
    requires found_len_bound { length found.now ≤ 64 }
    requires found_in_bounds { at + length (clauses_words (ruled rule v found.now)) ≤ length out.old }
    ensures { Wrote (clauses_words (ruled rule v found.now)) out.old at out.new result }
{
    match rule {
        Rule::Color => cell_color_clauses(found, v, out, at),
        Rule::Space => cell_space_clauses(found, v, out, at),
    }
}
