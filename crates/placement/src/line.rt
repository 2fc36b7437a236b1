// What is said of the blocks of one line.
ghost use Rattle.std.specs.Prelude.{◌+◌, ◌≤◌, length};
ghost use Rattle.lists.specs.Wrote.{Wrote};
ghost use Rattle.sections.specs.Sections.{clauses_words};
ghost use Rattle.numbering.specs.Held.{line_in};
ghost use Rattle.placement.specs.Placement.{block_positions, block_once, ruled};

use crate::overlap::non_overlap_clauses;
use crate::rule::Rule;
use numbering::line::Line;
use sections::{at_least_one, at_most_one};

// Per block: some position.
fn block_positions_clauses(line: Line, out: &mut [i32], at: usize) -> usize
    requires { at + length (clauses_words (block_positions (line_in line))) ≤ length out.old }
    ensures { Wrote (clauses_words (block_positions (line_in line.entry))) out.old at out.new result }
{
    let p = line.positions();
    let mut to = at;
    for b in 0..line.blocks() {
        to = at_least_one(line.block_first(b), p, out, to);
    }
    to
}

// Per block: no two positions.
fn block_once_clauses(line: Line, out: &mut [i32], at: usize) -> usize
    requires { at + length (clauses_words (block_once (line_in line))) ≤ length out.old }
    ensures { Wrote (clauses_words (block_once (line_in line.entry))) out.old at out.new result }
{
    let p = line.positions();
    let mut to = at;
    for b in 0..line.blocks() {
        to = at_most_one(line.block_first(b), p, out, to);
    }
    to
}

// What a rule says of the line.
#[tactic(auto, unfolding(crate::specs::Placement::ruled))]
pub fn line_clauses(rule: Rule, line: Line, out: &mut [i32], at: usize) -> usize
    requires { at + length (clauses_words (ruled rule (line_in line))) ≤ length out.old }
    ensures { Wrote (clauses_words (ruled rule (line_in line.entry))) out.old at out.new result }
{
    match rule {
        Rule::Positions => block_positions_clauses(line, out, at),
        Rule::Once => block_once_clauses(line, out, at),
        Rule::Overlap => non_overlap_clauses(line, out, at),
    }
}
