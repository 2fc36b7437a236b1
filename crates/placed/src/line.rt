// What a model makes of the blocks of one line.
ghost use Rattle.std.specs.Prelude.{◌≡◌};
ghost use Rattle.refusals.specs.Told.{told};
ghost use Rattle.truth.specs.Truth.{value};
ghost use Rattle.truth.specs.Tested.{tested, Countable};
ghost use Rattle.numbering.specs.Held.{line_in};
ghost use Rattle.placement.specs.Placement.{block_positions, block_once, ruled};

use crate::overlap::test_overlaps;
use crate::trial::LineTrial;
use placement::rule::Rule;
use refusals::Refusal;
use truth::{on, test_at_most_one};

// Per block: some position.
fn test_positions(trial: LineTrial, at: usize) -> Result<usize, Refusal>
    requires { Countable at (block_positions (line_in trial.line)) }
    ensures { told result ≡ tested (value trial.entry.model.now) at (block_positions (line_in trial.entry.line)) }
{
    let p = trial.line.positions();
    let n = trial.line.blocks();
    'clauses: for b in 0..n {
        let first = trial.line.block_first(b);
        for i in 0..p {
            if on(trial.model, first + i) {
                continue 'clauses;
            }
        }
        return Err(Refusal::FalseClause(at + b));
    }
    Ok(at + n)
}

// Per block: no two positions.
fn test_once(trial: LineTrial, at: usize) -> Result<usize, Refusal>
    requires { Countable at (block_once (line_in trial.line)) }
    ensures { told result ≡ tested (value trial.entry.model.now) at (block_once (line_in trial.entry.line)) }
{
    let p = trial.line.positions();
    let mut to = at;
    for b in 0..trial.line.blocks() {
        to = test_at_most_one(trial.model, trial.line.block_first(b), p, to)?;
    }
    Ok(to)
}

// What a rule says of the line.
pub fn test_rule(rule: Rule, trial: LineTrial, at: usize) -> Result<usize, Refusal>
    requires { Countable at (ruled rule (line_in trial.line)) }
    ensures { told result ≡ tested (value trial.entry.model.now) at (ruled rule (line_in trial.entry.line)) }
{
    match rule {
        Rule::Positions => test_positions(trial, at),
        Rule::Once => test_once(trial, at),
        Rule::Overlap => test_overlaps(trial, at),
    }
}
