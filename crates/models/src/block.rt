// The clause that blocks a picture: each true cell variable negated, ascending.
ghost use Rattle.std.specs.Prelude.{◌≡◌, ◌+◌, ◌≤◌, ◌<◌, length};
ghost use Rattle.lists.specs.Wrote.{Wrote};
ghost use Rattle.literals.specs.Literals.{largest};
ghost use Rattle.sections.specs.Sections.{clause_words};
ghost use Rattle.truth.specs.Truth.{value};
ghost use Rattle.models.specs.Shown.{negated};

use literals::{count_word, no};
use truth::on;

// The literals, of the n variables from v on.
fn put_negated(model: &[u8], v: usize, n: usize, out: &mut [i32], at: usize) -> usize
    requires v_nonzero { (0 < v) × (v + n ≤ length model.now + 1) × (v + n ≤ largest + 1) }
    requires n_in_bounds { at + length (negated (value model.now) v n) ≤ length out.old }
    ensures { Wrote (negated (value model.now) v n) out.old at out.new result }
{
    // `to` counts what was written, which not every turn does.
    let mut to = at;
    for k in 0..n {
        if !on(model, v + k) {
            continue;
        }
        out[to] = no(v + k);
        to += 1;
    }
    to
}

// The clause, of which `count` variables are true.
pub fn write_blocking(model: &[u8], v: usize, n: usize, count: usize, out: &mut [i32]) -> usize
    requires v_nonzero { (0 < v) × (v + n ≤ length model.now + 1) × (v + n ≤ largest + 1) }
    requires count_value { (count ≡ length (negated (value model.now) v n)) × (1 + count ≤ length out.old) }
    ensures { Wrote (clause_words (negated (value model.now) v n)) out.old 0 out.new result }
{
    let to = put_negated(model, v, n, out, 1);
    out[0] = count_word(count);
    to
}
