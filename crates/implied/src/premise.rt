// What a premise says of one cell, by the first of its variables: it has not that colour.
ghost use Rattle.std.specs.Prelude.{◌≡◌, ◌+◌, ◌≤◌, ◌<◌, length};
ghost use Rattle.lists.specs.Wrote.{Wrote};
ghost use Rattle.literals.specs.Literals.{IsVariable, largest};
ghost use Rattle.implied.specs.Implications.{premise_of};
ghost use Rattle.implied.specs.ByWords.{premise_literal, premise_at};

use literals::{no, yes};

// The literal of the variable u in a premise: itself for blank, negated for a colour.
fn premise_literal(color: u32, u: usize) -> i32
    requires { IsVariable u }
    ensures { result ≡ premise_literal color u }
{
    if color == 0 {
        return yes(u);
    }
    no(u)
}

// What a premise says of the variable u of one colour.
fn put_literal(color: u32, hue: u32, u: usize, out: &mut [i32], at: usize) -> usize
    requires variable { IsVariable u }
    requires u_in_bounds { at + length (premise_at color hue u) ≤ length out.old }
    ensures { Wrote (premise_at color hue u) out.old at out.new result }
{
    if color == 0 || hue == color {
        out[at] = premise_literal(color, u);
        return at + 1;
    }
    at
}

// The premise of a cell whose variables begin at v.
pub fn put_premise(color: u32, palette: &[u32], v: usize, out: &mut [i32]) -> usize
    requires v_nonzero { (0 < v) × (v + length palette.now ≤ largest + 1) }
    requires palette_in_bounds { length palette.now ≤ length out.old }
    ensures { Wrote (premise_of palette.now v color) out.old 0 out.new result }
{
    let mut to = 0;
    for (r, &hue) in palette.iter().enumerate() {
        to = put_literal(color, hue, v + r, out, to);
    }
    to
}
