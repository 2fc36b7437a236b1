// The colours of a puzzle in order: the ranks by which the variables of its cells are numbered.
#![tactic(auto)]

pub mod line;
pub mod reading;

ghost use Rattle.std.specs.Prelude.{◌≤◌, length};
ghost use Rattle.lists.specs.Wrote.{Wrote};
ghost use Rattle.numbering.specs.Variables as N;

use bits::mask::has;

// The colours of a set, ascending; answers how many there are.
pub fn palette(colors: u32, out: &mut [u32]) -> usize
    requires { 31 ≤ length out.old }
    ensures { Wrote (N.palette colors) out.old 0 out.new result }
{
    // `at` counts what was written, which not every turn does.
    let mut at = 0;
    for k in 0..31 {
        if !has(colors, k + 1) {
            continue;
        }
        out[at] = k + 1;
        at += 1;
    }
    at
}
