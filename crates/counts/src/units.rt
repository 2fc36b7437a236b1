// Family 10, by masks.
ghost use Rattle.std.specs.Prelude.{◌≡◌, false, ◌≤◌, length, get_or};
ghost use Rattle.lists.specs.Each.{sum};
ghost use Rattle.bits.specs.Bits.{bit};
ghost use Rattle.counts.specs.Formulas.{units_by};

use bits::mask::{has, solved};

// A cell's unit clauses: 1 if a solved colour, one for each colour if solved blank, else its excluded colours.
fn cell_units(colors: u32, mask: u32) -> usize
    requires { bit colors 0 ≡ false }
    ensures { result ≡ units_by colors mask }
{
    if !solved(mask) {
        return (u32::count_ones(colors) - u32::count_ones(colors & mask)) as usize;
    }
    if has(mask, 0) {
        return u32::count_ones(colors) as usize;
    }
    1
}

pub fn count_units(colors: u32, masks: &[u32]) -> usize
    requires { (bit colors 0 ≡ false) × (length masks.now ≤ 4096) }
    ensures { result ≡ sum (length masks.now) (λ i. units_by colors (get_or masks.now i 0)) }
{
    let mut total = 0;
    for &mask in masks {
        total += cell_units(colors, mask);
    }
    total
}
