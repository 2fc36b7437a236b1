// The picture that a model shows: one colour byte per cell, row by row.
ghost use Rattle.std.specs.Prelude.{◌≡◌, ◌+◌, ◌*◌, ◌≤◌, ◌<◌, length};
ghost use Rattle.lists.specs.Wrote.{Wrote};
ghost use Rattle.truth.specs.Truth.{value};
ghost use Rattle.pictures.specs.Pictures.{color_of};
ghost use Rattle.models.specs.Shown.{AreBytes, cell_colors};

use truth::on;

// The first colour of the palette whose variable is true, the variables from v on.
fn color_of(model: &[u8], v: usize, palette: &[u32]) -> u8
    requires { (0 < v) × (v + length palette.now ≤ length model.now + 1) × AreBytes palette.now }
    ensures { result ≡ color_of (value model.now) v palette.now }
{
    for (r, &color) in palette.iter().enumerate() {
        if on(model, v + r) {
            return color as u8;
        }
    }
    0
}

// Of n cells, whose variables begin at v.
pub fn write_colors(model: &[u8], v: usize, n: usize, palette: &[u32], out: &mut [u8]) -> usize
    requires v_nonzero { (0 < v) × (v + n * length palette.now ≤ length model.now + 1) × AreBytes palette.now }
    requires n_in_bounds { n ≤ length out.old }
    ensures { Wrote (cell_colors (value model.now) v n palette.now) out.old 0 out.new result }
{
    let k = palette.len();
    for i in 0..n {
        out[i] = color_of(model, v + i * k, palette);
    }
    n
}
