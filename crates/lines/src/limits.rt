// Which numbers are sizes and colours.
ghost use Rattle.std.specs.Prelude.{◌≡◌};
ghost use Rattle.lines.specs.Calls.{off_size, off_color};

// Whether n is no width, height or line length.
pub fn off_size(n: usize) -> bool
    ensures { result ≡ off_size n }
{
    n == 0 || 64 < n
}

// Whether c is no colour of a block.
pub fn off_color(c: u32) -> bool
    ensures { result ≡ off_color c }
{
    c == 0 || 31 < c
}
