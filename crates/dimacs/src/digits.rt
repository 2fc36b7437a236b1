// Numbers in decimal digits, most significant first, and a line of two.
ghost use Rattle.std.specs.Prelude.{◌≡◌, ◌+◌, ◌≤◌, ◌<◌, length};
ghost use Rattle.lists.specs.Wrote.{Wrote};
ghost use Rattle.dimacs.specs.Text.{digit, digits, numbers_line};

use lists::put_slice;

// 0 has one, as 1 has.
#[tactic(auto, using(crate::proofs::NumberText::digits_count))]
pub fn count_digits(n: usize) -> usize
    ensures as_written { result ≡ length (digits n) }
    ensures few { result ≤ 20 }
{
    n.max(1).ilog10() as usize + 1
}

// The byte of one digit.
fn digit(d: usize) -> u8
    requires { d < 10 }
    ensures { result ≡ digit d }
{
    b'0' + d as u8
}

// The digits of its tenth are written first, and then the last.
pub fn put_number(n: usize, out: &mut [u8], at: usize) -> usize
    requires { at + length (digits n) ≤ length out.old }
    ensures { Wrote (digits n) out.old at out.new result }
{
    if 10 <= n {
        let to = put_number(n / 10, out, at);
        out[to] = digit(n % 10);
        return to + 1;
    }
    out[at] = digit(n);
    at + 1
}

// A line of two numbers, each behind its words.
#[tactic(auto, using(crate::proofs::HeaderLine::line_long))]
pub fn put_line(before: &[u8], a: usize, between: &[u8], b: usize, out: &mut [u8]) -> usize
    requires { length (numbers_line before.now a between.now b) ≤ length out.old }
    ensures { Wrote (numbers_line before.now a between.now b) out.old 0 out.new result }
{
    let at = put_slice(before, out, 0);
    let to = put_number(a, out, at);
    let from = put_slice(between, out, to);
    let end = put_number(b, out, from);
    put_slice(b"\n", out, end)
}
