// The line that a refusal is told by.
ghost use Rattle.std.specs.Prelude.{◌≤◌, length};
ghost use Rattle.lists.specs.Wrote.{Wrote};
ghost use Rattle.encoding.specs.Encode.{refused_text};

use dimacs::digits::put_line;

pub fn put_refused(number: usize, place: usize, out: &mut [u8]) -> usize
    requires { 53 ≤ length out.old }
    ensures { Wrote (refused_text number place) out.old 0 out.new result × (result ≤ 53) }
{
    put_line(b"refused ", number, b" at ", place, out)
}
