// The lists that loops make and the words that writers leave, with their laws; and the smallest writers.
#![tactic(auto)]

ghost use Rattle.std.specs.Prelude.{◌≡◌, [], ◌∷◌, ◌+◌, ◌≤◌, length};
ghost use Rattle.lists.specs.Wrote.{Wrote};

// The smallest writer. A writer takes a buffer and the place of the next word, and answers the place behind what it wrote: a struct around
// both proves too, but each clause would name four fields, and a second one that the buffer is the same.
pub fn put_pair(a: u32, b: u32, out: &mut [u32], at: usize) -> usize
    requires { at + 2 ≤ length out.old }
    ensures { Wrote (a ∷ b ∷ []) out.old at out.new result }
{
    out[at] = a;
    out[at + 1] = b;
    at + 2
}

pub fn put_slice<T: Copy>(part: &[T], out: &mut [T], at: usize) -> usize
    requires { at + length part.now ≤ length out.old }
    ensures { Wrote part.now out.old at out.new result }
{
    let to = at + part.len();
    out[at..to].copy_from_slice(part);
    to
}

// A word as a size: a word that was just read has no bound in sight, and a parameter has.
pub fn wide(x: u32) -> usize
    ensures { result ≡ x }
{
    x as usize
}
