// Readers of words. Each gets the words that are left and the place where they begin, and answers the place behind what it read.
#![tactic(auto)]

ghost use Rattle.std.specs.Prelude.{◌≡◌, ℕ, ◌+◌, ◌^◌, ◌<◌, List, length};
ghost use Rattle.refusals.specs.Told.{told};
ghost use Rattle.refusals.specs.Walk.{Walk, outcome, times};
ghost use Rattle.walks.specs.Onward.{Onward};

use refusals::Refusal;

// A reader of one thing goes as its walk does, which takes what it reads off the front.
pub trait Reads: Copy {
    type Word: Copy;

    ghost item: { Type 0 };

    ghost walk: { Self → ℕ → List Self.Word → Walk Self.Word item };

    fn read(self, part: &[Self::Word], at: usize) -> Result<usize, Refusal>
        requires { at + length part.now < 2 ^ 63 }
        ensures { told result ≡ outcome (walk self at part.now) };

    ghost onward: { (r : Self) → Onward (walk r) };
}

// n of them, one after another.
pub fn read_times<R: Reads>(
    reader: R,
    n: usize,
    part: &[R::Word],
    at: usize,
) -> Result<usize, Refusal>
    requires { at + length part.now < 2 ^ 63 }
    ensures { told result ≡ outcome (times n (R.walk reader) at part.now) }
{
    let mut i = 0;
    for _ in 0..n {
        let next = reader.read(&part[i..], at + i)?;
        i = next - at;
    }
    Ok(at + i)
}
