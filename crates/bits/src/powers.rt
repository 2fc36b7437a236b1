// A mask as its powers of two, and back.
ghost use Rattle.std.specs.Prelude.{◌≡◌};
ghost use Rattle.bits.specs.Bits.{powers, joined};
ghost use Rattle.refusals.specs.Outcome.{Answers};
ghost use Rattle.refusals.specs.Verdict.{passed};

use refusals::Refusal;

// Lists the set bits as powers, lowest first.
pub fn two_powers(mask: u32, out: &mut [u32]) -> Result<usize, Refusal>
    ensures { Answers passed (powers mask) out.old result out.new }
{
    let need = u32::count_ones(mask) as usize;
    if out.len() < need {
        return Err(Refusal::OutputTooShort(need));
    }
    let mut rest = mask;
    for word in &mut out[..need] {
        // a mask by the number minus one drops the lowest set bit
        let next = rest & (rest - 1);
        *word = rest - next;
        rest = next;
    }
    Ok(need)
}

// Joins words by or.
#[tactic(auto, unfolding(crate::specs::Bits::joined))]
pub fn from_two_powers(words: &[u32]) -> u32
    ensures { result ≡ joined words.now }
{
    words.iter().fold(0, |all, &word| all | word)
}
