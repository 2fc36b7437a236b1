// A mask by shifts and tests. It has no bit from 32 on, and a shift stays below 32.
ghost use Rattle.std.specs.Prelude.{◌≡◌, ◌≤◌};
ghost use Rattle.bits.specs.Bits.{bit, with_bit, solved};

// Is bit k set?
#[tactic(auto, unfolding(crate::specs::Bits::bit))]
pub fn has(mask: u32, k: u32) -> bool
    ensures { result ≡ bit mask k }
{
    if 31 < k {
        return false;
    }
    (mask >> k) & 1 == 1
}

// Sets bit k, which is one of a mask's.
pub fn set(mask: u32, k: u32) -> u32
    requires { k ≤ 31 }
    ensures { result ≡ with_bit mask k }
{
    mask | 1 << k
}

// Sets bit k.
#[tactic(auto, unfolding(crate::specs::Bits::with_bit))]
pub fn with(mask: u32, k: u32) -> u32
    ensures { result ≡ with_bit mask k }
{
    if 31 < k {
        return mask;
    }
    set(mask, k)
}

// Whether one bit is set: a mask by the number minus one drops the lowest, and none is left.
#[tactic(auto, using(crate::proofs::LowestFirst::solved_none, crate::proofs::LowestFirst::solved_alone))]
pub fn solved(mask: u32) -> bool
    ensures { result ≡ solved mask }
{
    if mask == 0 {
        return false;
    }
    mask & (mask - 1) == 0
}
