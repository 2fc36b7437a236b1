// Single words as counts.
ghost use Rattle.std.specs.Prelude.{◌≡◌, false, nat_abs};
ghost use Rattle.literals.specs.Literals.{is_negative};

// The count that a word says.
pub fn count(word: i32) -> usize
    requires { is_negative word ≡ false }
    ensures { result ≡ nat_abs word }
{
    word as usize
}
