// A literal of clause words: v or -v, for a variable v.
#![tactic(auto)]

ghost use Rattle.std.specs.Prelude.{◌≡◌, ◌<◌, pos};
ghost use Rattle.literals.specs.Literals.{IsVariable, positive, negative, variable, is_negative, Reading};

#[derive(Clone, Copy)]
pub struct Literal {
    word: i32,
}

impl Literal {
    // The largest variable.
    pub const LARGEST: u32 = 1_000_000;

    pub fn positive(v: u32) -> Literal
        requires { IsVariable v }
        ensures { result.word ≡ positive v }
    {
        Literal { word: v as i32 }
    }

    pub fn negative(v: u32) -> Literal
        requires { IsVariable v }
        ensures { result.word ≡ negative v }
    {
        Literal { word: -(v as i32) }
    }

    // Of a word that is one. From cannot require that, and TryFrom would add a way to fail.
    pub fn of_word(word: i32) -> Literal
        requires { IsVariable (variable word) }
        ensures { result.word ≡ word }
    {
        Literal { word: word }
    }

    pub fn is_negative(self) -> bool
        ensures { result ≡ is_negative self.word }
    {
        self.word.is_negative()
    }

    // The variable.
    pub fn magnitude(self) -> u32
        ensures { result ≡ variable self.word }
    {
        self.word.unsigned_abs()
    }

    // Any word, within the variables: TryFrom takes no such bound. The smallest i32 is refused.
    pub fn read(word: i32, variables: u32) -> Option<Literal>
        ensures { Reading variables word result }
    {
        let literal = Literal { word: word };
        let v = literal.magnitude();
        if v == 0 || v > variables || v > Self::LARGEST {
            return None;
        }
        Some(literal)
    }
}

impl From<Literal> for i32 {
    ghost from_gives = { λ literal word. word ≡ literal.word };

    fn from(literal: Literal) -> i32 {
        literal.word
    }
}

// The words that writers put down.
pub fn yes(v: usize) -> i32
    requires { IsVariable v }
    ensures { result ≡ positive v }
{
    Literal::positive(v as u32).into()
}

pub fn no(v: usize) -> i32
    requires { IsVariable v }
    ensures { result ≡ negative v }
{
    Literal::negative(v as u32).into()
}

// The word of a count. What it requires leaves try_from no way to fail.
pub fn count_word(n: usize) -> i32
    requires { n < 2147483648 }
    ensures { result ≡ pos n }
{
    n as i32
}
