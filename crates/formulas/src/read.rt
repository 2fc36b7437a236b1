// The readers of clause words of any kind, with as many variables.
ghost use Rattle.std.specs.Prelude.{List, ℤ, nat_abs};
ghost use Rattle.refusals.specs.Walk.{counted, word};
ghost use Rattle.literals.specs.Literals.{is_negative, off_literal};
ghost use Rattle.walks.proofs.Onwards.{word_onward, counted_onward};
ghost use Rattle.formulas.specs.Walk.{read_literal};

use refusals::Refusal;
use walks::{Reads, read_times};

#[derive(Clone, Copy)]
pub struct Literal {
    pub variables: u32,
}

impl Reads for Literal {
    type Word = i32;

    ghost item = { ℤ };

    ghost walk = { λ l. read_literal l.variables };

    ghost onward = { λ l. word_onward 22 (off_literal l.variables) 22 };

    fn read(self, part: &[i32], at: usize) -> Result<usize, Refusal> {
        let Some((&word, _)) = part.split_first() else {
            return Err(Refusal::ClauseWords(at));
        };
        let Some(_) = literals::Literal::read(word, self.variables) else {
            return Err(Refusal::ClauseWords(at));
        };
        Ok(at + 1)
    }
}

// A count, and as many after it.
#[derive(Clone, Copy)]
pub struct Counted<R> {
    pub of: R,
}

impl<R: Reads<Word = i32>> Reads for Counted<R> {
    type Word = i32;

    ghost item = { List R.item };

    ghost walk = { λ c. counted nat_abs (word 22 is_negative 22) (R.walk c.of) };

    ghost onward = { λ c. counted_onward (R.onward c.of) nat_abs (word_onward 22 is_negative 22) };

    fn read(self, part: &[i32], at: usize) -> Result<usize, Refusal> {
        let Some((&n, rest)) = part.split_first() else {
            return Err(Refusal::ClauseWords(at));
        };
        let Ok(n) = usize::try_from(n) else {
            return Err(Refusal::ClauseWords(at));
        };
        read_times(self.of, n, rest, at + 1)
    }
}

pub type Clause = Counted<Literal>;

pub type Section = Counted<Clause>;
