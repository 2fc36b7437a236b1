// The check of clause words: the limits, then the walk.
ghost use Rattle.std.specs.Prelude.{◌≡◌};
ghost use Rattle.refusals.specs.Told.{checked};
ghost use Rattle.formulas.specs.Walk.{word_checks};

use crate::read::{Clause, Literal, Section};
use refusals::Refusal;
use walks::read_times;

// The most that are taken.
const SECTIONS: usize = 16;

const WORDS: usize = 1_073_741_824;

pub fn check_words(variables: usize, sections: usize, words: &[i32]) -> Result<(), Refusal>
    ensures { checked result ≡ word_checks variables sections words.now }
{
    if (literals::Literal::LARGEST as usize) < variables {
        return Err(Refusal::DimacsLimit(0));
    }
    if SECTIONS < sections {
        return Err(Refusal::DimacsLimit(1));
    }
    if WORDS < words.len() {
        return Err(Refusal::DimacsLimit(2));
    }
    let literal = Literal {
        variables: variables as u32,
    };
    let section = Section {
        of: Clause { of: literal },
    };
    let end = read_times(section, sections, words, 0)?;
    if end < words.len() {
        return Err(Refusal::ClauseWords(end));
    }
    Ok(())
}
