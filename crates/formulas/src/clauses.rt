// The clauses that clause words hold, one after another.
ghost use Rattle.std.specs.Prelude.{◌≡◌, length};
ghost use Rattle.std.specs.Iterator.{YieldsFirstRef, item_count};
ghost use Rattle.formulas.specs.Clauses.{Formed, clauses_in};
ghost use Rattle.formulas.specs.OneProof.{formed_prop};

use crate::word::count;
use std::marker::Model;

// Clause words among which none is wrong.
#[derive(Clone, Copy)]
pub struct Formula<'a> {
    pub words: &'a [i32],
    pub ghost formed: { Formed words.now } by { formed_prop words.now },
}

// The words from the walk's place on, and how many clauses its section has left.
#[derive(Drop)]
pub struct Clauses<'a> {
    rest: &'a [i32],
    left: usize,
}

// A clause sees the clauses that are still to come.
impl<'a> Model for Clauses<'a> {
    ghost use Rattle.std.specs.Prelude.{List};
    ghost use Rattle.sections.specs.Sections.{Clause};
    ghost use Rattle.formulas.specs.Clauses.{Ahead, clauses_ahead};

    ghost Value = { List Clause };

    ghost view = { λ c. clauses_ahead c.left c.rest.now };

    ghost invariant = { λ c. Ahead c.left c.rest.now };
}

impl<'a> Clauses<'a> {
    pub fn of(formula: Formula<'a>) -> Clauses<'a>
        ensures { result ≡ clauses_in formula.entry.words.now }
    {
        Clauses {
            rest: formula.words,
            left: 0,
        }
    }
}

impl<'a> Iterator for Clauses<'a> {
    type Item = &'a [i32];

    ghost next_gives = { YieldsFirstRef (λ rest. rest) };

    ghost remaining = { item_count (λ rest. rest) };

    // Where a section has no clause left, the next word counts those of another.
    fn next(&mut self) -> Option<&'a [i32]> {
        loop {
            let (&word, rest) = self.rest.split_first()?;
            let n = count(word);
            if self.left > 0 {
                let (clause, rest) = rest.split_at(n);
                self.rest = rest;
                self.left -= 1;
                return Some(clause);
            }
            self.rest = rest;
            self.left = n;
        }
    }
}
