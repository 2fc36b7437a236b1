// The words of each probe in accepted probe words, one after another.
ghost use Rattle.std.specs.Prelude.{◌≡◌, length};
ghost use Rattle.std.specs.Iterator.{YieldsFirstRef, item_count};
ghost use Rattle.probes.specs.Parts.{Formed, parts_in};

use lists::wide;
use std::marker::Model;

// The words from the walk's place on, and how many probes it has left.
#[derive(Drop)]
pub struct Parts<'a> {
    rest: &'a [u32],
    left: usize,
}

// A contract sees the parts that are still to come.
impl<'a> Model for Parts<'a> {
    ghost use Rattle.std.specs.Prelude.{List, ℕ};
    ghost use Rattle.probes.specs.Parts.{Ahead, parts_ahead};

    ghost Value = { List (List ℕ) };

    ghost view = { λ p. parts_ahead p.left p.rest.now };

    ghost invariant = { λ p. Ahead p.left p.rest.now };
}

impl<'a> Parts<'a> {
    pub fn of(probe: &'a [u32]) -> Parts<'a>
        requires { Formed probe.now }
        ensures { result ≡ parts_in probe.now }
    {
        Parts {
            rest: &probe[1..],
            left: wide(probe[0]),
        }
    }
}

impl<'a> Iterator for Parts<'a> {
    type Item = &'a [u32];

    ghost next_gives = { YieldsFirstRef (λ rest. rest) };

    ghost remaining = { item_count (λ rest. rest) };

    // A claim and a count, and three words for each impact.
    fn next(&mut self) -> Option<&'a [u32]> {
        if self.left == 0 {
            return None;
        }
        let (part, rest) = self.rest.split_at(4 + 3 * wide(self.rest[3]));
        self.rest = rest;
        self.left -= 1;
        Some(part)
    }
}
