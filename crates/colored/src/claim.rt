// What the tests of the cells' sections are given.
ghost use Rattle.std.specs.Prelude.{◌≡◌, length};
ghost use Rattle.numbering.specs.Variables.{variables};
ghost use Rattle.cells.specs.Held.{puzzle_given};

use cells::given::Given;
use placed::trial::Trial;

// A puzzle as it was read, and a model that has a byte for each of its variables.
#[derive(Clone, Copy)]
pub struct Claim<'a> {
    pub given: Given<'a>,
    pub model: &'a [u8],
    pub ghost known: { length model.now ≡ variables (puzzle_given given) },
}

impl<'a> Claim<'a> {
    ghost use Rattle.placed.specs.Held.{puzzle_tried};
    ghost use Rattle.colored.specs.Held.{puzzle_claimed};

    // What the tests of its lines are given.
    pub fn trial(self) -> Trial<'a>
        ensures puzzle { puzzle_tried result ≡ puzzle_claimed self.entry }
        ensures model { result.model.now ≡ self.entry.model.now }
    {
        Trial {
            lines: self.given.reading.lines,
            model: self.model,
        }
    }
}
