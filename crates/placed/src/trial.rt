// What the tests of a model are given.
ghost use Rattle.std.specs.Prelude.{◌≡◌, ◌<◌, length};
ghost use Rattle.puzzles.specs.Puzzle as P;
ghost use Rattle.numbering.specs.Variables.{line_at, variables};
ghost use Rattle.numbering.specs.Held.{line_in, puzzle_in};
ghost use Rattle.placed.specs.Known.{Known};
ghost use Rattle.placed.specs.OneProof.{known_prop};

use numbering::line::Line;
use numbering::reading::Lines;

// The lines of a puzzle, and a model that has a byte for each of its variables.
#[derive(Clone, Copy)]
pub struct Trial<'a> {
    pub lines: Lines<'a>,
    pub model: &'a [u8],
    pub ghost known: { length model.now ≡ variables (puzzle_in lines) },
}

// One line, and a model that has a byte for each of its variables.
#[derive(Clone, Copy)]
pub struct LineTrial<'a> {
    pub line: Line<'a>,
    pub model: &'a [u8],
    pub ghost known: { Known (length model.now) (line_in line) } by { known_prop (length model.now) (line_in line) },
}

impl<'a> Trial<'a> {
    ghost use Rattle.placed.specs.Held.{puzzle_tried};

    // Line l.
    pub fn line(self, l: usize) -> LineTrial<'a>
        requires { l < P.lines (puzzle_tried self) }
        ensures line { line_in result.line ≡ line_at (puzzle_tried self.entry) l }
        ensures model { result.model.now ≡ self.entry.model.now }
    {
        LineTrial {
            line: self.lines.line(l),
            model: self.model,
        }
    }
}
