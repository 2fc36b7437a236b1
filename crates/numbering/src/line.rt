// A line of an accepted puzzle: what is read of it.
ghost use Rattle.std.specs.Prelude.{◌≡◌, List, ℕ, ◌+◌, ◌/◌, ◌≤◌, ◌<◌, length};
ghost use Rattle.literals.specs.Literals.{largest};
ghost use Rattle.lines.specs.Clue.{gap};
ghost use Rattle.lines.specs.Arrangement.{at, Meets};
ghost use Rattle.lines.specs.Arrangement as Arrangement;
ghost use Rattle.lines.specs.Runs.{run};
ghost use Rattle.tables.specs.Layout.{line_size};
ghost use Rattle.numbering.specs.Variables.{many, first_of};
ghost use Rattle.numbering.specs.Tables.{Sound, line_of};
ghost use Rattle.numbering.specs.OneProof.{sound_prop};

use lines::meet::{Run, distance};
use lists::wide;
use tables::layout::{FIRST, POSITIONS, STARTS};

// Its words in the table, and those of its clue.
#[derive(Clone, Copy)]
pub struct Line<'a> {
    pub laid: &'a [u32],
    pub clue: &'a [u32],
    pub ghost sound: { Sound (line_of laid.now clue.now) } by { sound_prop (line_of laid.now clue.now) },
    pub ghost long: { line_size ≤ length laid.now },
}

// Its first variable.
#[tactic(auto, using(crate::proofs::SoundLines::of_first))]
pub fn first_of(line: &[u32]) -> usize
    requires { line_size ≤ length line.now }
    ensures { (clue : List ℕ) → result ≡ (line_of line.now clue).first }
{
    wide(line[FIRST])
}

// The positions of each of its blocks.
#[tactic(auto, using(crate::proofs::SoundLines::of_positions))]
pub fn positions_of(line: &[u32]) -> usize
    requires { line_size ≤ length line.now }
    ensures { (clue : List ℕ) → result ≡ (line_of line.now clue).positions }
{
    wide(line[POSITIONS])
}

impl<'a> Line<'a> {
    ghost use Rattle.numbering.specs.Held.{line_in};

    // Its first variable.
    pub fn first(self) -> usize
        ensures { result ≡ (line_in self.entry).first }
    {
        first_of(self.laid)
    }

    // The positions of each of its blocks.
    pub fn positions(self) -> usize
        ensures { result ≡ (line_in self.entry).positions }
    {
        positions_of(self.laid)
    }

    // How many blocks it has.
    #[tactic(auto, using(crate::proofs::SoundLines::of_many))]
    pub fn blocks(self) -> usize
        ensures many { result ≡ many (line_in self.entry) }
        ensures words { result ≡ length self.entry.clue.now / 2 }
    {
        self.clue.len() / 2
    }

    // The first variable of block b.
    #[tactic(auto, using(crate::proofs::SoundLines::sound_most, crate::proofs::SoundLines::sound_least))]
    pub fn block_first(self, b: usize) -> usize
        requires { b < many (line_in self) }
        ensures value { result ≡ first_of (line_in self.entry) b }
        ensures variables { (0 < result) × (result + (line_in self.entry).positions ≤ largest + 1) }
    {
        self.first() + b * self.positions()
    }

    // Block b.
    #[tactic(auto, using(crate::proofs::SoundLines::of_many, crate::proofs::SoundLines::sound_few))]
    pub fn run_at(self, b: usize) -> Run
        requires { b < length self.clue.now / 2 }
        ensures { run result ≡ at (line_in self.entry).runs b }
    {
        let start = wide(self.laid[STARTS + b]);
        let size = wide(self.clue[2 * b]);
        let color = self.clue[2 * b + 1];
        Run { start, size, color }
    }

    // How far block a must be ahead of the later block b to meet it.
    pub fn distance_of(self, a: usize, b: usize) -> usize
        requires { (a < b) × (b < length self.clue.now / 2) }
        ensures meets { Meets gap (at (line_in self.entry).runs a) (at (line_in self.entry).runs b) result }
        ensures value { result ≡ Arrangement.distance gap (at (line_in self.entry).runs a) (at (line_in self.entry).runs b) }
    {
        distance(self.run_at(a), self.run_at(b))
    }
}
