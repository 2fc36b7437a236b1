// How many clauses and words the section has.
ghost use Rattle.std.specs.Prelude.{◌≡◌, true, ◌≤◌, ◌<◌, length, get_or};
ghost use Rattle.numbering.specs.Variables.{palette};
ghost use Rattle.probes.specs.Probes.{is_color};
ghost use Rattle.implied.specs.ByWords.{of_probe};
ghost use Rattle.implications.specs.Sizes.{impact_count, impacts_count, ExtentIs};
ghost use Rattle.implications.specs.Held.{clauses_in};

use crate::claims::claims;
use crate::painted::{Painted, Probed};
use bits::mask::has;
use probes::parts::Parts;

// Clauses, and their words. One type with that of dimacs would not say the unit.
#[derive(Clone, Copy)]
pub struct Extent {
    pub clauses: usize,
    pub words: usize,
}

// Of an impact.
fn impact_count(painted: Painted, color: u32) -> usize
    ensures { result ≡ impact_count painted.entry.shown.board.colors color }
{
    if color == 0 {
        return painted.palette.len();
    }
    if has(painted.shown.board.colors, color) {
        return 1;
    }
    0
}

fn count_impacts(painted: Painted, impacts: &[u32]) -> usize
    requires { length impacts.now ≤ 1048576 }
    ensures { result ≡ impacts_count painted.entry.shown.board.colors impacts.now }
{
    let mut total = 0;
    for &[_, _, color] in claims(impacts) {
        total += impact_count(painted, color);
    }
    total
}

// Of a probe's words: each clause has a count, the literals of the premise, and one literal more.
fn count_probe(painted: Painted, part: &[u32]) -> Extent
    requires part_length { (4 ≤ length part.now) × (length part.now ≤ 1048576) }
    requires part_value { is_color painted.shown.board.colors (get_or part.now 2 0) ≡ true }
    ensures { ExtentIs (of_probe painted.entry.shown.board (palette painted.entry.shown.board.colors) part.now) result }
{
    let clauses = count_impacts(painted, &part[4..]);
    if part[2] == 0 {
        return Extent {
            clauses,
            words: clauses * (painted.palette.len() + 2),
        };
    }
    Extent {
        clauses,
        words: clauses * 3,
    }
}

// Of accepted words.
pub fn count_probes(probed: Probed) -> Extent
    ensures extent_is { ExtentIs (clauses_in probed.entry) result }
    ensures clauses_bound { (result.clauses < 2147483648) × (result.words < 2147483648) }
{
    let mut clauses = 0;
    let mut words = 0;
    for part in Parts::of(probed.words) {
        let size = count_probe(probed.painted, part);
        clauses += size.clauses;
        words += size.words;
    }
    Extent { clauses, words }
}
