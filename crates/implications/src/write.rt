// The clauses of probes, by the words of accepted probes.
ghost use Rattle.std.specs.Prelude.{◌≡◌, ◌+◌, ◌≤◌, ◌<◌, length};
ghost use Rattle.lists.specs.Wrote.{Wrote};
ghost use Rattle.sections.specs.Sections.{clauses_words, section_words};
ghost use Rattle.implied.specs.ByWords.{AllOnBoard, ProbeOnBoard, of_impacts, of_probe};
ghost use Rattle.implications.specs.Held.{clauses_in};

use crate::claims::claims;
use crate::painted::{Painted, Probed};
use implied::impact::{Premise, put_impact};
use implied::premise::put_premise;
use lists::wide;
use literals::count_word;
use probes::parts::Parts;

// The impacts of a probe, three words each.
fn put_impacts(
    premise: Premise,
    impacts: &[u32],
    painted: Painted,
    out: &mut [i32],
    at: usize,
) -> usize
    requires all_on_board { AllOnBoard painted.shown.board impacts.now }
    requires impacts_in_bounds { at + length (clauses_words (of_impacts painted.shown.board painted.palette.now premise.literals.now impacts.now)) ≤ length out.old }
    ensures { Wrote (clauses_words (of_impacts painted.entry.shown.board painted.entry.palette.now premise.entry.literals.now impacts.now)) out.old at out.new result }
{
    let mut to = at;
    for &[x, y, color] in claims(impacts) {
        let v = painted.shown.cell_first(wide(x), wide(y));
        to = put_impact(premise, color, painted.palette, v, out, to);
    }
    to
}

// A probe's words, four at least: a pattern for them would have a branch that never runs. Its premise, which all its clauses begin with, is made once.
fn generate_implications(part: &[u32], painted: Painted, out: &mut [i32], at: usize) -> usize
    requires probe_on_board { ProbeOnBoard painted.shown.board part.now }
    requires part_in_bounds { at + length (clauses_words (of_probe painted.shown.board painted.palette.now part.now)) ≤ length out.old }
    ensures { Wrote (clauses_words (of_probe painted.entry.shown.board painted.entry.palette.now part.now)) out.old at out.new result }
{
    let mut literals = [0i32; 31];
    let v = painted.shown.cell_first(wide(part[0]), wide(part[1]));
    let n = put_premise(part[2], painted.palette, v, &mut literals);
    let premise = Premise {
        literals: &literals[..n],
    };
    put_impacts(premise, &part[4..], painted, out, at)
}

// The section, after the number of its clauses.
pub fn write_probes(probed: Probed, count: usize, out: &mut [i32]) -> usize
    requires count_value { (count ≡ length (clauses_in probed)) × (count < 2147483648) }
    requires probe_in_bounds { length (section_words (clauses_in probed)) ≤ length out.old }
    ensures { Wrote (section_words (clauses_in probed.entry)) out.old 0 out.new result }
{
    out[0] = count_word(count);
    let mut to = 1;
    for part in Parts::of(probed.words) {
        to = generate_implications(part, probed.painted, out, to);
    }
    to
}
