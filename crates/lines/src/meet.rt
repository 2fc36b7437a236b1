// Blocks at their positions: how far apart two of them are, and which cells one covers.
ghost use Rattle.std.specs.Prelude.{◌≡◌, false, ◌+◌, ◌≤◌};
ghost use Rattle.lines.specs.Clue as Clue;
ghost use Rattle.lines.specs.Arrangement.{moved, clash, Meets};
ghost use Rattle.lines.specs.Arrangement as Arrangement;
ghost use Rattle.lines.specs.Runs.{run};

use crate::gap::gap;
use lists::wide;

// A block with its place in the packed line.
#[derive(Clone, Copy)]
pub struct Run {
    pub start: usize,
    pub size: usize,
    pub color: u32,
}

// By how much the earlier of two blocks that are not in conflict must move ahead of the later one to be.
pub fn distance(earlier: Run, later: Run) -> usize
    requires { (clash Clue.gap (run earlier) (run later) ≡ false) × (later.start ≤ 64) }
    ensures { Meets Clue.gap (run earlier) (run later) result × (result ≡ Arrangement.distance Clue.gap (run earlier) (run later)) }
{
    let end = earlier.start + earlier.size;
    later.start - end + 1 - wide(gap(earlier.color, later.color))
}

// Whether the block, i cells to the right, covers cell t.
pub fn covers(block: Run, i: usize, t: usize) -> bool
    requires { Clue.end (run block) + i ≤ 64 }
    ensures { result ≡ Arrangement.covers (moved (run block) i) t }
{
    let start = block.start + i;
    if t < start {
        return false;
    }
    t < start + block.size
}

// Whether it begins behind cell t: from there on it does not cover the cell (`behind_none`).
pub fn behind(block: Run, i: usize, t: usize) -> bool
    requires { Clue.end (run block) + i ≤ 64 }
    ensures { result ≡ Arrangement.behind (moved (run block) i) t }
{
    t < block.start + i
}
