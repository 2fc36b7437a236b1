// The readers of a puzzle's sections. Those that begin with a count differ from one another, and from `Counted` of formulas, in its test and
// in their numbers, and have no more in common than `read_times`.
ghost use Rattle.std.specs.Prelude.{◌≡◌, ◌+◌, ◌^◌, ◌<◌, ◌≤◌, eqb, IfOk, List, length, ℕ};
ghost use Rattle.refusals.specs.Told.{told};
ghost use Rattle.refusals.specs.Walk.{outcome};
ghost use Rattle.walks.proofs.Onwards.{word_onward};
ghost use Rattle.lines.specs.Clue.{Block};
ghost use Rattle.puzzles.specs.Walk.{read_block, read_clue, read_lines, read_mask, read_cells};
ghost use Rattle.puzzles.specs.Section.{IsLines};
ghost use Rattle.puzzles.specs.Onward.{block_onward, clue_onward};

use lines::limits::{off_color, off_size};
use lists::wide;
use refusals::Refusal;
use walks::{Reads, read_times};

#[derive(Clone, Copy)]
struct Block;

impl Reads for Block {
    type Word = u32;

    ghost item = { Block };

    ghost walk = { λ _. read_block };

    ghost onward = { λ _. block_onward };

    fn read(self, part: &[u32], at: usize) -> Result<usize, Refusal> {
        let Some((&size, rest)) = part.split_first() else {
            return Err(Refusal::WordMissing(at));
        };
        if size == 0 {
            return Err(Refusal::EmptyBlock(at));
        }
        let Some((&color, _)) = rest.split_first() else {
            return Err(Refusal::WordMissing(at + 1));
        };
        if off_color(color) {
            return Err(Refusal::BlockColor(at + 1));
        }
        Ok(at + 2)
    }
}

#[derive(Clone, Copy)]
struct Clue;

impl Reads for Clue {
    type Word = u32;

    ghost item = { List Block };

    ghost walk = { λ _. read_clue };

    ghost onward = { λ _. clue_onward };

    fn read(self, part: &[u32], at: usize) -> Result<usize, Refusal> {
        let Some((&n, rest)) = part.split_first() else {
            return Err(Refusal::WordMissing(at));
        };
        if 64 < n {
            return Err(Refusal::TooManyBlocks(at));
        }
        read_times(Block, wide(n), rest, at + 1)
    }
}

// Columns, or rows.
pub fn read_lines(part: &[u32], at: usize) -> Result<usize, Refusal>
    requires { at + length part.now < 2 ^ 63 }
    ensures walk { told result ≡ outcome (read_lines at part.now) }
    ensures within { IfOk result (λ end. IsLines at part.now end) }
{
    let Some((&n, rest)) = part.split_first() else {
        return Err(Refusal::WordMissing(at));
    };
    let n = wide(n);
    if off_size(n) {
        return Err(Refusal::Size(at));
    }
    read_times(Clue, n, rest, at + 1)
}

#[derive(Clone, Copy)]
struct Mask;

impl Reads for Mask {
    type Word = u32;

    ghost item = { ℕ };

    ghost walk = { λ _. read_mask };

    ghost onward = { λ _. word_onward 1 (λ w. eqb w 0) 8 };

    fn read(self, part: &[u32], at: usize) -> Result<usize, Refusal> {
        let Some((&mask, _)) = part.split_first() else {
            return Err(Refusal::WordMissing(at));
        };
        if mask == 0 {
            return Err(Refusal::EmptyMask(at));
        }
        Ok(at + 1)
    }
}

pub fn read_cells(area: usize, part: &[u32], at: usize) -> Result<usize, Refusal>
    requires { at + length part.now < 2 ^ 63 }
    ensures walk { told result ≡ outcome (read_cells area at part.now) }
    ensures within { IfOk result (λ end. (at ≤ end) × (end ≤ at + length part.now)) }
{
    let Some((&n, rest)) = part.split_first() else {
        return Err(Refusal::WordMissing(at));
    };
    let n = wide(n);
    if n != area {
        return Err(Refusal::CellCount(at));
    }
    read_times(Mask, n, rest, at + 1)
}
