// A clue's words: their check, the least space, the starts.
ghost use Rattle.std.specs.Prelude.{◌≡◌, ◌+◌, ◌-◌, ◌/◌, ◌≤◌, length};
ghost use Rattle.lists.specs.Wrote.{Wrote};
ghost use Rattle.refusals.specs.Told.{checked, told};
ghost use Rattle.refusals.specs.Verdict.{accepted, and_then};
ghost use Rattle.refusals.specs.Outcome.{Answers};
ghost use Rattle.lines.specs.Clue as Clue;
ghost use Rattle.lines.specs.Calls.{block_checks, clue_checks, pairs, starts_words};

use crate::gap::gap;
use crate::limits::{off_color, off_size};
use refusals::Refusal;

// A clue's blocks, each its size and its colour.
pub fn blocks(clue: &[u32]) -> &[[u32; 2]]
    ensures { result.now ≡ pairs (Clue.blocks clue.now) }
{
    clue.as_chunks::<2>().0
}

// The first word that is no size or no colour.
fn check_blocks(clue: &[u32]) -> Result<(), Refusal>
    ensures { checked result ≡ block_checks 0 clue.now }
{
    for (b, &[size, color]) in blocks(clue).iter().enumerate() {
        if size == 0 {
            return Err(Refusal::EmptyBlock(2 * b));
        }
        if off_color(color) {
            return Err(Refusal::BlockColor(2 * b + 1));
        }
    }
    Ok(())
}

// The end of the last block; 64 sizes of 32 bits do not wrap in 64.
fn min_space(clue: &[u32]) -> u64
    requires { length clue.now / 2 ≤ 64 }
    ensures { result ≡ Clue.min_space Clue.gap (Clue.blocks clue.now) }
{
    let mut at: u64 = 0;
    let mut color: u32 = 0;
    for &[size, next] in blocks(clue) {
        at = at + u64::from(gap(color, next)) + u64::from(size);
        color = next;
    }
    at
}

// Where the clue is one of a line of that length: its least space.
#[tactic(auto, using(crate::proofs::Checks::clue_checking))]
pub fn check_clue(length: usize, clue: &[u32]) -> Result<usize, Refusal>
    ensures { told result ≡ and_then (clue_checks length clue.now) (accepted (Clue.min_space Clue.gap (Clue.blocks clue.now))) }
{
    if off_size(length) {
        return Err(Refusal::Size(0));
    }
    if clue.len() % 2 == 1 {
        return Err(Refusal::WordMissing(clue.len()));
    }
    if 64 < clue.len() / 2 {
        return Err(Refusal::TooManyBlocks(0));
    }
    check_blocks(clue)?;
    let space = min_space(clue);
    if (length as u64) < space {
        return Err(Refusal::LineTooShort(0));
    }
    Ok(space as usize)
}

// The positions of each block.
pub fn positions_number(length: usize, space: usize) -> usize
    requires { (space ≤ length) × (length ≤ 64) }
    ensures { result ≡ length - space + 1 }
{
    length - space + 1
}

// Writes the starts of the blocks.
fn block_starts(clue: &[u32], out: &mut [u32], from: usize) -> usize
    requires clue_bound { Clue.min_space Clue.gap (Clue.blocks clue.now) ≤ 64 }
    requires clue_in_bounds { from + length clue.now / 2 ≤ length out.old }
    ensures { Wrote (Clue.starts (Clue.packed Clue.gap (Clue.blocks clue.now))) out.old from out.new result }
{
    let mut at: u32 = 0;
    let mut color: u32 = 0;
    for (b, &[size, next]) in blocks(clue).iter().enumerate() {
        let start = at + gap(color, next);
        out[from + b] = start;
        at = start + size;
        color = next;
    }
    from + clue.len() / 2
}

// The positions, the least space, then the starts.
pub fn starts(length: usize, clue: &[u32], out: &mut [u32]) -> Result<usize, Refusal>
    ensures { Answers (clue_checks length clue.now) (starts_words length clue.now) out.old result out.new }
{
    let space = check_clue(length, clue)?;
    let need = 2 + clue.len() / 2;
    if out.len() < need {
        return Err(Refusal::OutputTooShort(need));
    }
    out[0] = positions_number(length, space) as u32;
    out[1] = space as u32;
    Ok(block_starts(clue, out, 2))
}
