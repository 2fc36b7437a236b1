// Colour ranges: from the first block's start up to where the last block can end.
ghost use Rattle.std.specs.Prelude.{◌≡◌, ℕ, ◌+◌, ◌≤◌, length, IfSome};
ghost use Rattle.lists.specs.Each.{each};
ghost use Rattle.lists.specs.Wrote.{Wrote};
ghost use Rattle.refusals.specs.Outcome.{Answers};
ghost use Rattle.lines.specs.Clue as Clue;
ghost use Rattle.lines.specs.Calls.{clue_checks, ranges_words};
ghost use Rattle.ranges.specs.Spanned.{spanned};

use lines::clue::{blocks, check_clue, positions_number};
use lines::gap::gap;
use lists::put_pair;
use refusals::Refusal;

// The packed blocks of a colour: the first one's start and the last one's end.
#[derive(Clone, Copy)]
struct Span {
    start: u32,
    end: u32,
}

fn color_span(clue: &[u32], color: u32) -> Option<Span>
    requires { Clue.min_space Clue.gap (Clue.blocks clue.now) ≤ 64 }
    ensures by_index { (slack : ℕ) → Clue.range slack (Clue.of_color color (Clue.packed Clue.gap (Clue.blocks clue.now))) ≡ spanned slack result }
    ensures end_bound { IfSome result (λ span. span.end ≤ Clue.min_space Clue.gap (Clue.blocks clue.now)) }
{
    let mut span: Option<Span> = None;
    let mut at: u32 = 0;
    let mut last: u32 = 0;
    for &[size, next] in blocks(clue) {
        let start = at + gap(last, next);
        at = start + size;
        last = next;
        if next != color {
            continue;
        }
        span = match span {
            None => Some(Span { start, end: at }),
            Some(found) => Some(Span { end: at, ..found }),
        };
    }
    span
}

// Writes the range of one colour.
fn put_range(clue: &[u32], color: u32, slack: u32, out: &mut [u32], at: usize) -> usize
    requires slack_bound { Clue.min_space Clue.gap (Clue.blocks clue.now) + slack ≤ 64 }
    requires at_in_bounds { at + 2 ≤ length out.old }
    ensures { Wrote (Clue.range slack (Clue.of_color color (Clue.packed Clue.gap (Clue.blocks clue.now)))) out.old at out.new result }
{
    match color_span(clue, color) {
        Some(span) => put_pair(span.start, span.end + slack, out, at),
        None => put_pair(0, 0, out, at),
    }
}

// Writes the ranges of the colours 1 to 31.
fn put_ranges(clue: &[u32], slack: u32, out: &mut [u32]) -> usize
    requires slack_bound { Clue.min_space Clue.gap (Clue.blocks clue.now) + slack ≤ 64 }
    requires in_bounds { 62 ≤ length out.old }
    ensures { Wrote (each 31 (λ k. Clue.range slack (Clue.of_color (k + 1) (Clue.packed Clue.gap (Clue.blocks clue.now))))) out.old 0 out.new result }
{
    let mut at = 0;
    for k in 0..31 {
        at = put_range(clue, k + 1, slack, out, at);
    }
    at
}

// A pair of numbers for each colour 1 to 31, zeros where the clue has none.
pub fn color_ranges(length: usize, clue: &[u32], out: &mut [u32]) -> Result<usize, Refusal>
    ensures { Answers (clue_checks length clue.now) (ranges_words length clue.now) out.old result out.new }
{
    let space = check_clue(length, clue)?;
    if out.len() < 62 {
        return Err(Refusal::OutputTooShort(62));
    }
    let slack = positions_number(length, space) - 1;
    Ok(put_ranges(clue, slack as u32, out))
}
