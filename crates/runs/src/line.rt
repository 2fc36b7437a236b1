// Reading one line of colour bytes.
ghost use Rattle.std.specs.Prelude.{◌≡◌, ℕ, ◌+◌, ◌≤◌, ◌<◌, length, get_or};
ghost use Rattle.lists.specs.Wrote.{Wrote};
ghost use Rattle.refusals.specs.Told.{checked};
ghost use Rattle.refusals.specs.Outcome.{Answers};
ghost use Rattle.lines.specs.Clue.{words};
ghost use Rattle.runs.specs.Begins.{begins};
ghost use Rattle.lines.specs.Line.{run};
ghost use Rattle.runs.specs.Strided.{strided, Strided};
ghost use Rattle.lines.specs.Calls.{byte_checks, line_checks, line_words};

use lines::limits::off_size;
use lists::put_pair;
use refusals::Refusal;

// A byte that none exceeds: a walk with no way out, many bytes at a time.
fn largest(line: &[u8]) -> u8
    ensures { (i : ℕ) → i < length line.now → get_or line.now i 0 ≤ result }
{
    let mut most: u8 = 0;
    for &x in line {
        most = most.max(x);
    }
    most
}

// The first byte that is no colour.
fn find_byte(line: &[u8]) -> Result<(), Refusal>
    ensures { checked result ≡ byte_checks line.now }
{
    for (i, &color) in line.iter().enumerate() {
        if 31 < color {
            return Err(Refusal::ColorTooLarge(i));
        }
    }
    Ok(())
}

// Looks for the first byte that is no colour only where there is one.
#[tactic(auto, using(lines::proofs::Checks::bytes_passed))]
pub fn check_bytes(line: &[u8]) -> Result<(), Refusal>
    ensures { checked result ≡ byte_checks line.now }
{
    if largest(line) <= 31 {
        return Ok(());
    }
    find_byte(line)
}

// 1 where a cell begins a run after one of the colour before. It is added, so that the loops which count have no branch.
#[tactic(auto, unfolding(crate::specs::Begins::begins))]
pub fn run_begins(before: u8, color: u8) -> u8
    ensures { (result ≡ begins before color) × (result ≤ 1) }
{
    u8::from(color != before && color != 0)
}

// How many words the runs of a line take: two for each cell that begins one. A byte counts them, so that many cells are taken at a time.
pub fn count_words(line: &[u8]) -> usize
    requires { length line.now ≤ 64 }
    ensures { result ≡ length (line_words line.now) }
{
    let mut count: u8 = 0;
    let mut color: u8 = 0;
    for &next in line {
        count += run_begins(color, next);
        color = next;
    }
    2 * usize::from(count)
}

// Writes a run that has ended, where it is not blank.
fn put_run(size: u32, color: u8, out: &mut [u32], at: usize) -> usize
    requires { at + length (words (run size color)) ≤ length out.old }
    ensures { Wrote (words (run size color)) out.old at out.new result }
{
    if color == 0 {
        return at;
    }
    put_pair(size, u32::from(color), out, at)
}

// Writes the runs of n cells, each a step after the one before.
pub fn put_runs(
    cells: &[u8],
    from: usize,
    step: usize,
    n: usize,
    out: &mut [u32],
    at: usize,
) -> usize
    requires { Strided from step n cells.now × (at + length (line_words (strided from step n cells.now)) ≤ length out.old) }
    ensures { Wrote (line_words (strided from step n cells.now)) out.old at out.new result }
{
    let mut to = at;
    let mut size: u32 = 0;
    let mut color: u8 = 0;
    for i in 0..n {
        let next = cells[i * step + from];
        if next == color {
            size += 1;
            continue;
        }
        to = put_run(size, color, out, to);
        size = 1;
        color = next;
    }
    put_run(size, color, out, to)
}

// Writes the runs of a line.
fn from_line(line: &[u8], out: &mut [u32]) -> usize
    requires { (length line.now ≤ 64) × (length (line_words line.now) ≤ length out.old) }
    ensures { Wrote (line_words line.now) out.old 0 out.new result }
{
    put_runs(line, 0, 1, line.len(), out, 0)
}

// The maximal runs of one non-blank colour, as size and colour pairs.
pub fn read_line(line: &[u8], out: &mut [u32]) -> Result<usize, Refusal>
    ensures { Answers (line_checks line.now) (line_words line.now) out.old result out.new }
{
    if off_size(line.len()) {
        return Err(Refusal::Size(0));
    }
    check_bytes(line)?;
    let need = count_words(line);
    if out.len() < need {
        return Err(Refusal::OutputTooShort(need));
    }
    Ok(from_line(line, out))
}
