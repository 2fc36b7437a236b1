// From the bytes that were read to those that are written.
ghost use Rattle.std.specs.Prelude.{◌≡◌, ◌≤◌, length};
ghost use Rattle.lists.specs.Wrote.{Wrote};
ghost use Rattle.refusals.specs.Told.{checked};
ghost use Rattle.refusals.specs.Outcome.{Answers};
ghost use Rattle.puzzles.specs.Checks.{puzzle};
ghost use Rattle.encoding.specs.Encode.{words_of, input_checks, text_of, words_checks, bytes_checks, encoded};

use crate::refused::put_refused;
use crate::words::read_words;
use clauses::call::clauses;
use counts::call::counts;
use dimacs::call::dimacs;
use lists::wide;
use refusals::Refusal;

// The most bytes that it takes, and the most that it writes.
const BYTES: usize = 65536;

// As many words as they hold.
const WORDS: usize = 16384;

// The sections of a clause buffer.
const SECTIONS: usize = 10;

// The most clause words that it holds.
fn clause_buffer() -> [i32; 16384]
    ensures { 16384 ≡ length result }
{
    [0; 16384]
}

// 23.
fn check_input(input: &[u8]) -> Result<(), Refusal>
    ensures { checked result ≡ input_checks input.now }
{
    if BYTES < input.len() {
        return Err(Refusal::ProgramInput(BYTES));
    }
    if input.len() % 4 != 0 {
        return Err(Refusal::ProgramInput(input.len()));
    }
    Ok(())
}

// The DIMACS text of a puzzle's clauses: its own refusals, 12 by words, 12 by bytes.
fn write_puzzle(words: &[u32], out: &mut [u8]) -> Result<usize, Refusal>
    ensures { Answers (words_checks words.now) (text_of (puzzle words.now)) out.old result out.new }
{
    let mut numbers = [0u64; 13];
    counts(words, &mut numbers)?;
    let mut buffer = clause_buffer();
    let n = clauses(words, &mut buffer)?;
    dimacs(numbers[0] as usize, SECTIONS, &buffer[..n], out)
}

// The same, of the bytes that hold its words.
fn write_input(input: &[u8], out: &mut [u8]) -> Result<usize, Refusal>
    ensures { Answers (bytes_checks input.now) (text_of (puzzle (words_of input.now))) out.old result out.new }
{
    check_input(input)?;
    let mut words = [0; WORDS];
    let n = read_words(input, &mut words);
    write_puzzle(&words[..n], out)
}

// The text, or the refusal.
fn tell(input: &[u8], out: &mut [u8]) -> usize
    requires { 65536 ≡ length out.old }
    ensures { Wrote (encoded input.now) out.old 0 out.new result × (result ≤ 65536) }
{
    match write_input(input, out) {
        Ok(used) => used,
        Err(why) => put_refused(wide(why.number()), why.place(), out),
    }
}

// What the program writes, of what it read.
pub fn encode(input: &[u8], out: &mut [u8]) -> usize
    requires { 65536 ≤ length out.old }
    ensures { Wrote (encoded input.now) out.old 0 out.new result × (result ≤ 65536) }
{
    tell(input, &mut out[..BYTES])
}
