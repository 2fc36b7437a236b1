// The table of a puzzle's lines, laid once per call.
ghost use Rattle.std.specs.Prelude.{◌≡◌, cond, ℕ, ◌+◌, ◌*◌, ◌^◌, ◌≤◌, ◌<◌, eqb, ltb, length};
ghost use Rattle.lists.specs.Wrote.{Wrote};
ghost use Rattle.refusals.specs.Told.{told};
ghost use Rattle.refusals.specs.Verdict.{accepted, and_then, passed, refuse};
ghost use Rattle.lines.specs.Clue.{gap, min_space, words};
ghost use Rattle.puzzles.specs.Puzzle as P;
ghost use Rattle.puzzles.specs.Checks.{puzzle, Sectioned, spaces};
ghost use Rattle.puzzles.specs.Firsts.{first_at, positions_at};
ghost use Rattle.tables.specs.Layout.{line_size, table_size};
ghost use Rattle.tables.specs.Table.{laid_words, Laid, Found, Standing};

use crate::layout::{FIRST, LINE_SIZE, POSITIONS};
use lines::clue::starts;
use lists::{put_pair, wide};
use refusals::Refusal;

// The cells of line l.
fn line_length(l: usize, width: usize, height: usize) -> usize
    ensures { result ≡ cond (ltb l width) height width }
{
    if l < width { height } else { width }
}

// The end of line l's clue, past the rows' count after the last column.
fn next_begin(end: usize, l: usize, width: usize) -> usize
    requires { (end < 2 ^ 32) × (l < 2 ^ 32) }
    ensures { result ≡ end + cond (eqb (l + 1) width) 1 0 }
{
    if l + 1 == width { end + 1 } else { end }
}

// Lays line l, and answers how many variables it has; 6 where its clue needs more than its length.
fn lay_line(
    words: &[u32],
    l: usize,
    cells: usize,
    at: usize,
    first: usize,
    table: &mut [u32],
) -> Result<usize, Refusal>
    requires sectioned { Sectioned words.now }
    requires standing { Standing (puzzle words.now) l at first }
    requires l_bound { (l < P.lines (puzzle words.now)) × (cells ≡ P.length_at (puzzle words.now) l) × (table_size ≤ length table.old) }
    ensures result_value { told result ≡ refuse (ltb cells (min_space gap (P.clue_at (puzzle words.now) l))) 6 l (accepted (length (P.clue_at (puzzle words.now) l) * positions_at (puzzle words.now) l)) }
    ensures by_index { min_space gap (P.clue_at (puzzle words.now) l) ≤ cells → (next : ℕ) × Wrote (laid_words (puzzle words.now) l) table.old (line_size * l) table.new next }
{
    let n = wide(words[at]);
    let to = put_pair(at as u32, first as u32, table, LINE_SIZE * l);
    let answer = starts(cells, &words[at + 1..at + 1 + 2 * n], &mut table[to..]);
    answer.or(Err(Refusal::LineTooShort(l)))?;
    Ok(n * wide(table[to]))
}

// Lays the lines, columns and then rows, and answers the place where the cells begin; 6 at the first whose clue needs more than its length.
pub fn lay_lines(
    words: &[u32],
    width: usize,
    height: usize,
    table: &mut [u32],
) -> Result<usize, Refusal>
    requires sectioned { Sectioned words.now }
    requires width_value { (width ≡ P.width (puzzle words.now)) × (height ≡ P.height (puzzle words.now)) × (table_size ≤ length table.old) }
    ensures result_value { told result ≡ and_then (spaces (puzzle words.now)) (accepted (P.cells_at (puzzle words.now))) }
    ensures laid { passed ≡ spaces (puzzle words.now) → Laid (puzzle words.now) table.new }
{
    let mut at = 1;
    let mut first = 1;
    for l in 0..width + height {
        let cells = line_length(l, width, height);
        let variables = lay_line(words, l, cells, at, first, table)?;
        first += variables;
        let n = wide(words[at]);
        at = next_begin(at + 1 + 2 * n, l, width);
    }
    Ok(at)
}

// Where a line stands: its own words in the table from `line` on, and those of its clue from `begin` to `end`.
#[derive(Clone, Copy)]
pub struct Parts {
    pub line: usize,
    pub begin: usize,
    pub end: usize,
}

// The words of a puzzle's three sections, with the table of their lines.
#[derive(Clone, Copy)]
pub struct Table<'a> {
    pub words: &'a [u32],
    pub lines: &'a [u32],
    pub ghost sectioned: { Sectioned words.now },
    pub ghost laid: { Laid (puzzle words.now) lines.now },
    pub ghost long: { table_size ≤ length lines.now },
}

impl<'a> Table<'a> {
    // Line l, found through the table.
    pub fn find_line(self, l: usize) -> Parts
        requires { l < P.lines (puzzle self.words.now) }
        ensures { Found self.entry.words.now self.entry.lines.now l result }
    {
        let line = LINE_SIZE * l;
        let count = wide(self.lines[line]);
        let begin = count + 1;
        let end = begin + 2 * wide(self.words[count]);
        Parts { line, begin, end }
    }

    // The words of line l's clue.
    pub fn clue(self, l: usize) -> &'a [u32]
        requires { l < P.lines (puzzle self.words.now) }
        ensures { result.now ≡ words (P.clue_at (puzzle self.entry.words.now) l) }
    {
        let parts = self.find_line(l);
        &self.words[parts.begin..parts.end]
    }

    // The first variable behind those of line l.
    pub fn next_first(self, l: usize) -> usize
        requires { l < P.lines (puzzle self.words.now) }
        ensures { result ≡ first_at (puzzle self.entry.words.now) (l + 1) }
    {
        let parts = self.find_line(l);
        let line = parts.line;
        let blocks = (parts.end - parts.begin) / 2;
        wide(self.lines[line + FIRST]) + blocks * wide(self.lines[line + POSITIONS])
    }
}
