// The entries: each hands its arguments to the crate that does the work, and the answer's number and place to the caller.
#![tactic(auto)]

ghost use Rattle.std.specs.Prelude.{◌≡◌};
ghost use Rattle.refusals.specs.Told.{told};
ghost use Rattle.refusals.specs.Verdict as V;
ghost use Rattle.haafgrim.specs.Entries.{TwoPowers, FromTwoPowers, ReadLine, Starts, ColorRanges, ReadGrid, Transpose, Clauses, Counts, CheckModel, Blocking, Probes, Dimacs};

use refusals::Refusal;

// An answer as C sees it: 0 and how many words or bytes were written, or a refusal's number and its place.
fn tell(answer: Result<usize, Refusal>, place: &mut usize) -> u32
    ensures number { result ≡ V.number (told answer) }
    ensures place { place.new ≡ V.place (told answer) }
{
    let (number, at) = match answer {
        Ok(n) => (0, n),
        Err(why) => (why.number(), why.place()),
    };
    *place = at;
    number
}

pub fn haafgrim_two_powers(mask: u32, out: &mut [u32], place: &mut usize) -> u32
    ensures { TwoPowers mask out.old result place.new out.new }
{
    tell(bits::powers::two_powers(mask, out), place)
}

pub fn haafgrim_from_two_powers(words: &[u32]) -> u32
    ensures { FromTwoPowers words.now result }
{
    bits::powers::from_two_powers(words)
}

pub fn haafgrim_read_line(line: &[u8], out: &mut [u32], place: &mut usize) -> u32
    ensures { ReadLine line.now out.old result place.new out.new }
{
    tell(runs::line::read_line(line, out), place)
}

pub fn haafgrim_starts(length: usize, clue: &[u32], out: &mut [u32], place: &mut usize) -> u32
    ensures { Starts length clue.now out.old result place.new out.new }
{
    tell(lines::clue::starts(length, clue, out), place)
}

pub fn haafgrim_color_ranges(length: usize, clue: &[u32], out: &mut [u32], place: &mut usize) -> u32
    ensures { ColorRanges length clue.now out.old result place.new out.new }
{
    tell(ranges::range::color_ranges(length, clue, out), place)
}

pub fn haafgrim_read_grid(
    width: usize,
    height: usize,
    grid: &[u8],
    out: &mut [u32],
    place: &mut usize,
) -> u32
    ensures { ReadGrid width height grid.now out.old result place.new out.new }
{
    tell(grids::read::read_grid(width, height, grid, out), place)
}

pub fn haafgrim_transpose(
    width: usize,
    height: usize,
    grid: &[u8],
    out: &mut [u8],
    place: &mut usize,
) -> u32
    ensures { Transpose width height grid.now out.old result place.new out.new }
{
    tell(
        transposing::transpose::transpose(width, height, grid, out),
        place,
    )
}

pub fn haafgrim_clauses(puzzle: &[u32], out: &mut [i32], place: &mut usize) -> u32
    ensures { Clauses puzzle.now out.old result place.new out.new }
{
    tell(clauses::call::clauses(puzzle, out), place)
}

pub fn haafgrim_counts(puzzle: &[u32], out: &mut [u64], place: &mut usize) -> u32
    ensures { Counts puzzle.now out.old result place.new out.new }
{
    tell(counts::call::counts(puzzle, out), place)
}

pub fn haafgrim_check_model(puzzle: &[u32], model: &[u8], out: &mut [u8], place: &mut usize) -> u32
    ensures { CheckModel puzzle.now model.now out.old result place.new out.new }
{
    tell(models::call::check_model(puzzle, model, out), place)
}

pub fn haafgrim_blocking(puzzle: &[u32], model: &[u8], out: &mut [i32], place: &mut usize) -> u32
    ensures { Blocking puzzle.now model.now out.old result place.new out.new }
{
    tell(models::call::blocking(puzzle, model, out), place)
}

pub fn haafgrim_probes(puzzle: &[u32], probe: &[u32], out: &mut [i32], place: &mut usize) -> u32
    ensures { Probes puzzle.now probe.now out.old result place.new out.new }
{
    tell(implications::call::probes(puzzle, probe, out), place)
}

pub fn haafgrim_dimacs(
    variables: usize,
    sections: usize,
    words: &[i32],
    out: &mut [u8],
    place: &mut usize,
) -> u32
    ensures { Dimacs variables sections words.now out.old result place.new out.new }
{
    tell(dimacs::call::dimacs(variables, sections, words, out), place)
}
