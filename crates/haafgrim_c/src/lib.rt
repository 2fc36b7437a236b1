// The C entries: each is the entry of its name in the library haafgrim, with its promise.
#![tactic(auto)]

ghost use Rattle.haafgrim.specs.Entries.{TwoPowers, FromTwoPowers, ReadLine, Starts, ColorRanges, ReadGrid, Transpose, Clauses, Counts, CheckModel, Blocking, Probes, Dimacs};

#[unsafe(no_mangle)]
pub extern "C" fn haafgrim_two_powers(mask: u32, out: &mut [u32], place: &mut usize) -> u32
    ensures { TwoPowers mask out.old result place.new out.new }
{
    haafgrim::haafgrim_two_powers(mask, out, place)
}

#[unsafe(no_mangle)]
pub extern "C" fn haafgrim_from_two_powers(words: &[u32]) -> u32
    ensures { FromTwoPowers words.now result }
{
    haafgrim::haafgrim_from_two_powers(words)
}

#[unsafe(no_mangle)]
pub extern "C" fn haafgrim_read_line(line: &[u8], out: &mut [u32], place: &mut usize) -> u32
    ensures { ReadLine line.now out.old result place.new out.new }
{
    haafgrim::haafgrim_read_line(line, out, place)
}

#[unsafe(no_mangle)]
pub extern "C" fn haafgrim_starts(
    length: usize,
    clue: &[u32],
    out: &mut [u32],
    place: &mut usize,
) -> u32
    ensures { Starts length clue.now out.old result place.new out.new }
{
    haafgrim::haafgrim_starts(length, clue, out, place)
}

#[unsafe(no_mangle)]
pub extern "C" fn haafgrim_color_ranges(
    length: usize,
    clue: &[u32],
    out: &mut [u32],
    place: &mut usize,
) -> u32
    ensures { ColorRanges length clue.now out.old result place.new out.new }
{
    haafgrim::haafgrim_color_ranges(length, clue, out, place)
}

#[unsafe(no_mangle)]
pub extern "C" fn haafgrim_read_grid(
    width: usize,
    height: usize,
    grid: &[u8],
    out: &mut [u32],
    place: &mut usize,
) -> u32
    ensures { ReadGrid width height grid.now out.old result place.new out.new }
{
    haafgrim::haafgrim_read_grid(width, height, grid, out, place)
}

#[unsafe(no_mangle)]
pub extern "C" fn haafgrim_transpose(
    width: usize,
    height: usize,
    grid: &[u8],
    out: &mut [u8],
    place: &mut usize,
) -> u32
    ensures { Transpose width height grid.now out.old result place.new out.new }
{
    haafgrim::haafgrim_transpose(width, height, grid, out, place)
}

#[unsafe(no_mangle)]
pub extern "C" fn haafgrim_clauses(puzzle: &[u32], out: &mut [i32], place: &mut usize) -> u32
    ensures { Clauses puzzle.now out.old result place.new out.new }
{
    haafgrim::haafgrim_clauses(puzzle, out, place)
}

#[unsafe(no_mangle)]
pub extern "C" fn haafgrim_counts(puzzle: &[u32], out: &mut [u64], place: &mut usize) -> u32
    ensures { Counts puzzle.now out.old result place.new out.new }
{
    haafgrim::haafgrim_counts(puzzle, out, place)
}

#[unsafe(no_mangle)]
pub extern "C" fn haafgrim_check_model(
    puzzle: &[u32],
    model: &[u8],
    out: &mut [u8],
    place: &mut usize,
) -> u32
    ensures { CheckModel puzzle.now model.now out.old result place.new out.new }
{
    haafgrim::haafgrim_check_model(puzzle, model, out, place)
}

#[unsafe(no_mangle)]
pub extern "C" fn haafgrim_blocking(
    puzzle: &[u32],
    model: &[u8],
    out: &mut [i32],
    place: &mut usize,
) -> u32
    ensures { Blocking puzzle.now model.now out.old result place.new out.new }
{
    haafgrim::haafgrim_blocking(puzzle, model, out, place)
}

#[unsafe(no_mangle)]
pub extern "C" fn haafgrim_probes(
    puzzle: &[u32],
    probe: &[u32],
    out: &mut [i32],
    place: &mut usize,
) -> u32
    ensures { Probes puzzle.now probe.now out.old result place.new out.new }
{
    haafgrim::haafgrim_probes(puzzle, probe, out, place)
}

#[unsafe(no_mangle)]
pub extern "C" fn haafgrim_dimacs(
    variables: usize,
    sections: usize,
    words: &[i32],
    out: &mut [u8],
    place: &mut usize,
) -> u32
    ensures { Dimacs variables sections words.now out.old result place.new out.new }
{
    haafgrim::haafgrim_dimacs(variables, sections, words, out, place)
}
