// The calls that take a puzzle and more: the number of the puzzle's words comes first, then these, then the rest.
use cases::case::{Case, low_bytes};
use cases::entry::Entry;
use haafgrim::{haafgrim_blocking, haafgrim_check_model, haafgrim_probes};
use shows::show::lend;
use std::io;
use std::io::Write;

pub fn parted<W: Write>(writer: &mut W, entry: Option<Entry>, case: Case<'_>) -> io::Result<()> {
    let Some((n, words)) = case.args.split_first() else {
        return Ok(());
    };
    let (puzzle, rest) = words.split_at((*n as usize).min(words.len()));
    match entry {
        Some(Entry::CheckModel) => check_model(writer, case, puzzle, rest),
        Some(Entry::Blocking) => blocking(writer, case, puzzle, rest),
        _ => probes(writer, case, puzzle, rest),
    }
}

fn check_model<W: Write>(
    writer: &mut W,
    case: Case<'_>,
    puzzle: &[u32],
    rest: &[u32],
) -> io::Result<()> {
    let model = low_bytes(case.alloc, rest)?;
    lend(writer, case, |out: &mut [u8], place| {
        haafgrim_check_model(puzzle, &model, out, place)
    })
}

// As `check_model`, under another type: see `color_ranges` of replay_lines.
fn blocking<W: Write>(
    writer: &mut W,
    case: Case<'_>,
    puzzle: &[u32],
    rest: &[u32],
) -> io::Result<()> {
    let model = low_bytes(case.alloc, rest)?;
    lend(writer, case, |out: &mut [i32], place| {
        haafgrim_blocking(puzzle, &model, out, place)
    })
}

fn probes<W: Write>(
    writer: &mut W,
    case: Case<'_>,
    puzzle: &[u32],
    probe: &[u32],
) -> io::Result<()> {
    lend(writer, case, |out: &mut [i32], place| {
        haafgrim_probes(puzzle, probe, out, place)
    })
}
