// A call of an entry, with the length of the buffer that it is lent and its other numbers.
use cases::case::Case;
use cases::entry::Entry;
use replay_inner::{encode, puzzle};
use replay_puzzles::{formula, model};
use std::io;
use std::io::Write;

pub fn call<W: Write>(writer: &mut W, entry: Option<Entry>, case: Case<'_>) -> io::Result<()> {
    match entry {
        Some(Entry::Puzzle) => puzzle::answer(writer, case),
        Some(Entry::Encode) => encode::answer(writer, case),
        Some(Entry::Clauses) => replay_puzzles::puzzle::clauses(writer, case),
        Some(Entry::Counts) => replay_puzzles::puzzle::counts(writer, case),
        Some(Entry::Dimacs) => formula::text(writer, case),
        Some(Entry::CheckModel | Entry::Blocking | Entry::Probes) => {
            model::parted(writer, entry, case)
        }
        _ => replay_lines::replay(writer, entry, case),
    }
}
