// The calls that take a puzzle alone.
use cases::case::Case;
use haafgrim::{haafgrim_clauses, haafgrim_counts};
use shows::show::lend;
use std::io;
use std::io::Write;

pub fn clauses<W: Write>(writer: &mut W, case: Case<'_>) -> io::Result<()> {
    lend(writer, case, |out: &mut [i32], place| {
        haafgrim_clauses(case.args, out, place)
    })
}

pub fn counts<W: Write>(writer: &mut W, case: Case<'_>) -> io::Result<()> {
    lend(writer, case, |out: &mut [u64], place| {
        haafgrim_counts(case.args, out, place)
    })
}
