// The calls that take a mask, a line, a clue or a grid.
#![tactic(auto)]

use cases::case::{Case, low_bytes};
use cases::entry::Entry;
use haafgrim::{
    haafgrim_color_ranges, haafgrim_from_two_powers, haafgrim_read_grid, haafgrim_read_line,
    haafgrim_starts, haafgrim_transpose, haafgrim_two_powers,
};
use shows::show::lend;
use std::io;
use std::io::Write;

pub fn replay<W: Write>(writer: &mut W, entry: Option<Entry>, case: Case<'_>) -> io::Result<()> {
    match entry {
        Some(Entry::TwoPowers) => two_powers(writer, case),
        Some(Entry::FromTwoPowers) => from_two_powers(writer, case),
        Some(Entry::ReadLine) => read_line(writer, case),
        Some(Entry::Starts) => starts(writer, case),
        Some(Entry::ColorRanges) => color_ranges(writer, case),
        Some(Entry::ReadGrid) => read_grid(writer, case),
        Some(Entry::Transpose) => transpose(writer, case),
        _ => lend(writer, case, |_: &mut [u32], _| 0),
    }
}

// A call that lacks its first numbers is not made: it shows what it would be lent.
fn two_powers<W: Write>(writer: &mut W, case: Case<'_>) -> io::Result<()> {
    lend(writer, case, |out: &mut [u32], place| match case.args {
        [mask, ..] => haafgrim_two_powers(*mask, out, place),
        [] => 0,
    })
}

fn from_two_powers<W: Write>(writer: &mut W, case: Case<'_>) -> io::Result<()> {
    lend(writer, case, |_: &mut [u32], _| {
        haafgrim_from_two_powers(case.args)
    })
}

fn read_line<W: Write>(writer: &mut W, case: Case<'_>) -> io::Result<()> {
    let line = low_bytes(case.alloc, case.args)?;
    lend(writer, case, |out: &mut [u32], place| {
        haafgrim_read_line(&line, out, place)
    })
}

fn starts<W: Write>(writer: &mut W, case: Case<'_>) -> io::Result<()> {
    lend(writer, case, |out: &mut [u32], place| match case.args {
        [length, clue @ ..] => haafgrim_starts(*length as usize, clue, out, place),
        [] => 0,
    })
}

// As `starts`: one function for both would hand its closure's `&mut`s on, which the check cannot take yet.
fn color_ranges<W: Write>(writer: &mut W, case: Case<'_>) -> io::Result<()> {
    lend(writer, case, |out: &mut [u32], place| match case.args {
        [length, clue @ ..] => haafgrim_color_ranges(*length as usize, clue, out, place),
        [] => 0,
    })
}

// A grid is the same numbers as bytes, behind the two of its size.
fn read_grid<W: Write>(writer: &mut W, case: Case<'_>) -> io::Result<()> {
    let bytes = low_bytes(case.alloc, case.args)?;
    lend(writer, case, |out: &mut [u32], place| {
        match (case.args, &bytes[..]) {
            ([width, height, ..], [_, _, grid @ ..]) => {
                haafgrim_read_grid(*width as usize, *height as usize, grid, out, place)
            }
            _ => 0,
        }
    })
}

fn transpose<W: Write>(writer: &mut W, case: Case<'_>) -> io::Result<()> {
    let bytes = low_bytes(case.alloc, case.args)?;
    let ([width, height, ..], [_, _, grid @ ..]) = (case.args, &bytes[..]) else {
        return Ok(());
    };
    lend(writer, case, |out: &mut [u8], place| {
        haafgrim_transpose(*width as usize, *height as usize, grid, out, place)
    })
}
