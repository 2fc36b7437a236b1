// Answers the cases of standard input: a line is an entry's name and its numbers, and what the entry says of them comes after it.
// What must come out is stored, so that every number, place and word is compared, those that must stay untouched too.
#![tactic(auto)]

mod call;

use call::call;
use cases::case::Case;
use cases::entry::named;
use cases::text::numbers;
use std::alloc::Global;
use std::io;
use std::io::{BufWriter, Write};
use streams::read_full;

// Room for a megabyte of cases.
const ROOM: usize = 1048576;

// Room for one more number than a probe list may have, behind those of a puzzle.
const NUMBERS: usize = 1048832;

fn main(rt: HostRuntime) -> io::Result<()> {
    let mut input = vec![in rt.alloc(); 0; ROOM]?;
    let n = read_full(&mut rt.reader(), &mut input)?;
    let mut writer = BufWriter::new(rt.alloc(), io::writer(&rt))?;
    answer_all(&mut writer, rt.alloc(), &input[..n])?;
    writer.flush()
}

fn answer_all<W: Write>(writer: &mut W, alloc: Global, input: &[u8]) -> io::Result<()> {
    for line in input.split_inclusive(|byte| *byte == b'\n') {
        answer(writer, alloc, line.strip_suffix(b"\n").unwrap_or(line))?;
    }
    Ok(())
}

// The line, and under it the answer; a comment, or a line without numbers, has none.
fn answer<W: Write>(writer: &mut W, alloc: Global, line: &[u8]) -> io::Result<()> {
    writer.write_all(line)?;
    writer.write_all(b"\n")?;
    if line.starts_with(b"#") {
        return Ok(());
    }
    let Some(name) = line.iter().position(|byte| *byte == b' ') else {
        return Ok(());
    };
    let mut lent = vec![in alloc; 0; NUMBERS]?;
    let n = numbers(&line[name + 1..], &mut lent);
    let [room, args @ ..] = &lent[..n] else {
        return Ok(());
    };
    let room = *room as usize;
    call(writer, named(&line[..name]), Case { alloc, room, args })
}
