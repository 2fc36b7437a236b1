// The base program: a puzzle's words from standard input, its DIMACS text or a refusal to standard output.
#![tactic(auto)]

use encoding::program::encode;
use std::io;
use streams::read_full;

// One byte more than the program takes, so that too long an input shows.
const INPUT: usize = 65537;

// The most that it writes.
const OUTPUT: usize = 65536;

fn main(rt: HostRuntime) -> io::Result<()> {
    let mut input = [0; INPUT];
    let n = read_full(&mut rt.reader(), &mut input)?;
    let mut out = [0; OUTPUT];
    let used = encode(&input[..n], &mut out);
    rt.write_all(&out[..used])
}
