// The base program as a function: the bytes of words, then some zero bytes more. A checksum stands for all bytes that it writes.
ghost use Rattle.std.specs.Prelude.{◌≤◌, IfOk, vec_len};

use cases::case::Case;
use encoding::program::encode;
use shows::show::{Shown, show};
use std::alloc::{AllocError, Global};
use std::io;
use std::io::Write;

// More than the program takes.
const INPUT: usize = 70000;

// The most that it writes.
const OUTPUT: usize = 65536;

pub fn answer<W: Write>(writer: &mut W, case: Case<'_>) -> io::Result<()> {
    let Some((more, words)) = case.args.split_first() else {
        return Ok(());
    };
    let input = input_of(case.alloc, words, *more as usize)?;
    let mut out = [0; OUTPUT];
    let used = encode(&input, &mut out);
    show_front(writer, &out[..used], case.room)
}

// The bytes: their checksum, and as many of them as there is room for.
fn show_front<W: Write>(writer: &mut W, bytes: &[u8], room: usize) -> io::Result<()> {
    let shown = bytes.len().min(room).min(u8::MOST);
    show(writer, checksum(bytes), bytes.len(), &bytes[..shown])
}

// The words' bytes, low byte first, and some zeros more.
fn input_of(alloc: Global, words: &[u32], more: usize) -> Result<Vec<u8>, AllocError>
    ensures { IfOk result (λ v. vec_len v ≤ 70000) }
{
    let mut input: Vec<u8> = words
        .iter()
        .take(INPUT / 4)
        .flat_map(|word| word.to_le_bytes())
        .collect(alloc)?;
    input.resize(input.len().saturating_add(more).min(INPUT), 0)?;
    Ok(input)
}

fn more(sum: u32, byte: u8) -> u32
    ensures { result ≤ 4294967291 }
{
    ((31 * u64::from(sum) + u64::from(byte)) % 4294967291) as u32
}

fn checksum(bytes: &[u8]) -> u32 {
    bytes.iter().fold(7, |sum, byte| more(sum, *byte))
}
