// What is read of a puzzle's words: its board, and what the table has of each line.
ghost use Rattle.std.specs.Prelude.{◌+◌, ◌≤◌, IfOk, vec_len};
ghost use Rattle.tables.specs.Layout.{line_size};

use boards::board::{Board, read_puzzle};
use cases::case::Case;
use shows::show::show;
use std::alloc::AllocError;
use std::io;
use std::io::Write;
use tables::layout::{LINE_SIZE, STARTS, TABLE_SIZE};

pub fn answer<W: Write>(writer: &mut W, case: Case<'_>) -> io::Result<()> {
    let mut table = [0u32; TABLE_SIZE];
    match read_puzzle(case.args, &mut table) {
        Ok(board) => show_board(writer, case, &table, board),
        Err(why) => show::<_, u32>(writer, why.number(), why.place(), &[]),
    }
}

// The numbers of the board, and the lines behind them.
fn show_board<W: Write>(
    writer: &mut W,
    case: Case<'_>,
    table: &[u32],
    board: Board,
) -> io::Result<()> {
    let sizes = [board.width, board.height, board.rows, board.cells];
    let mut out: Vec<u32> = sizes.iter().map(|n| low(*n)).collect(case.alloc)?;
    out.push(board.colors)?;
    let count = board.width.min(64) + board.height.min(64);
    let (lines, _) = table.as_chunks::<LINE_SIZE>();
    for line in lines.iter().take(count) {
        list_line(case.args, line, &mut out)?;
    }
    show(writer, 0, 0, &out)
}

// The words in front of the starts, and a start for each block: the first word is where the number of blocks stands. No more than the line has.
fn list_line(words: &[u32], line: &[u32; LINE_SIZE], out: &mut Vec<u32>) -> Result<(), AllocError>
    ensures { IfOk result (λ _. (vec_len out.old ≤ vec_len out.new) × (vec_len out.new ≤ vec_len out.old + line_size)) }
{
    let blocks = words.get(line[0] as usize).copied().unwrap_or(0) as usize;
    out.extend_from_slice(&line[..STARTS + blocks.min(64)])
}

// The lowest 32 bits.
fn low(n: usize) -> u32 {
    (n % 4294967296) as u32
}
