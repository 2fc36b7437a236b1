// The layout of the table: the words of each line, one line after another.

// The words of a line: where its clue begins, its first variable, and what `starts` writes of it, that is positions, least space and up to 64 starts.
pub const LINE_SIZE: usize = 68;

// Up to 128 lines.
pub const TABLE_SIZE: usize = 128 * LINE_SIZE;

// Which of a line's words is what. Where its clue begins is the first.
pub const FIRST: usize = 1;

pub const POSITIONS: usize = 2;

pub const STARTS: usize = 4;
