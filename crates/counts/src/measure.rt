// What is counted of a line: its blocks, and the clauses of its families.
// The definitions have the same cases, so with a function in its place only a match would go.
#[derive(Clone, Copy)]
pub enum Measure {
    Blocks,
    Once,
    Overlap,
    Space,
}
