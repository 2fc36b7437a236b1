// What is said of the blocks of a line.
// The definitions have the same cases, so with a function in its place only a match would go.
#[derive(Clone, Copy)]
pub enum Rule {
    Positions,
    Once,
    Overlap,
}
