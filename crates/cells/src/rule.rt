// What is said of a cell's colour and the positions that cover the cell.
// The definitions have the same cases, so with a function in its place only a match would go.
#[derive(Clone, Copy)]
pub enum Rule {
    Color,
    Space,
}
