// Which line of a file comes next.
#[derive(Clone, Copy, Debug, PartialEq, Eq)]
pub enum Awaits {
    Heading,
    Terms,
    Rows,
}
