// What an accepted call answers: pairing the number of lines, a take and a line settlement the contracts that they
// moved, the other calls nothing.
#[derive(Clone, Copy, PartialEq, Eq, Debug)]
pub enum Answer {
    Done,
    Lines(usize),
    Contracts(u32),
}
