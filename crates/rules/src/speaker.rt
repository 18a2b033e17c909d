// Who gives a notice: a member or a clearing member, with its number.
#[derive(Clone, Copy, PartialEq, Eq, Debug)]
pub enum Speaker {
    Member(u64),
    Clearing(u64),
}
