// The lines of a file, one after the other.
ghost use Rattle.std.specs.Prelude.{◌+◌, ◌≤◌, ◌^◌, length};

pub mod cutting;
pub mod reading;

// A line: its bytes without the line end, its number from 1, and whether a line end follows it.
#[derive(Clone, Copy)]
pub struct Line<'a> {
    pub bytes: &'a [u8],
    pub number: usize,
    pub ended: bool,
}

// What is left of a file, and the number of its first line.
#[derive(Drop)]
pub struct Lines<'a> {
    pub rest: &'a [u8],
    pub number: usize,
    ghost numbers_fit: { number + length rest.now ≤ 2 ^ 63 },
}
