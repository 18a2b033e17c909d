// A page: text that is written one line after another, in place, with no heap.
ghost use Rattle.std.specs.Prelude.{◌≤◌};
ghost use Rattle.arrayvec.specs.ArrayVec.{array_vec_len};

use arrayvec::ArrayVec;

pub mod writing;

// The most bytes that a file may have; a page holds one file.
pub const MOST_BYTES: usize = 16_384;

// A file that is being written. What passes its end is left out.
#[derive(Drop)]
pub struct Page {
    bytes: ArrayVec<u8, MOST_BYTES>,
    ghost within: { array_vec_len bytes ≤ 16384 },
}

// The buffer is too small for the text.
#[derive(Clone, Copy)]
pub struct TooSmall;
