// How each refusal is told: the number that it has, and its text.
ghost use Rattle.std.specs.Prelude.{◌≡◌, Some};
ghost use Rattle.book.specs.Refusals.{number as number_of, write_number, told, read_told, write_told};

use crate::fault::{Cause, ReadFault, Refusal, WriteFault};
use std::error::Error;
use std::fmt;

// A match, and not the variants' own values: an edit that gives two causes one number has to be refused by a proof.
impl Cause {
    pub fn number(&self) -> u8
        ensures told_by_its_number { result ≡ number_of self.now }
    {
        match self {
            Cause::Heading => 1,
            Cause::Form => 2,
            Cause::Range => 3,
            Cause::Order => 4,
            Cause::Grouping => 5,
            Cause::Holdings => 6,
            Cause::Size => 7,
        }
    }
}

// A match, as for the causes: an edit that gives both one number has to be refused by a proof.
impl WriteFault {
    pub fn number(&self) -> u8
        ensures told_by_its_number { result ≡ write_number self.now }
    {
        match self {
            WriteFault::EmptyBook => 6,
            WriteFault::SmallBuffer => 15,
        }
    }
}

// `refused`, the cause's number, the line and the field, with commas between them.
impl fmt::Display for Refusal {
    ghost output = { λ r. Some (told r) };

    fn fmt<W: fmt::Write>(&self, f: &mut fmt::Formatter<W>) -> fmt::Result {
        write!(
            f,
            "refused,{},{},{}",
            self.cause.number(),
            self.line,
            self.field
        )
    }
}

impl Error for Refusal {}

impl fmt::Display for ReadFault {
    ghost output = { λ e. Some (read_told e) };

    fn fmt<W: fmt::Write>(&self, f: &mut fmt::Formatter<W>) -> fmt::Result {
        match self {
            ReadFault::Refused(refusal) => write!(f, "{refusal}"),
            ReadFault::NoMemory => write!(f, "no memory for the book"),
        }
    }
}

impl Error for ReadFault {}

impl fmt::Display for WriteFault {
    ghost output = { λ e. Some (write_told e) };

    fn fmt<W: fmt::Write>(&self, f: &mut fmt::Formatter<W>) -> fmt::Result {
        match self {
            WriteFault::EmptyBook => write!(f, "the empty book has no file"),
            WriteFault::SmallBuffer => write!(f, "the buffer is too small for the book's file"),
        }
    }
}

impl Error for WriteFault {}
