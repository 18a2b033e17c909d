// Why a book is not read or not written.
ghost use Rattle.std.specs.Prelude.{◌≡◌};
ghost use Rattle.book.specs.declared.fault.ReadFault.TheVariants.{Refused, NoMemory};
ghost use Rattle.book.specs.Reading.{refuse};

use std::alloc::AllocFailed;

// What is wrong with a file.
#[derive(Clone, Copy, Debug, PartialEq, Eq)]
pub enum Cause {
    // the first line is not `book,1`
    Heading,
    // a wrong kind of line, count of fields or form of a number, or no line end
    Form,
    // a number out of its range
    Range,
    // a row that does not ascend
    Order,
    // a member under two clearing members, or a clearing member under two payment agents
    Grouping,
    // no holder, not as much bought as sold, or too much bought
    Holdings,
    // too many bytes, or too many holders
    Size,
}

// A refused file: the cause, and where: the line and the field, from 1, or 0 where the cause has no such place.
// The 0 stays a number: it is what is told, and an Option would be turned back into it wherever a refusal is told.
#[derive(Clone, Copy, Debug, PartialEq, Eq)]
pub struct Refusal {
    pub cause: Cause,
    pub line: usize,
    pub field: usize,
}

// Why a file gives no book: it is refused, or there is no memory.
#[derive(Clone, Copy, Debug, PartialEq, Eq)]
pub enum ReadFault {
    Refused(Refusal),
    NoMemory,
}

impl ReadFault {
    // A refused file.
    pub(crate) fn refused(cause: Cause, line: usize, field: usize) -> ReadFault
        ensures value { result ≡ Refused (refuse cause line field) }
    {
        ReadFault::Refused(Refusal { cause, line, field })
    }
}

impl<T: Drop> From<AllocFailed<T>> for ReadFault {
    ghost from_gives = { λ _ r. r ≡ NoMemory };

    fn from(_e: AllocFailed<T>) -> ReadFault {
        ReadFault::NoMemory
    }
}

// Why a book gives no file.
#[derive(Clone, Copy, Debug, PartialEq, Eq)]
pub enum WriteFault {
    EmptyBook,
    SmallBuffer,
}
