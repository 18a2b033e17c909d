// The refusals of an expiry, and the numbers by which they are told.
ghost use Rattle.std.specs.Prelude.{◌≡◌};
ghost use Rattle.rules.specs.Numbers.{number, opening_number};

use crate::call::Call;
use crate::side::Side;
use register::fault::RegisterFault;

// What can be too small for a book.
#[derive(Clone, Copy, PartialEq, Eq, Debug)]
pub enum Part {
    LineTable,
    Register(Side),
}

// Why a call is refused.
#[derive(Clone, Copy, PartialEq, Eq, Debug)]
pub enum Cause {
    WrongSession,
    NotItsSeller,
    NoSuchSeller,
    NoSuchAsset,
    BadContracts,
    NothingDue,
    NotAllIn,
    TooSmall(Part),
    HouseCredit,
    // What a register refused, whole, with its side.
    Register(Side, RegisterFault),
}

impl Cause {
    // By a match: a part or a side does not change the number, and a register's refusal has its own.
    pub fn number(&self) -> u8
        ensures told_by_its_number { result ≡ number self.now }
    {
        match self {
            Cause::WrongSession => 8,
            Cause::NotItsSeller => 9,
            Cause::NoSuchSeller => 10,
            Cause::NoSuchAsset => 11,
            Cause::BadContracts => 12,
            Cause::NothingDue => 13,
            Cause::NotAllIn => 14,
            Cause::TooSmall(_) => 15,
            Cause::HouseCredit => 17,
            Cause::Register(_, fault) => fault.number(),
        }
    }
}

// A refused call: why, and the call itself with all of its names.
#[derive(Clone, Copy, PartialEq, Eq, Debug)]
pub struct Fault {
    pub cause: Cause,
    pub call: Call,
}

impl Fault {
    pub fn number(&self) -> u8
        ensures told_by_its_number { result ≡ number self.now.cause }
    {
        self.cause.number()
    }
}

// Why an expiry is not opened.
#[derive(Clone, Copy, PartialEq, Eq, Debug)]
pub enum OpeningFault {
    EmptyBook,
    TooSmall(Part),
    HouseHolds(Side),
}

impl OpeningFault {
    // By a match: a part or a side does not change the number.
    pub fn number(&self) -> u8
        ensures told_by_its_number { result ≡ opening_number self.now }
    {
        match self {
            OpeningFault::EmptyBook => 6,
            OpeningFault::TooSmall(_) => 15,
            OpeningFault::HouseHolds(_) => 16,
        }
    }
}
