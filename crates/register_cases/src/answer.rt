// The answer of a register to a line of the table.
use crate::call::Call;
use register::balances::Balances;
use register::carrying::carry_out;
use register::fault::{MakeFault, RegisterFault};
use register::transfers::Transfers;
use std::fmt;

// Why a making, a credit or a move was refused.
#[derive(Clone, Copy, PartialEq, Eq)]
pub(crate) enum Fault {
    Making(MakeFault),
    Call(RegisterFault),
}

impl From<MakeFault> for Fault {
    fn from(fault: MakeFault) -> Fault {
        Fault::Making(fault)
    }
}

impl From<RegisterFault> for Fault {
    fn from(fault: RegisterFault) -> Fault {
        Fault::Call(fault)
    }
}

impl Fault {
    pub(crate) fn number(&self) -> u8 {
        match self {
            Fault::Making(fault) => fault.number(),
            Fault::Call(fault) => fault.number(),
        }
    }
}

// A question is answered with a number, and what is accepted with none.
pub(crate) type Answer = Result<Option<u64>, Fault>;

// An answer as it is printed.
#[derive(Drop)]
pub(crate) struct Told(pub(crate) Answer);

impl fmt::Display for Told {
    fn fmt<W: fmt::Write>(&self, f: &mut fmt::Formatter<W>) -> fmt::Result {
        match &self.0 {
            Ok(None) => write!(f, "ok"),
            Ok(Some(number)) => write!(f, "{number}"),
            Err(fault) => write!(f, "refused,{}", fault.number()),
        }
    }
}

pub(crate) fn making(made: Result<(), MakeFault>) -> Answer {
    made?;
    Ok(None)
}

pub(crate) fn answer_to<R: Transfers>(register: &mut R, call: &Call) -> Answer {
    match call {
        // Never comes, since `main` cuts the table at each making; a type of the other calls alone would be one type more.
        Call::Make(_) => Ok(None),
        Call::Carry(instruction) => {
            carry_out(register, *instruction)?;
            Ok(None)
        }
        Call::Balance { account, asset } => Ok(Some(register.balance_of(*account, *asset))),
        Call::Issue { asset } => Ok(Some(register.issue_of(*asset))),
    }
}
