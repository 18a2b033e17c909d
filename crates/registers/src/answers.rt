// What the program prints: answers, balances and memory, each line under the name of a make.
use register::balances::Balances;
use register::carrying::carry_out;
use register::delivery::{Delivery, DeliveryFault, deliver_against_payment};
use register::fault::MakeFault;
use register::instruction::Instruction;
use register::transfers::Transfers;
use std::{fmt, io};

// An answer as it is printed: a word where it accepts, or the number of the refusal.
#[derive(Drop)]
struct Told<'a> {
    accepted: &'a str,
    answer: Result<(), u8>,
}

impl fmt::Display for Told<'_> {
    fn fmt<W: fmt::Write>(&self, f: &mut fmt::Formatter<W>) -> fmt::Result {
        match self.answer {
            Ok(()) => write!(f, "{}", self.accepted),
            Err(number) => write!(f, "refused,{number}"),
        }
    }
}

pub(crate) fn print_making(
    rt: &HostRuntime,
    make: &str,
    answer: Result<(), MakeFault>,
) -> io::Result<()> {
    let told = Told {
        accepted: "made",
        answer: answer.map_err(|fault| fault.number()),
    };
    println!(rt; "{make},{told}")
}

pub(crate) fn print_answers<R: Transfers>(
    rt: &HostRuntime,
    make: &str,
    register: &mut R,
    instructions: &[Instruction],
) -> io::Result<()> {
    for instruction in instructions {
        let told = Told {
            accepted: "ok",
            answer: carry_out(register, *instruction).map_err(|fault| fault.number()),
        };
        println!(rt; "{make},{told}")?;
    }
    Ok(())
}

pub(crate) fn print_balances<R: Balances>(
    rt: &HostRuntime,
    make: &str,
    register: &R,
) -> io::Result<()> {
    for asset in 0..register.asset_count() {
        let issue = register.issue_of(asset);
        println!(rt; "{make},issue,{asset},{issue}")?;
        for account in 0..register.account_count() {
            let balance = register.balance_of(account, asset);
            println!(rt; "{make},balance,{account},{asset},{balance}")?;
        }
    }
    Ok(())
}

pub(crate) fn print_memory(rt: &HostRuntime, make: &str, cells: &[u64]) -> io::Result<()> {
    for units in cells {
        println!(rt; "{make},memory,{units}")?;
    }
    Ok(())
}

// Printed by hand: a delivery's refusal has a side, which the answers above have not.
fn print_refused_delivery(rt: &HostRuntime, fault: DeliveryFault) -> io::Result<()> {
    let (side, fault) = match fault {
        DeliveryFault::Units(fault) => ("units", fault),
        DeliveryFault::Money(fault) => ("money", fault),
    };
    let number = fault.number();
    println!(rt; "refused,{side},{number}")
}

pub(crate) fn print_deliveries<S: Transfers, C: Transfers>(
    rt: &HostRuntime,
    securities: &mut S,
    cash: &mut C,
    deliveries: &[Delivery],
) -> io::Result<()> {
    for delivery in deliveries {
        match deliver_against_payment(securities, cash, *delivery) {
            Ok(()) => println!(rt; "delivered")?,
            Err(fault) => print_refused_delivery(rt, fault)?,
        }
    }
    print_balances(rt, "securities", securities)?;
    print_balances(rt, "cash", cash)
}
