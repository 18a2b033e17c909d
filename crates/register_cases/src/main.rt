// Answers a table of calls, read from standard input, by a table register and by a day book, and prints each answer.
#![tactic(auto)]

mod answer;
mod call;
mod reading;

use crate::answer::{Answer, Told, answer_to, making};
use crate::call::Call;
use crate::reading::{index, read_call};
use day_book::day::DayBook;
use std::io;
use std::io::{BufRead, BufReader};
use table_register::table::TableRegister;

fn print_answer(rt: &HostRuntime, table: Answer, day: Answer) -> io::Result<()> {
    if table != day {
        return println!(rt; "the makes differ");
    }
    println!(rt; "{}", Told(table))
}

// Makes both registers over these balances, and answers the calls that follow.
fn run(
    rt: &HostRuntime,
    accounts: usize,
    assets: usize,
    balances: &[u64],
    calls: &[Call],
) -> io::Result<()> {
    let mut first = balances.to_vec(rt.alloc())?;
    let mut second = balances.to_vec(rt.alloc())?;
    let mut table = TableRegister::over(first.as_mut_slice());
    let mut day = DayBook::over(second.as_mut_slice());
    print_answer(
        rt,
        making(table.lay_out(accounts, assets)),
        making(day.lay_out(accounts, assets)),
    )?;
    for call in calls {
        print_answer(rt, answer_to(&mut table, call), answer_to(&mut day, call))?;
    }
    Ok(())
}

fn is_making(call: &Call) -> bool {
    matches!(call, Call::Make(_))
}

fn main(rt: HostRuntime) -> io::Result<()> {
    let heap = rt.alloc();
    let mut calls = Vec::new(heap);
    for line in BufReader::new(heap, rt.stdin())?.lines(heap) {
        calls.push(read_call(heap, line?.as_str())?)?;
    }
    // Each making, with the calls before the next.
    for part in calls.chunk_by(|_, next| !is_making(next)) {
        let Some((Call::Make(numbers), calls)) = part.split_first() else {
            continue;
        };
        if let [accounts, assets, balances @ ..] = numbers.as_slice() {
            run(&rt, index(*accounts), index(*assets), balances, calls)?;
        }
    }
    Ok(())
}
