// The runs over each make, and over each two makes.
use crate::answers::{print_answers, print_balances, print_deliveries, print_making, print_memory};
use crate::lending::{carry_out_in_day_book, carry_out_in_table};
use crate::lists::{ACCOUNTS, ASSETS, OPENING, ROUNDS, deliveries, refusals, to_and_fro};
use crate::makes::Make;
use day_book::day::DayBook;
use register::carrying::answer_alike;
use register::limits::MOST_ISSUED;
use std::io;
use table_register::table::TableRegister;

fn lay_out<R: Make>(rt: &HostRuntime, make: &str, register: &mut R) -> io::Result<()> {
    print_making(rt, make, register.lay_out(ACCOUNTS, ASSETS))
}

// Making is refused for the counts or the size, then for a sum; the memory is then as it was.
pub(crate) fn run_makings(rt: &HostRuntime) -> io::Result<()> {
    let mut cells = [MOST_ISSUED, 1];
    {
        let mut table = TableRegister::over(&mut cells);
        print_making(rt, "table", table.lay_out(1, 1))?;
        print_making(rt, "table", table.lay_out(2, 1))?;
    }
    {
        let mut day = DayBook::over(&mut cells);
        print_making(rt, "day", day.lay_out(0, 2))?;
        print_making(rt, "day", day.lay_out(2, 1))?;
    }
    print_memory(rt, "both", &cells)
}

// Lays a register out, has it carry out both lists, and prints its balances.
fn run_make<R: Make>(rt: &HostRuntime, make: &str, register: &mut R) -> io::Result<()> {
    lay_out(rt, make, register)?;
    print_answers(rt, make, register, &refusals())?;
    for _ in 0..ROUNDS {
        print_answers(rt, make, register, &to_and_fro())?;
    }
    print_balances(rt, make, register)
}

pub(crate) fn run_table(rt: &HostRuntime) -> io::Result<()> {
    let mut cells = OPENING;
    run_make(rt, "table", &mut TableRegister::over(&mut cells))?;
    print_memory(rt, "table", &cells)
}

pub(crate) fn run_day_book(rt: &HostRuntime) -> io::Result<()> {
    let mut cells = OPENING;
    {
        let mut day = DayBook::over(&mut cells);
        run_make(rt, "day", &mut day)?;
        let waiting = day.waiting();
        println!(rt; "day,waiting,{waiting}")?;
        day.post();
        print_balances(rt, "day", &day)?;
    }
    print_memory(rt, "day", &cells)
}

// The same list in memory that is lent to a register and had back.
pub(crate) fn run_lent(rt: &HostRuntime) -> io::Result<()> {
    let mut first = OPENING;
    let made = carry_out_in_table(&mut first, ACCOUNTS, ASSETS, &refusals());
    print_making(rt, "lent to a table", made)?;
    print_memory(rt, "lent to a table", &first)?;
    let mut second = OPENING;
    let made = carry_out_in_day_book(&mut second, ACCOUNTS, ASSETS, &refusals());
    print_making(rt, "lent to a day book", made)?;
    print_memory(rt, "lent to a day book", &second)
}

// Both makes, from the same balances, answer alike.
pub(crate) fn run_both(rt: &HostRuntime) -> io::Result<()> {
    let mut first = OPENING;
    let mut second = OPENING;
    let mut table = TableRegister::over(&mut first);
    lay_out(rt, "table", &mut table)?;
    let mut day = DayBook::over(&mut second);
    lay_out(rt, "day", &mut day)?;
    let alike = answer_alike(&mut table, &mut day, &refusals());
    println!(rt; "both,alike,{alike}")
}

// Deliveries against cash in a table, and then in a day book, each from the opening balances.
fn deliver_from<S: Make>(
    rt: &HostRuntime,
    make: &str,
    first: &mut S,
    second: &mut S,
) -> io::Result<()> {
    let mut cells = OPENING;
    lay_out(rt, make, first)?;
    deliver_against(
        rt,
        first,
        "cash in a table",
        &mut TableRegister::over(&mut cells),
    )?;
    let mut cells = OPENING;
    lay_out(rt, make, second)?;
    deliver_against(
        rt,
        second,
        "cash in a day book",
        &mut DayBook::over(&mut cells),
    )
}

fn deliver_against<S: Make, C: Make>(
    rt: &HostRuntime,
    securities: &mut S,
    make: &str,
    cash: &mut C,
) -> io::Result<()> {
    lay_out(rt, make, cash)?;
    print_deliveries(rt, securities, cash, &deliveries())
}

// Deliveries against payment between each two makes.
pub(crate) fn run_deliveries(rt: &HostRuntime) -> io::Result<()> {
    let (mut first, mut second) = (OPENING, OPENING);
    deliver_from(
        rt,
        "securities in a table",
        &mut TableRegister::over(&mut first),
        &mut TableRegister::over(&mut second),
    )?;
    let (mut first, mut second) = (OPENING, OPENING);
    deliver_from(
        rt,
        "securities in a day book",
        &mut DayBook::over(&mut first),
        &mut DayBook::over(&mut second),
    )
}
