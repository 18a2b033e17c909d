// Runs one list of credits and moves, with every refusal in it, through a table register and a day book over the
// same balances, and prints each answer, the balances at the end and the memory that is left; then deliveries
// against payment between each two makes.
#![tactic(auto)]

mod answers;
mod lending;
mod lists;
mod makes;
mod runs;

use crate::runs::{run_both, run_day_book, run_deliveries, run_lent, run_makings, run_table};
use std::io;

fn main(rt: HostRuntime) -> io::Result<()> {
    run_makings(&rt)?;
    run_table(&rt)?;
    run_day_book(&rt)?;
    run_lent(&rt)?;
    run_both(&rt)?;
    run_deliveries(&rt)
}
