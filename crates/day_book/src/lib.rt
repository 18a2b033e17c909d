// The day book: a register that keeps posted balances in its caller's memory, and later entries in itself.
#![tactic(auto)]

pub mod day;
pub mod entries;
