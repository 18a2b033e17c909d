// Pairs a book by the rule, and writes the lines.
#![tactic(auto)]

mod deliverables;
pub mod fault;
mod handing;
mod lines;
pub mod lots;
mod pairer;
mod rows;
mod search;
pub mod whole_book;
