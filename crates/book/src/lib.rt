// The book of one expiry: its records, the book itself with what every book keeps, its file, its look-up and its prices.
#![tactic(auto)]

mod awaits;
pub mod book;
mod draft;
pub mod fault;
pub mod laws;
pub mod limits;
pub mod lines;
pub mod numbers;
mod record;
pub mod records;
mod rows;
