// What is settled: everything at once, line by line, or by differences at the close.
#![tactic(auto)]

pub mod closing;
pub mod part;
pub mod whole;
