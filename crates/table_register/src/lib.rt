// The table register: each balance in its caller's memory.
#![tactic(auto)]

pub mod counts;
pub mod issues;
pub mod table;
