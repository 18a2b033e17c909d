// Units and cash in motion: what takes, draws, settlements and a close do to the lines and to two registers of any make.
#![tactic(auto)]

pub mod fault;
pub mod party;
pub mod paying;
pub mod settling;
pub mod sums;
pub mod taking;
pub mod whole;
