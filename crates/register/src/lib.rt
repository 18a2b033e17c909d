// Registers of balances by their meaning: the two halves of the interface, and what is done with registers of any make.
#![tactic(auto)]

pub mod balances;
pub mod carrying;
pub mod checks;
pub mod delivery;
pub mod fault;
pub mod instruction;
pub mod limits;
pub mod transfers;
