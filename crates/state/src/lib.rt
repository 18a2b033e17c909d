// What an expiry keeps between calls, and how it is seen by the rules.
#![tactic(auto)]

pub mod state;
pub mod table;
