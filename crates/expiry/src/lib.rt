// The engine: one expiry over its lines and any two registers.
#![tactic(auto)]

pub mod expiry;
