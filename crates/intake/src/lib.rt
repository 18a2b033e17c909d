// What comes in: credits to the registers, units that are taken, and draws of cash, which may go back.
#![tactic(auto)]

pub mod credits;
pub mod draws;
pub mod takes;
