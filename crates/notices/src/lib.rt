// The first three sessions of an expiry: the members' notices, the clearing members' notices, and pairing.
#![tactic(auto)]

pub mod ending;
pub mod notices;
pub mod pairing_call;
