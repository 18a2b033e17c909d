// Files of lines and fields: cutting bytes at a separator, numbers by form and value, rows of numbers, and writing them back.
#![tactic(auto)]

pub mod cut;
pub mod number;
pub mod page;
pub mod row;
