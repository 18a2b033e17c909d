// Lines: what is delivered.
use crate::stage::Stage;

// The part of a pair that is delivered in one asset, and how many of its contracts were taken, settled and returned.
// Buyer and seller are rows of the book, from 1.
#[derive(Clone, Copy)]
pub struct Line {
    pub stage: Stage,
    pub buyer: u16,
    pub seller: u16,
    pub asset: u8,
    pub contracts: u32,
    pub taken: u32,
    pub settled: u32,
    pub returned: u32,
}

impl Line {
    // A line with no contracts, for places of a table that are not used yet.
    // A constant, since an array repeats it, and `default()` is no constant.
    pub const NONE: Line = Line {
        stage: Stage::Member,
        buyer: 0,
        seller: 0,
        asset: 0,
        contracts: 0,
        taken: 0,
        settled: 0,
        returned: 0,
    };
}
