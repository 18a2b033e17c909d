// The records that a book is made of.

// The contract: units of an asset for each contract, and the futures price in centavos.
#[derive(Clone, Copy, Debug, Default, PartialEq, Eq)]
pub struct Terms {
    pub multiplier: u32,
    pub price: u32,
}

// A deliverable asset: its factor in millionths, and accrued interest and market price in centavos a unit.
#[derive(Clone, Copy, Debug, PartialEq, Eq)]
pub struct Asset {
    pub factor: u32,
    pub accrued: u32,
    pub market: u32,
}

// A holder, with its clearing member, its payment agent and its position: above 0 bought, below 0 sold.
#[derive(Clone, Copy, Debug, PartialEq, Eq)]
pub struct Holder {
    pub member: u16,
    pub number: u32,
    pub clearing: u16,
    pub agent: u8,
    pub position: i32,
}
