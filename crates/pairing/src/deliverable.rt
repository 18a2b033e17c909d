// A deliverable asset with its market price and its invoice price.
#[derive(Clone, Copy, Default, PartialEq, Eq, Debug)]
pub struct Deliverable {
    pub asset: u8,
    pub market: u32,
    pub invoice: u64,
}
