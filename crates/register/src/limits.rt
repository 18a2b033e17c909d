// The limits of registers.

// The most units issued of one asset: two such sums still fit in 64 bits.
pub const MOST_ISSUED: u64 = 1_000_000_000_000_000_000;

// The most accounts of the makes here: four for each of the 256 rows of the largest book.
pub const MOST_ACCOUNTS: usize = 1_024;

// The most assets of the makes here: four times the deliverable assets that a book can have.
pub const MOST_ASSETS: usize = 16;
