// The limits of a book that others build on.

// The most deliverable assets.
pub const MOST_ASSETS: usize = 4;

// The most holders.
pub const MOST_HOLDERS: usize = 256;

// The highest number of a member or clearing member.
pub const MOST_MEMBER: u16 = 999;

// The highest number of a payment agent.
pub const MOST_AGENT: u8 = 64;

// The most lines of a pairing for each holder: there are fewer pairs than holders, and a pair has at most a line for each
// asset.
pub const LINES_A_HOLDER: usize = MOST_ASSETS;

// The most lines of a pairing.
pub const MOST_LINES: usize = LINES_A_HOLDER * MOST_HOLDERS;
