// What each seller has notified.
ghost use Rattle.std.specs.Prelude.{◌≤◌};
ghost use Rattle.book.specs.Limits.{most_assets};

// A record has a place for each deliverable asset that a book can have.
pub use book::limits::MOST_ASSETS;

// The lots of one holder by asset, and the contracts notified in them. A buyer's stay 0.
#[derive(Clone, Copy)]
pub struct SellerLots {
    pub lots: [u32; MOST_ASSETS],
    pub notified: u32,
}

impl SellerLots {
    // Nothing notified yet. A constant, since an array repeats it, and `default()` is no constant.
    pub const NONE: SellerLots = SellerLots {
        lots: [0; MOST_ASSETS],
        notified: 0,
    };
}

// The records of a book's sellers, with lots in so many assets.
#[derive(Clone, Copy)]
pub(crate) struct Lots<'a> {
    pub(crate) records: &'a [SellerLots],
    pub(crate) assets: u8,
    ghost few_assets: { assets ≤ most_assets },
}
