// What the end of the notices gives: each seller's unnotified contracts, to one asset.
ghost use Rattle.std.specs.Prelude.{◌≡◌, ℕ, ◌+◌, ◌-◌, ◌<◌, ◌≤◌, length, if◌then◌else◌, slice_index};
ghost use Rattle.book.specs.Limits.{most_assets};
ghost use Rattle.book.specs.Books.{sells, volume};
ghost use Rattle.pairs.specs.Records.{in_lots, filled, handed_from};

use crate::lots::SellerLots;
use book::records::Holder;

// The end of the notices of a book with so many assets: what stands in no lot goes to asset `first`.
#[derive(Clone, Copy)]
pub(crate) struct Ending {
    pub(crate) assets: usize,
    pub(crate) first: usize,
    ghost few_assets: { assets ≤ most_assets },
    ghost first_is_one: { first < assets },
}

impl Ending {
    // The contracts of so many that stand in no lot of the record yet.
    fn unnotified(self, r: &SellerLots, volume: u32) -> u32
        ensures what_no_lot_has { result ≡ volume - in_lots self.assets r.now }
        ensures each_lot_has_room { (asset : ℕ) → asset < self.assets → 0 < result → slice_index r.now.lots asset + result ≤ volume }
    {
        r.lots[..self.assets]
            .iter()
            .fold(volume, |left, lot| left.saturating_sub(*lot))
    }

    // The record of a seller with all of its contracts notified: those in no lot yet go into the one for asset `first`.
    fn fill(self, mut r: SellerLots, volume: u32) -> SellerLots
        ensures { result ≡ filled self.assets self.first volume r }
    {
        let rest = self.unnotified(&r, volume);
        r.lots[self.first] += rest;
        r.notified = volume;
        r
    }

    // A holder's record after the end of the notices.
    fn hand_one(self, h: Holder, r: SellerLots) -> SellerLots
        ensures { result ≡ (if sells h then filled self.assets self.first (volume h) r else r) }
    {
        if h.sells() {
            self.fill(r, h.volume())
        } else {
            r
        }
    }

    // All records after the end of the notices.
    pub(crate) fn hand_rows(self, holders: &[Holder], records: &mut [SellerLots])
        requires { length holders.now ≤ length records.old }
        ensures { records.new ≡ handed_from self.assets self.first holders.now records.old }
    {
        // by index: of what is written through a zip with `iter_mut` a proof knows nothing
        for (i, h) in holders.iter().enumerate() {
            records[i] = self.hand_one(*h, records[i]);
        }
    }
}
