// Questions to a book: what it holds, its look-up and its prices.
ghost use Rattle.std.specs.Prelude.{◌≡◌};
ghost use Rattle.book.specs.Books.{row_of, invoice_of, invoice, value as value_of, buys as buys_of, sells as sells_of, volume as volume_of, bought as bought_of};
ghost use Rattle.book.specs.Data.{contents};
ghost use Rattle.book.specs.Lookup.{TheOneRow};

use crate::book::Book;
use crate::records::{Asset, Holder, Terms};
use crate::rows::Rows;

// Factors are in millionths, so a price times a factor is in millionths of a centavo.
const MILLIONTHS: u64 = 1_000_000;
// Added before the fraction is left off, it rounds to the nearest centavo, half up.
const HALF: u64 = 500_000;

impl Asset {
    // The invoice price in centavos a unit, at this futures price: price times factor, rounded, plus accrued interest.
    pub fn invoice_price(&self, price: u32) -> u64
        ensures value { result ≡ invoice_of price self.now }
    {
        (u64::from(price) * u64::from(self.factor) + HALF) / MILLIONTHS + u64::from(self.accrued)
    }
}

impl Holder {
    // Whether the position is a bought one.
    pub fn buys(&self) -> bool
        ensures value { result ≡ buys_of self.now }
    {
        self.position > 0
    }

    // Whether the position is a sold one.
    pub fn sells(&self) -> bool
        ensures value { result ≡ sells_of self.now }
    {
        self.position < 0
    }

    // The contracts of the position, bought or sold.
    pub fn volume(&self) -> u32
        ensures value { result ≡ volume_of self.now }
    {
        self.position.unsigned_abs()
    }
}

impl Book {
    // Units per contract, and the futures price.
    pub fn terms(&self) -> Terms
        ensures value { result ≡ (contents self.now).terms }
    {
        self.terms
    }

    // The deliverable assets, numbered from 0.
    pub fn assets(&self) -> &[Asset]
        ensures value { result.now ≡ (contents self.now).assets }
    {
        self.assets.as_slice()
    }

    // The holders, the one of row 1 first.
    pub fn holders(&self) -> &[Holder]
        ensures value { result.now ≡ (contents self.now).holders }
    {
        self.holders.as_slice()
    }

    // The contracts bought, which are as many as those sold.
    pub fn contracts_bought(&self) -> u64
        ensures value { result ≡ bought_of (contents self.now) }
    {
        let rows = Rows {
            holders: self.holders.as_slice(),
        };
        rows.bought()
    }

    fn row_with(&self, member: u64, number: u64) -> Option<usize>
        ensures value { result ≡ row_of (contents self.now) member number }
        ensures the_one_row_or_none { TheOneRow (contents self.now) member number result }
    {
        self.holders
            .binary_search_by_key(&(member, number), |h| h.key())
            .ok()
            .map(|i| i + 1)
    }

    // The row, from 1, of the holder with this member and number, if there is one.
    // A thin call, so that a wrong one is refused here, by this contract.
    pub fn row_of(&self, member: u64, number: u64) -> Option<usize>
        ensures value { result ≡ row_of (contents self.now) member number }
        ensures the_one_row_or_none { TheOneRow (contents self.now) member number result }
    {
        self.row_with(member, number)
    }

    // The invoice price of an asset in centavos a unit; 0 where the book has no such asset.
    // No Option: by its definition the value of what is no asset is 0, and this is a factor of it.
    fn invoice_price(&self, asset: usize) -> u64
        ensures value { result ≡ invoice (contents self.now) asset }
    {
        self.assets
            .get(asset)
            .map_or(0, |a| a.invoice_price(self.terms.price))
    }

    // The value of so many contracts of an asset, in centavos.
    pub fn value(&self, asset: usize, contracts: u32) -> u128
        ensures value { result ≡ value_of (contents self.now) asset contracts }
    {
        u128::from(contracts)
            * u128::from(self.terms.multiplier)
            * u128::from(self.invoice_price(asset))
    }
}
