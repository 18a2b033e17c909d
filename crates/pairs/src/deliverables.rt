// The first deliverable of a book.
ghost use Rattle.std.specs.Prelude.{◌≡◌, ◌<◌, ◌≤◌, true, length, IfSome, IfNone};
ghost use Rattle.book.specs.Limits.{most_assets};
ghost use Rattle.order.specs.First.{first};
ghost use Rattle.book.specs.Books.{invoice_of};
ghost use Rattle.book.specs.Data.{contents};
ghost use Rattle.pairing.specs.Orders.{deliverable_leq, deliverables, place_or_0, first_deliverable};

use arrayvec::ArrayVec;
use book::book::Book;
use book::limits::MOST_ASSETS;
use book::records::Asset;
use order::first_open;
use pairing::deliverable::Deliverable;

// An asset with its number and both of its prices.
fn deliverable(price: u32, asset: u8, x: &Asset) -> Deliverable
    ensures { result ≡ record { asset = asset; market = x.now.market; invoice = invoice_of price x.now } }
{
    Deliverable {
        asset,
        market: x.market,
        invoice: x.invoice_price(price),
    }
}

// All assets with their numbers and prices.
fn list_all(price: u32, assets: &[Asset]) -> ArrayVec<Deliverable, MOST_ASSETS>
    requires { length assets.now ≤ most_assets }
    ensures { result.items ≡ deliverables price 0 assets.now }
{
    let mut all = ArrayVec::new();
    for (i, x) in assets.iter().enumerate() {
        all.push(deliverable(price, i as u8, x)); // the cast loses nothing: there are at most four
    }
    all
}

// The number of the first deliverable; none where there is no asset.
fn first_of(price: u32, assets: &[Asset]) -> Option<usize>
    requires { length assets.now ≤ most_assets }
    ensures none_of_none { IfNone result (length assets.now ≡ 0) }
    ensures within { IfSome result (λ asset. asset < length assets.now) }
    ensures value { IfSome result (λ asset. asset ≡ place_or_0 (first deliverable_leq (λ _. true) (deliverables price 0 assets.now))) }
{
    first_open(list_all(price, assets).as_slice())
}

// The number of the first deliverable; none where the book is empty.
pub(crate) fn first_deliverable(book: &Book) -> Option<usize>
    ensures none_of_none { IfNone result (length (contents book.now).assets ≡ 0) }
    ensures within { IfSome result (λ asset. asset < length (contents book.now).assets) }
    ensures value { IfSome result (λ asset. asset ≡ first_deliverable (contents book.now)) }
{
    first_of(book.terms().price, book.assets())
}
