// Questions to an expiry, which change nothing.
ghost use Rattle.std.specs.Prelude.{◌≡◌, ℕ, ◌-◌, length, pos, slice_index, slice_index_or};
ghost use Rattle.book.specs.Data.{contents};
ghost use Rattle.book.specs.Books.{holder as holder_of, volume as volume_of};
ghost use Rattle.pairing.specs.Lines.{lot as lot_of, unnotified as unnotified_of, net as net_of};
ghost use Rattle.rules.specs.Tally.{claim as claim_of};
ghost use Rattle.rules.specs.Histories.{tally_of};
ghost use Rattle.state.specs.Seeing.{record_of};
ghost use Rattle.expiry.specs.Opened.{Tells};

use crate::expiry::Expiry;
use book::book::Book;
use pairs::lots::SellerLots;
use rules::session::Session;

// An amount by its agent; 0 where there is none.
// No Option: the questions answer 0 there, as the tally does.
fn amount_of(amounts: &[i64], agent: usize) -> i64
    ensures { result ≡ slice_index_or amounts.now agent (pos 0) }
{
    amounts.get(agent).copied().unwrap_or(0)
}

// The record of a row; an empty one where there is none.
// No Option: who has no record has no lots, and the rules say so by the same empty record.
fn record_at(records: &[SellerLots], row: usize) -> SellerLots
    ensures lots { (a : ℕ) → slice_index result.lots a ≡ slice_index (record_of records.now row).lots a }
    ensures notified { result.notified ≡ (record_of records.now row).notified }
{
    // checked_sub, then get: one chain of the library's, which a method for rows would only hide.
    row.checked_sub(1)
        .and_then(|place| records.get(place).copied())
        .unwrap_or(SellerLots::NONE)
}

// The contracts of the holder in a row; 0 where there is nobody.
// No Option: nobody has nothing left to notify.
fn volume_at(book: &Book, row: usize) -> u32
    ensures { result ≡ volume_of (holder_of (contents book.now) row) }
{
    // checked_sub, then get: one chain of the library's, which a method of the book would only hide.
    row.checked_sub(1)
        .and_then(|place| book.holders().get(place))
        .map_or(0, |h| h.volume())
}

impl Expiry {
    pub fn session(&self) -> Session
        ensures tells_the_session { Tells self.now.state (λ o h. result ≡ (tally_of o h).session) }
    {
        self.state.session
    }

    // The lines that pairing made; 0 before it.
    pub fn line_count(&self) -> usize
        ensures tells_the_lines_made { Tells self.now.state (λ o h. result ≡ length (tally_of o h).lines) }
    {
        self.state.count
    }

    // The lot of the seller in a row for an asset.
    pub fn lot(&self, row: usize, asset: usize) -> u32
        ensures tells_the_lot { Tells self.now.state (λ o h. result ≡ lot_of (tally_of o h).lots row asset) }
    {
        let lots = record_at(&self.state.lots, row).lots;
        lots.get(asset).copied().unwrap_or(0)
    }

    // The contracts of the seller in a row that stand in no lot.
    pub fn unnotified(&self, row: usize) -> u32
        ensures tells_the_unnotified { Tells self.now.state (λ o h. result ≡ unnotified_of (tally_of o h).lots row (holder_of o.book row)) }
    {
        volume_at(&self.state.book, row).saturating_sub(record_at(&self.state.lots, row).notified)
    }

    // What the clients of an agent sell less what they buy, by value.
    pub fn net(&self, agent: usize) -> i64
        ensures tells_the_net { Tells self.now.state (λ o h. result ≡ net_of o.book (tally_of o h).lines agent) }
    {
        amount_of(&self.state.nets, agent)
    }

    // What an agent is owed by differences, or owes.
    pub fn claim(&self, agent: usize) -> i64
        ensures tells_the_claim { Tells self.now.state (λ o h. result ≡ claim_of o.book (tally_of o h) agent) }
    {
        amount_of(&self.state.claims, agent)
    }
}
