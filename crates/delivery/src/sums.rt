// Sums over the lines of an agent's clients: what each agent owes, is owed, and nets.
ghost use Rattle.std.specs.Prelude.{◌≡◌, ℕ, ◌+◌, ◌-◌, ◌≤◌, map, min, pos, nat_eq, slice_index, slice_index_or};
ghost use Rattle.std.specs.List.{fold, filter};
ghost use Rattle.std.proofs.Math.IntN.{sub_ℕ};
ghost use Rattle.book.specs.Data.{contents};
ghost use Rattle.book.specs.Books.{asset_at};
ghost use Rattle.book.specs.Limits.{most_agent};
ghost use Rattle.pairing.specs.Lines.{net as net_of, debit as debit_of, sumℤ, claim_on};
ghost use Rattle.delivery.specs.Widths.{most_63, most_64, most_128};
ghost use Rattle.delivery.specs.Parties.{agent_on};
ghost use Rattle.delivery.specs.declared.sums.Measure.TheVariants.{Contracts as all_contracts};
ghost use Rattle.delivery.specs.Sums.{measured, summed, ValuesFit, ClaimsFit};
ghost use Rattle.delivery.specs.Whole.{net_above};

use crate::party::Party;
use crate::paying::AGENT_PLACES;
use crate::settling::narrowed;
use book::book::Book;
use pairing::line::Line;
use std::array;

// What a line counts for in a sum: its contracts, or the unsettled of them, at the invoice or the market price.
// No closure: its contract would speak of every function that the closure may compute, where `measured` is one equation.
#[derive(Clone, Copy, PartialEq, Eq, Debug)]
pub enum Measure {
    Contracts,
    UnsettledAtInvoice,
    UnsettledAtMarket,
}

// The market price of an asset in centavos a unit; 0 where the book has no such asset.
// No Option: the rules price what is no asset at 0, and its one use is a factor.
fn market_price(book: &Book, asset: usize) -> u32
    ensures { result ≡ (asset_at (contents book.now) asset).market }
{
    book.assets().get(asset).map_or(0, |found| found.market)
}

impl Measure {
    fn of(&self, book: &Book, line: &Line) -> u128
        ensures { result ≡ measured self.now (contents book.now) line.now }
    {
        let asset = usize::from(line.asset);
        let unsettled = line.contracts.saturating_sub(line.settled);
        match self {
            Measure::Contracts => book.value(asset, line.contracts),
            Measure::UnsettledAtInvoice => book.value(asset, unsettled),
            Measure::UnsettledAtMarket => u128::from(unsettled)
                * u128::from(book.terms().multiplier)
                * u128::from(market_price(book, asset)),
        }
    }
}

// A number with a sign, or the most that it can be.
fn signed(n: u64) -> i64
    ensures { result ≡ pos (min n most_63) }
{
    i64::try_from(n).unwrap_or(i64::MAX)
}

// The difference of two sums. It is cut to the type after subtracting, so that two sums above its most differ as they do.
fn difference(more: u64, less: u64) -> i64
    ensures { more ≤ most_63 → less ≤ most_63 → result ≡ sub_ℕ more less }
{
    signed(more.saturating_sub(less)) - signed(less.saturating_sub(more))
}

// The lines of a book, as an agent's clients buy and sell on them.
#[derive(Clone, Copy)]
struct Trades<'a> {
    book: &'a Book,
    lines: &'a [Line],
    agent: usize,
}

impl Trades<'_> {
    // The sum over the lines on which the agent's clients are that party, or the most that 128 bits hold.
    fn added(&self, party: Party, measure: Measure) -> u128
        ensures { result ≡ fold (λ sum n. min (sum + n) most_128) 0 (map (measured measure (contents self.now.book.now)) (filter (λ l. nat_eq (agent_on party (contents self.now.book.now) l) self.now.agent) self.now.lines.now)) }
    {
        self.lines
            .iter()
            .filter(|line| party.agent(self.book, line) == self.agent)
            .map(|line| measure.of(self.book, line))
            .fold(0, u128::saturating_add)
    }

    // The same, or the most that 64 bits hold.
    fn sum(&self, party: Party, measure: Measure) -> u64
        ensures { result ≡ min (summed measure (contents self.now.book.now) party self.now.lines.now self.now.agent) most_64 }
    {
        narrowed(self.added(party, measure))
    }

    // How far the value that the agent's clients trade as one party is above what they trade as the other.
    fn above(&self, more: Party, less: Party) -> u64
        ensures { result ≡ min (summed all_contracts (contents self.now.book.now) more self.now.lines.now self.now.agent) most_64 - min (summed all_contracts (contents self.now.book.now) less self.now.lines.now self.now.agent) most_64 }
    {
        let value = self.sum(more, Measure::Contracts);
        value.saturating_sub(self.sum(less, Measure::Contracts))
    }

    // The agent's net: the value of the lines that its clients sell less those that they buy.
    fn net(&self) -> i64
        ensures { ValuesFit (contents self.now.book.now) self.now.lines.now self.now.agent → result ≡ net_of (contents self.now.book.now) self.now.lines.now self.now.agent }
    {
        let sold = self.sum(Party::Seller, Measure::Contracts);
        difference(sold, self.sum(Party::Buyer, Measure::Contracts))
    }

    // What the agent is owed, or owes below 0, where a close closes all unsettled contracts by differences: market less
    // invoice price on what its clients buy, and the other way round on what they sell.
    fn claim(&self) -> i64
        ensures { ClaimsFit (contents self.now.book.now) self.now.lines.now self.now.agent → result ≡ sumℤ (claim_on (contents self.now.book.now) self.now.agent) self.now.lines.now }
    {
        let bought_at_market = self.sum(Party::Buyer, Measure::UnsettledAtMarket);
        let sold_at_invoice = self.sum(Party::Seller, Measure::UnsettledAtInvoice);
        let bought_at_invoice = self.sum(Party::Buyer, Measure::UnsettledAtInvoice);
        let sold_at_market = self.sum(Party::Seller, Measure::UnsettledAtMarket);
        difference(
            bought_at_market.saturating_add(sold_at_invoice),
            bought_at_invoice.saturating_add(sold_at_market),
        )
    }
}

// What an agent's net is below 0.
pub fn debit(book: &Book, lines: &[Line], agent: usize) -> u64
    ensures net_below_0 { ValuesFit (contents book.now) lines.now agent → result ≡ debit_of (contents book.now) lines.now agent }
{
    Trades { book, lines, agent }.above(Party::Buyer, Party::Seller)
}

// Each agent's net above 0, by its number; 0 for the others.
pub(crate) fn credits(book: &Book, lines: &[Line]) -> [u64; AGENT_PLACES]
    ensures each_net_above_0 { (k : ℕ) → k ≤ most_agent → ValuesFit (contents book.now) lines.now k → slice_index result k ≡ net_above (contents book.now) lines.now k }
{
    array::from_fn(|agent| Trades { book, lines, agent }.above(Party::Seller, Party::Buyer))
}

// Each agent's net, by its number.
pub fn nets(book: &Book, lines: &[Line]) -> [i64; AGENT_PLACES]
    ensures each_net { (k : ℕ) → k ≤ most_agent → ValuesFit (contents book.now) lines.now k → slice_index_or result k (pos 0) ≡ net_of (contents book.now) lines.now k }
{
    array::from_fn(|agent| Trades { book, lines, agent }.net())
}

// Each agent's claim, by its number.
pub fn claims(book: &Book, lines: &[Line]) -> [i64; AGENT_PLACES]
    ensures each_claim { (k : ℕ) → k ≤ most_agent → ClaimsFit (contents book.now) lines.now k → slice_index_or result k (pos 0) ≡ sumℤ (claim_on (contents book.now) k) lines.now }
{
    array::from_fn(|agent| Trades { book, lines, agent }.claim())
}
