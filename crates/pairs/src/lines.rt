// The lines that pairs make of the sellers' lots.
ghost use Rattle.std.specs.Prelude.{◌≡◌, ◌+◌, ◌-◌, ◌*◌, ◌<◌, ◌≤◌, [], length, map, take, drop};
ghost use Rattle.std.specs.List.{AllByRecursion, fold, filter};
ghost use Rattle.book.specs.Limits.{most_assets, most_holders};
ghost use Rattle.pairing.specs.Laws.{places_a_holder};
ghost use Rattle.pairing.specs.Lines.{total, of_seller, add_line, lines_of_pair, lines_of_pairs};
ghost use Rattle.pairs.specs.Records.{held, lots_from};

use crate::lots::Lots;
use pairing::line::Line;
use pairing::pair::Pair;

// The row of the holder at a place. Its bound stays a clause: a `Pair` has plain numbers, so that a type of places would
// only be made of them again at each call.
fn row_of(place: usize) -> u16
    requires { place < most_holders }
    ensures { result ≡ place + 1 }
{
    // the cast loses nothing, as the proof knows; `try_from` would need a branch that is never taken
    (place + 1) as u16
}

// Whether a line counts against the lot of the seller in a row for an asset.
fn counts(l: &Line, row: u16, asset: u8) -> bool
    ensures { result ≡ of_seller row asset l.now }
{
    l.seller == row && l.asset == asset
}

// What lines leave of a lot of the seller in a row for an asset.
fn less_lines(lot: u32, lines: &[Line], row: u16, asset: u8) -> u32
    ensures { result ≡ fold (λ left n. left - n) lot (map (λ l. l.contracts) (filter (of_seller row asset) lines.now)) }
{
    lines
        .iter()
        .filter(|l| counts(l, row, asset))
        .map(|l| l.contracts)
        .fold(lot, |left, contracts| left.saturating_sub(contracts))
}

impl<'a> Lots<'a> {
    // The lot of the holder at a place for an asset; nothing where there is no record. No Option: `held` is 0 there.
    fn lot(&self, place: usize, asset: u8) -> u32
        requires { asset < most_assets }
        ensures { result ≡ held self.now.records.now place asset }
    {
        self.records
            .get(place)
            .map_or(0, |r| r.lots[usize::from(asset)])
    }
}

// The lines written so far, in the first places of a caller's table: they go where the caller keeps them, with no memory
// of their own.
#[derive(Drop)]
struct Written<'a> {
    table: &'a mut [Line],
    count: usize,
}

impl<'a> Written<'a> {
    // What the lines so far leave of the lot of the seller at a place for an asset.
    #[tactic(auto, using(crate::proofs::WrittenLines::less_each))]
    fn left(&self, lots: &Lots, seller: usize, asset: u8) -> u32
        requires few_assets { asset < most_assets }
        requires near { seller < most_holders }
        requires room { self.now.count ≤ length self.now.table.now }
        ensures { result ≡ held lots.now.records.now seller asset - total (of_seller (seller + 1) asset) (λ l. l.contracts) (take self.now.count self.now.table.now) }
    {
        let lines = &self.table[..self.count];
        less_lines(lots.lot(seller, asset), lines, row_of(seller), asset)
    }

    // Writes one more line, unless it has no contracts.
    fn add(&mut self, line: Line)
        requires { self.old.count < length self.old.table.now }
        ensures same_table { self.new.table.ghost_name ≡ self.old.table.ghost_name }
        ensures same_length { length self.new.table.now ≡ length self.old.table.now }
        ensures added { take self.new.count self.new.table.now ≡ add_line (take self.old.count self.old.table.now) line }
        ensures later_places_stay { drop self.new.count self.new.table.now ≡ drop self.new.count self.old.table.now }
        ensures one_more { (self.old.count ≤ self.new.count) × (self.new.count ≤ self.old.count + 1) }
    {
        if line.contracts > 0 {
            self.table[self.count] = line;
            self.count += 1;
        }
    }

    // Writes the lines of a pair: it uses up the seller's lots, lowest asset first.
    fn add_pair(&mut self, lots: &Lots, p: Pair)
        requires near { (p.buyer < most_holders) × (p.seller < most_holders) }
        requires room { self.old.count + lots.now.assets ≤ length self.old.table.now }
        ensures same_table { self.new.table.ghost_name ≡ self.old.table.ghost_name }
        ensures same_length { length self.new.table.now ≡ length self.old.table.now }
        ensures by_the_rule { take self.new.count self.new.table.now ≡ lines_of_pair (lots_from lots.now.assets 1 lots.now.records.now) p lots.now.assets 0 p.contracts (take self.old.count self.old.table.now) }
        ensures later_places_stay { drop self.new.count self.new.table.now ≡ drop self.new.count self.old.table.now }
        ensures few_more { (self.old.count ≤ self.new.count) × (self.new.count ≤ self.old.count + lots.now.assets) }
    {
        let fresh = Line {
            stage: p.stage,
            buyer: row_of(p.buyer),
            seller: row_of(p.seller),
            ..Line::NONE
        };
        let mut rest = p.contracts;
        for asset in 0..lots.assets {
            let contracts = rest.min(self.left(lots, p.seller, asset));
            rest -= contracts;
            self.add(Line {
                asset,
                contracts,
                ..fresh
            });
        }
    }
}

// Writes the lines of pairs, in the order made, from the first place on.
pub(crate) fn add_pairs(pairs: &[Pair], lots: &Lots, lines: &mut [Line]) -> usize
    requires near { AllByRecursion (λ p. (p.buyer < most_holders) × (p.seller < most_holders)) pairs.now }
    requires room { places_a_holder * length pairs.now ≤ length lines.old }
    ensures by_the_rule { take result lines.new ≡ lines_of_pairs (lots_from lots.now.assets 1 lots.now.records.now) lots.now.assets pairs.now [] }
    ensures later_places_stay { drop result lines.new ≡ drop result lines.old }
    ensures room { result ≤ places_a_holder * length pairs.now }
{
    let mut written = Written {
        table: lines,
        count: 0,
    };
    for p in pairs {
        written.add_pair(lots, *p);
    }
    written.count
}
