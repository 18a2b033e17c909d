// What comes in to the house: the units of contracts taken, and draws of cash.
ghost use Rattle.std.specs.Prelude.{◌≡◌, ◌+◌, ◌-◌, ◌≤◌, ◌*◌, ◌/◌, min, map, not, ltb, nat_lt};
ghost use Rattle.std.specs.List.{list_any, fold, filter};
ghost use Rattle.order.specs.First.{any};
ghost use Rattle.register.specs.Registers.{meaning};
ghost use Rattle.register.specs.Rules.{transfer_refused, transfer_answer, after_transfer, unless_refused};
ghost use Rattle.rules.specs.declared.side.Side.TheVariants.{Securities, Cash};
ghost use Rattle.pairing.specs.Lines.{of_seller, open_on, outstanding as outstanding_of};
ghost use Rattle.rules.specs.Tally.{house, cash_asset, here, loaded, take_on};
ghost use Rattle.delivery.specs.Sides.{on_side};
ghost use Rattle.delivery.specs.Widths.{most_32};

use crate::fault::{SideFault, on};
use pairing::line::Line;
use register::balances::Balances;
use register::transfers::Transfers;
use rules::side::Side;

// In each register the house's own account, from which it pays and into which it takes.
pub const HOUSE: usize = 0;

// In the cash register the asset that is cash.
pub const CASH: usize = 0;

// The contracts of a line not yet taken.
fn open_of(line: &Line) -> u32
    ensures contracts_less_taken { result ≡ open_on line.now }
    ensures room_to_take_them { line.now.taken + result ≤ most_32 }
{
    line.contracts.saturating_sub(line.taken)
}

// What the seller in a row delivers of an asset.
#[derive(Clone, Copy)]
struct Lot {
    row: usize,
    asset: usize,
}

impl Lot {
    // Whether a line is of the seller and the asset.
    fn has(&self, line: &Line) -> bool
        ensures { result ≡ of_seller self.now.row self.now.asset line.now }
    {
        usize::from(line.seller) == self.row && usize::from(line.asset) == self.asset
    }

    // The contracts of its lines that are not yet taken, or the most that 32 bits hold.
    fn open_in(&self, lines: &[Line]) -> u32
        ensures { result ≡ fold (λ sum contracts. min (sum + contracts) most_32) 0 (map open_on (filter (of_seller self.now.row self.now.asset) lines.now)) }
    {
        lines
            .iter()
            .filter(|line| self.has(line))
            .map(open_of)
            .fold(0, u32::saturating_add)
    }

    // Takes as many of the contracts left on the line as are open there, and tells how many stay.
    fn load(&self, line: &mut Line, left: u32) -> u32
        ensures { (line.new ≡ loaded self.now.row self.now.asset left line.old) × (result ≡ left - here self.now.row self.now.asset left line.old) }
    {
        if !self.has(line) {
            return left;
        }
        let taken = left.min(open_of(line));
        line.taken += taken;
        left - taken
    }

    // Counts contracts as taken on its lines, in line order.
    fn spread(&self, lines: &mut [Line], contracts: u32)
        ensures { lines.new ≡ take_on self.now.row self.now.asset contracts lines.old }
    {
        let mut left = contracts;
        for line in lines.iter_mut() {
            left = self.load(line, left);
        }
    }
}

// The contracts of a seller's lines of an asset that are not yet taken. All contracts of a book fit in 32 bits; of lines
// that are no book's it tells at most what does.
pub fn outstanding(lines: &[Line], row: usize, asset: usize) -> u32
    ensures all_that_are_open { result ≡ min (outstanding_of lines.now row asset) most_32 }
{
    Lot { row, asset }.open_in(lines)
}

// How many contracts of a seller the units that it holds of an asset cover: none where there are no units to a contract.
pub fn covered<S: Balances>(securities: &S, row: usize, asset: usize, multiplier: u32) -> u64
    ensures whole_contracts { result ≡ (meaning S.Balances securities.now).balance row asset / multiplier }
{
    securities
        .balance_of(row, asset)
        .checked_div(u64::from(multiplier))
        .unwrap_or(0)
}

// Moves the units of some contracts from the seller's account to the house's, and counts them as taken; a refusal leaves
// lines and register as they were.
pub fn take<S: Transfers>(
    lines: &mut [Line],
    row: usize,
    asset: usize,
    contracts: u32,
    multiplier: u32,
    securities: &mut S,
) -> Result<(), SideFault>
    ensures answers_by_the_rules { result ≡ on_side Securities (transfer_answer (meaning S.Balances securities.old) row house asset (multiplier * contracts)) }
    ensures meaning_follows_the_rules { meaning S.Balances securities.new ≡ after_transfer (meaning S.Balances securities.old) row house asset (multiplier * contracts) }
    ensures taken_or_as_they_were { lines.new ≡ unless_refused (transfer_refused (meaning S.Balances securities.old) row house asset (multiplier * contracts)) (take_on row asset contracts lines.old) lines.old }
    ensures memory_is_kept { S.Balances.lender securities.new ≡ S.Balances.lender securities.old }
{
    let units = u64::from(multiplier) * u64::from(contracts);
    on(
        Side::Securities,
        securities.transfer(row, HOUSE, asset, units),
    )?;
    Lot { row, asset }.spread(lines, contracts);
    Ok(())
}

// Whether a line has contracts left to be taken.
fn any_open(lines: &[Line]) -> bool
    ensures { result ≡ list_any (λ l. nat_lt 0 (open_on l)) lines.now }
{
    lines.iter().any(|line| line.taken < line.contracts)
}

// Whether no line has contracts left to be taken.
#[tactic(auto, using(crate::proofs::OpenLines::any_is))]
pub fn all_taken(lines: &[Line]) -> bool
    ensures none_is_open { result ≡ not (any (λ l. ltb 0 (open_on l)) lines.now) }
{
    !any_open(lines)
}

// Moves an amount of cash from an agent's account to the house's; a refusal leaves the register as it was.
pub fn draw<C: Transfers>(cash: &mut C, agent: usize, amount: u64) -> Result<(), SideFault>
    ensures answers_by_the_rules { result ≡ on_side Cash (transfer_answer (meaning C.Balances cash.old) agent house cash_asset amount) }
    ensures meaning_follows_the_rules { meaning C.Balances cash.new ≡ after_transfer (meaning C.Balances cash.old) agent house cash_asset amount }
    ensures memory_is_kept { C.Balances.lender cash.new ≡ C.Balances.lender cash.old }
{
    on(Side::Cash, cash.transfer(agent, HOUSE, CASH, amount))
}
