// What the house pays out: units line by line, to buyers or back to sellers, and cash agent by agent.
ghost use Rattle.std.specs.Prelude.{◌≡◌, if◌then◌else◌, Ok, nat_eq};
ghost use Rattle.register.specs.Registers.{meaning};
ghost use Rattle.register.specs.Rules.{transfer_answer, after_transfer};
ghost use Rattle.rules.specs.declared.side.Side.TheVariants.{Cash};
ghost use Rattle.rules.specs.Tally.{house, cash_asset};
ghost use Rattle.delivery.specs.Parties.{to_seller};
ghost use Rattle.delivery.specs.Handing.{HandsOut, HandsOn, PaysCash, paid_agents};
ghost use Rattle.rules.specs.Postings.{pays};

use crate::fault::{SideFault, on};
use crate::party::{Party, inside};
use crate::taking::{CASH, HOUSE};
use book::limits::MOST_AGENT;
use pairing::line::Line;
use register::balances::Balances;
use register::fault::RegisterFault;
use register::transfers::Transfers;
use rules::side::Side;

// Places for amounts by agent: agents are numbered from 1, and place 0 is nobody's.
// By `as`, since the value of a constant calls no function.
pub const AGENT_PLACES: usize = MOST_AGENT as usize + 1;

// Pays an amount out of the house's account; nothing where it is 0.
pub(crate) fn pay<R: Transfers>(
    register: &mut R,
    taker: usize,
    asset: usize,
    amount: u64,
) -> Result<(), RegisterFault>
    ensures answers_by_the_rules { result ≡ (if nat_eq amount 0 then Ok tt else transfer_answer (meaning R.Balances register.old) house taker asset amount) }
    ensures meaning_follows_the_rules { meaning R.Balances register.new ≡ (if nat_eq amount 0 then meaning R.Balances register.old else after_transfer (meaning R.Balances register.old) house taker asset amount) }
    ensures memory_is_kept { R.Balances.lender register.new ≡ R.Balances.lender register.old }
{
    if amount == 0 {
        return Ok(());
    }
    register.transfer(HOUSE, taker, asset, amount)
}

// Hands the units of a line's contracts in to the receiver.
pub(crate) fn hand_on<S: Transfers>(
    line: &mut Line,
    to: Party,
    multiplier: u32,
    securities: &mut S,
) -> Result<(), SideFault>
    ensures hands { HandsOn to multiplier line.old line.new (meaning S.Balances securities.old) (meaning S.Balances securities.new) result }
    ensures memory_is_kept { S.Balances.lender securities.new ≡ S.Balances.lender securities.old }
{
    let units = u64::from(multiplier) * u64::from(inside(line));
    on(
        Side::Securities,
        pay(securities, to.account(line), usize::from(line.asset), units),
    )?;
    to.count(line);
    Ok(())
}

// Hands the units of all contracts in to the receiver of their line, in line order.
pub(crate) fn hand_out<S: Transfers>(
    lines: &mut [Line],
    to: Party,
    multiplier: u32,
    securities: &mut S,
) -> Result<(), SideFault>
    ensures hands { HandsOut to multiplier lines.old lines.new (meaning S.Balances securities.old) (meaning S.Balances securities.new) result }
    ensures memory_is_kept { S.Balances.lender securities.new ≡ S.Balances.lender securities.old }
{
    for line in lines.iter_mut() {
        hand_on(line, to, multiplier, securities)?;
    }
    Ok(())
}

// Gives the units of all contracts in back to their sellers, and counts them as returned.
pub fn return_units<S: Transfers>(
    lines: &mut [Line],
    multiplier: u32,
    securities: &mut S,
) -> Result<(), SideFault>
    ensures returns_where_no_move_is_refused { HandsOut to_seller multiplier lines.old lines.new (meaning S.Balances securities.old) (meaning S.Balances securities.new) result }
    ensures memory_is_kept { S.Balances.lender securities.new ≡ S.Balances.lender securities.old }
{
    hand_out(lines, Party::Seller, multiplier, securities)
}

// Pays one agent an amount of cash.
fn pay_agent<C: Transfers>(cash: &mut C, agent: usize, amount: u64) -> Result<(), SideFault>
    ensures pays { PaysCash (pays Cash agent cash_asset amount) (meaning C.Balances cash.old) (meaning C.Balances cash.new) result }
    ensures memory_is_kept { C.Balances.lender cash.new ≡ C.Balances.lender cash.old }
{
    on(Side::Cash, pay(cash, agent, CASH, amount))
}

// Pays each agent its amount of cash, by ascending number; nothing where it is 0. Place 0 is nobody's.
pub fn pay_agents<C: Transfers>(
    cash: &mut C,
    amounts: &[u64; AGENT_PLACES],
) -> Result<(), SideFault>
    ensures pays_where_no_move_is_refused { PaysCash (paid_agents amounts.now) (meaning C.Balances cash.old) (meaning C.Balances cash.new) result }
    ensures memory_is_kept { C.Balances.lender cash.new ≡ C.Balances.lender cash.old }
{
    for (agent, amount) in amounts.iter().enumerate().skip(1) {
        pay_agent(cash, agent, *amount)?;
    }
    Ok(())
}
