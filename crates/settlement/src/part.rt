// Line settlement: the contracts in of one line.
ghost use Rattle.std.specs.Prelude.{◌≡◌, length};
ghost use Rattle.register.specs.Registers.{meaning};
ghost use Rattle.state.specs.Seeing.{seen};
ghost use Rattle.state.specs.Following.{Follows};
ghost use Rattle.state.specs.Calls.{line_call};
ghost use Rattle.state.specs.Making.{FollowsOnMade};
ghost use Rattle.settlement.specs.Placing.{Placed};

use delivery::party::inside;
use delivery::settling::settle_line;
use pairing::line::Line;
use register::balances::Balances;
use register::transfers::Transfers;
use rules::answer::Answer;
use rules::fault::Cause;
use state::state::State;
use state::table::made;

// The place of a line by its number, which counts from 1.
// 64 bits both: a `TryFrom` would add a case that never comes.
fn place_of(lines: &[Line], line: u64) -> Option<usize>
    ensures { Placed (length lines.now) line result }
{
    (line as usize)
        .checked_sub(1)
        .filter(|&place| place < lines.len())
}

fn deliver_made<S: Transfers, C: Transfers>(
    state: &State,
    lines: &mut [Line],
    securities: &mut S,
    cash: &mut C,
    line: u64,
) -> Result<Answer, Cause>
    ensures goes_on_by_the_rules { FollowsOnMade state.now state.now lines.old lines.new (meaning S.Balances securities.old) (meaning S.Balances securities.new) (meaning C.Balances cash.old) (meaning C.Balances cash.new) (line_call line) result }
    ensures memory_is_kept { (S.Balances.lender securities.new ≡ S.Balances.lender securities.old) × (C.Balances.lender cash.new ≡ C.Balances.lender cash.old) }
{
    let place = place_of(lines, line).ok_or(Cause::NothingDue)?;
    let contracts = inside(&lines[place]);
    if contracts == 0 {
        return Err(Cause::NothingDue);
    }
    settle_line(&state.book, &mut lines[place], securities, cash)?;
    Ok(Answer::Contracts(contracts))
}

// Settles the contracts in of one line, by its number from 1: their value goes from the buyer's agent through the house to
// the seller's agent, and their units to the buyer.
pub fn deliver_line<S: Transfers, C: Transfers>(
    state: &State,
    lines: &mut [Line],
    securities: &mut S,
    cash: &mut C,
    line: u64,
) -> Result<Answer, Cause>
    ensures goes_on_by_the_rules { Follows (seen state.now lines.old (meaning S.Balances securities.old) (meaning C.Balances cash.old)) (line_call line) result (seen state.now lines.new (meaning S.Balances securities.new) (meaning C.Balances cash.new)) }
    ensures memory_is_kept { (S.Balances.lender securities.new ≡ S.Balances.lender securities.old) × (C.Balances.lender cash.new ≡ C.Balances.lender cash.old) }
{
    let n = made(state.count, lines);
    deliver_made(state, &mut lines[..n], securities, cash, line)
}
