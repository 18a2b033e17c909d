// Draws: a payment agent's debit comes in to the house, and goes back to it when whole delivery ends.
ghost use Rattle.std.specs.Prelude.{◌≡◌, ◌<◌, List, length, slice_set};
ghost use Rattle.rules.specs.declared.session.Session.TheVariants as session_of;
ghost use Rattle.register.specs.Registers.{meaning};
ghost use Rattle.register.specs.Rules.{Meaning};
ghost use Rattle.state.specs.Seeing.{seen};
ghost use Rattle.state.specs.Following.{Follows};
ghost use Rattle.state.specs.Calls.{draw_call, end_call};
ghost use Rattle.state.specs.Making.{FollowsOnMade};

use delivery::paying::pay_agents;
use delivery::sums::debit;
use delivery::taking::draw;
use pairing::line::Line;
use register::balances::Balances;
use register::transfers::Transfers;
use rules::answer::Answer;
use rules::fault::Cause;
use rules::session::Session;
use state::state::State;
use state::table::made;

// Notes the draw of an agent as held.
fn hold(draws: &mut [u64], agent: usize, amount: u64)
    requires there { agent < length draws.old }
    ensures held { draws.new ≡ slice_set draws.old agent amount }
    ensures there { agent < length draws.old }
{
    draws[agent] = amount;
}

fn draw_made<C: Transfers>(
    state: &mut State,
    lines: &[Line],
    cash: &mut C,
    agent: usize,
) -> Result<Answer, Cause>
    ensures goes_on_by_the_rules { (securities : Meaning) → FollowsOnMade state.old state.new lines.now lines.now securities securities (meaning C.Balances cash.old) (meaning C.Balances cash.new) (draw_call agent) result }
    ensures memory_is_kept { C.Balances.lender cash.new ≡ C.Balances.lender cash.old }
{
    let drawn = *state.draws.get(agent).ok_or(Cause::NothingDue)?;
    let amount = debit(&state.book, lines, agent);
    if amount == 0 || drawn != 0 {
        return Err(Cause::NothingDue);
    }
    draw(cash, agent, amount)?;
    hold(&mut state.draws, agent, amount);
    Ok(Answer::Done)
}

// Draws an agent's debit, entire and once; it is held until whole delivery ends or settles.
pub fn draw_debit<C: Transfers>(
    state: &mut State,
    lines: &[Line],
    cash: &mut C,
    agent: u64,
) -> Result<Answer, Cause>
    ensures goes_on_by_the_rules { (securities : Meaning) → Follows (seen state.old lines.now securities (meaning C.Balances cash.old)) (draw_call agent) result (seen state.new lines.now securities (meaning C.Balances cash.new)) }
    ensures memory_is_kept { C.Balances.lender cash.new ≡ C.Balances.lender cash.old }
{
    let n = made(state.count, lines);
    // 64 bits both: a `TryFrom` would add a refusal that never comes.
    draw_made(state, &lines[..n], cash, agent as usize)
}

fn return_by_rules<C: Transfers>(state: &mut State, cash: &mut C) -> Result<Answer, Cause>
    ensures goes_on_by_the_rules { (lines : List Line) (securities : Meaning) → state.old.session ≡ session_of.WholeDelivery → Follows (seen state.old lines securities (meaning C.Balances cash.old)) end_call result (seen state.new lines securities (meaning C.Balances cash.new)) }
    ensures memory_is_kept { C.Balances.lender cash.new ≡ C.Balances.lender cash.old }
{
    pay_agents(cash, &state.draws)?;
    state.drop_draws(Session::PartialDelivery);
    Ok(Answer::Done)
}

// Ends whole delivery: each draw held goes back to its agent, and partial delivery follows.
// A thin call, so that a wrong one is refused here, by this contract.
pub fn return_draws<C: Transfers>(state: &mut State, cash: &mut C) -> Result<Answer, Cause>
    ensures goes_on_by_the_rules { (lines : List Line) (securities : Meaning) → state.old.session ≡ session_of.WholeDelivery → Follows (seen state.old lines securities (meaning C.Balances cash.old)) end_call result (seen state.new lines securities (meaning C.Balances cash.new)) }
    ensures memory_is_kept { C.Balances.lender cash.new ≡ C.Balances.lender cash.old }
{
    return_by_rules(state, cash)
}
