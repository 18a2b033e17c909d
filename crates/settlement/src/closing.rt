// The close: what is in goes back to its sellers, and every unsettled contract is closed by differences.
ghost use Rattle.std.specs.Prelude.{◌≡◌, length};
ghost use Rattle.register.specs.Registers.{meaning};
ghost use Rattle.register.specs.Rules.{Meaning};
ghost use Rattle.state.specs.Seeing.{seen};
ghost use Rattle.state.specs.Following.{Follows};
ghost use Rattle.state.specs.Calls.{close_call};
ghost use Rattle.state.specs.Leaving.{with_claims};
ghost use Rattle.state.specs.Making.{FollowsOnMade};

use delivery::paying::{AGENT_PLACES, return_units};
use delivery::sums::claims;
use pairing::line::Line;
use register::balances::Balances;
use register::transfers::Transfers;
use rules::answer::Answer;
use rules::fault::Cause;
use rules::session::Session;
use state::state::State;
use state::table::made;

// Closes the expiry, with a claim for each agent.
fn closed(state: &mut State, claims: [i64; AGENT_PLACES])
    ensures closed_with_claims { state.new ≡ with_claims state.old claims }
    ensures a_place_for_each { length claims ≡ 65 }
{
    state.claims = claims;
    state.session = Session::Closed;
}

fn close_made<S: Transfers>(
    state: &mut State,
    lines: &mut [Line],
    securities: &mut S,
) -> Result<Answer, Cause>
    ensures goes_on_by_the_rules { (cash : Meaning) → FollowsOnMade state.old state.new lines.old lines.new (meaning S.Balances securities.old) (meaning S.Balances securities.new) cash cash close_call result }
    ensures memory_is_kept { S.Balances.lender securities.new ≡ S.Balances.lender securities.old }
{
    return_units(lines, state.book.terms().multiplier, securities)?;
    let owed = claims(&state.book, lines);
    closed(state, owed);
    Ok(Answer::Done)
}

fn close_by_rules<S: Transfers>(
    state: &mut State,
    lines: &mut [Line],
    securities: &mut S,
) -> Result<Answer, Cause>
    ensures goes_on_by_the_rules { (cash : Meaning) → Follows (seen state.old lines.old (meaning S.Balances securities.old) cash) close_call result (seen state.new lines.new (meaning S.Balances securities.new) cash) }
    ensures memory_is_kept { S.Balances.lender securities.new ≡ S.Balances.lender securities.old }
{
    let n = made(state.count, lines);
    close_made(state, &mut lines[..n], securities)
}

// Closes the expiry: contracts in return to their sellers, and the differences of all unsettled contracts become claims.
// A thin call, so that a wrong one is refused here, by this contract.
pub fn close<S: Transfers>(
    state: &mut State,
    lines: &mut [Line],
    securities: &mut S,
) -> Result<Answer, Cause>
    ensures goes_on_by_the_rules { (cash : Meaning) → Follows (seen state.old lines.old (meaning S.Balances securities.old) cash) close_call result (seen state.new lines.new (meaning S.Balances securities.new) cash) }
    ensures memory_is_kept { S.Balances.lender securities.new ≡ S.Balances.lender securities.old }
{
    close_by_rules(state, lines, securities)
}
