// Pairing as a call: the lines of the book from its lots.
ghost use Rattle.std.specs.Prelude.{◌≡◌};
ghost use Rattle.register.specs.Rules.{Meaning};
ghost use Rattle.state.specs.Seeing.{seen};
ghost use Rattle.state.specs.Following.{Follows};
ghost use Rattle.state.specs.Calls.{pair_call};
ghost use Rattle.notices.specs.NextSession.{book_paired};

use delivery::paying::AGENT_PLACES;
use delivery::sums::nets;
use pairing::line::Line;
use pairs::whole_book::pair;
use rules::answer::Answer;
use rules::fault::{Cause, Part};
use rules::session::Session;
use state::state::State;

// The book is paired into so many lines, each agent's net is known, and whole delivery follows.
fn on_to_delivery(state: &mut State, count: usize, nets: [i64; AGENT_PLACES])
    ensures { state.new ≡ book_paired state.old count nets }
{
    state.count = count;
    state.nets = nets;
    state.session = Session::WholeDelivery;
}

fn pair_by_rules(state: &mut State, lines: &mut [Line]) -> Result<Answer, Cause>
    ensures goes_on_by_the_rules { (securities cash : Meaning) → Follows (seen state.old lines.old securities cash) pair_call result (seen state.new lines.new securities cash) }
{
    // Never refused in an expiry, which looks for room before each call: the one fault that can come is too few lines.
    let n = pair(&state.book, &state.lots, lines).map_err(|_| Cause::TooSmall(Part::LineTable))?;
    let each_net = nets(&state.book, &lines[..n]);
    on_to_delivery(state, n, each_net);
    Ok(Answer::Lines(n))
}

// Pairs the book: its lines go into the first places of the table, each agent's net follows from them, and whole delivery
// follows.
// A thin call, so that a wrong one is refused here, by this contract.
pub fn pair_book(state: &mut State, lines: &mut [Line]) -> Result<Answer, Cause>
    ensures goes_on_by_the_rules { (securities cash : Meaning) → Follows (seen state.old lines.old securities cash) pair_call result (seen state.new lines.new securities cash) }
{
    pair_by_rules(state, lines)
}
