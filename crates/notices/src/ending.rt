// The end of the clearing members' notices: what is not notified goes to the first deliverable.
ghost use Rattle.std.specs.Prelude.{◌≡◌, List};
ghost use Rattle.pairing.specs.declared.line.Line.{Line};
ghost use Rattle.register.specs.Rules.{Meaning};
ghost use Rattle.rules.specs.declared.session.Session.TheVariants as session_of;
ghost use Rattle.state.specs.Seeing.{seen};
ghost use Rattle.state.specs.Following.{Follows};
ghost use Rattle.state.specs.Calls.{end_call};
ghost use Rattle.notices.specs.NextSession.{notices_ended};

use pairs::whole_book::hand_out;
use rules::answer::Answer;
use rules::fault::{Cause, Part};
use rules::session::Session;
use state::state::State;

// Pairing follows.
fn on_to_pairing(state: &mut State)
    ensures { state.new ≡ notices_ended state.old }
{
    state.session = Session::Pairing;
}

fn end_by_rules(state: &mut State) -> Result<Answer, Cause>
    ensures goes_on_by_the_rules { (lines : List Line) (securities cash : Meaning) → state.old.session ≡ session_of.ClearingNotices → Follows (seen state.old lines securities cash) end_call result (seen state.new lines securities cash) }
{
    // Never refused: each holder of any book has a record. Too few would be told as the line table, as no other part fits.
    hand_out(&state.book, &mut state.lots).map_err(|_| Cause::TooSmall(Part::LineTable))?;
    on_to_pairing(state);
    Ok(Answer::Done)
}

// Ends the clearing members' notices: each seller's unnotified contracts go to the first deliverable, and pairing follows.
// A thin call, so that a wrong one is refused here, by this contract.
pub fn end_notices(state: &mut State) -> Result<Answer, Cause>
    ensures goes_on_by_the_rules { (lines : List Line) (securities cash : Meaning) → state.old.session ≡ session_of.ClearingNotices → Follows (seen state.old lines securities cash) end_call result (seen state.new lines securities cash) }
{
    end_by_rules(state)
}
