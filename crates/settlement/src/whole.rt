// Whole settlement: everything at once.
ghost use Rattle.std.specs.Prelude.{◌≡◌, ℕ, ◌&&◌};
ghost use Rattle.book.specs.Data.{contents};
ghost use Rattle.register.specs.Registers.{meaning};
ghost use Rattle.delivery.specs.Sums.{ValuesFit};
ghost use Rattle.state.specs.Seeing.{seen};
ghost use Rattle.state.specs.Following.{Follows};
ghost use Rattle.state.specs.Calls.{whole_call};
ghost use Rattle.settlement.specs.InFull.{taken_in_full, short, drawn_in_full};
ghost use Rattle.state.specs.Making.{FollowsOnMade};

use book::records::Holder;
use delivery::sums::debit;
use delivery::taking::all_taken;
use delivery::whole::settle_whole;
use pairing::line::Line;
use register::balances::Balances;
use register::transfers::Transfers;
use rules::answer::Answer;
use rules::fault::Cause;
use rules::session::Session;
use state::state::State;
use state::table::made;

// Whether less is drawn of a holder's agent than its debit. No Option: of an agent with no place nothing is drawn.
fn falls_short(state: &State, lines: &[Line], holder: &Holder) -> bool
    ensures { ValuesFit (contents state.now.book) lines.now holder.now.agent → result ≡ short (contents state.now.book) lines.now state.now.draws holder.now }
{
    let agent = usize::from(holder.agent);
    state.draws.get(agent).copied().unwrap_or(0) < debit(&state.book, lines, agent)
}

// Whether every debit of the book's agents is drawn.
// By `any`, as the rules say that none falls short: `all` would ask the same of a negated question.
fn all_drawn(state: &State, lines: &[Line]) -> bool
    ensures { ((agent : ℕ) → ValuesFit (contents state.now.book) lines.now agent) → result ≡ drawn_in_full (contents state.now.book) lines.now state.now.draws }
{
    !state
        .book
        .holders()
        .iter()
        .any(|h| falls_short(state, lines, h))
}

// Whether every contract is taken and every debit drawn.
fn all_in(state: &State, lines: &[Line]) -> bool
    ensures { ((agent : ℕ) → ValuesFit (contents state.now.book) lines.now agent) → result ≡ (taken_in_full lines.now && drawn_in_full (contents state.now.book) lines.now state.now.draws) }
{
    all_taken(lines) && all_drawn(state, lines)
}

fn deliver_made<S: Transfers, C: Transfers>(
    state: &mut State,
    lines: &mut [Line],
    securities: &mut S,
    cash: &mut C,
) -> Result<Answer, Cause>
    ensures goes_on_by_the_rules { FollowsOnMade state.old state.new lines.old lines.new (meaning S.Balances securities.old) (meaning S.Balances securities.new) (meaning C.Balances cash.old) (meaning C.Balances cash.new) whole_call result }
    ensures memory_is_kept { (S.Balances.lender securities.new ≡ S.Balances.lender securities.old) × (C.Balances.lender cash.new ≡ C.Balances.lender cash.old) }
{
    if !all_in(state, lines) {
        return Err(Cause::NotAllIn);
    }
    settle_whole(&state.book, lines, securities, cash)?;
    state.drop_draws(Session::Closed);
    Ok(Answer::Done)
}

fn deliver_by_rules<S: Transfers, C: Transfers>(
    state: &mut State,
    lines: &mut [Line],
    securities: &mut S,
    cash: &mut C,
) -> Result<Answer, Cause>
    ensures goes_on_by_the_rules { Follows (seen state.old lines.old (meaning S.Balances securities.old) (meaning C.Balances cash.old)) whole_call result (seen state.new lines.new (meaning S.Balances securities.new) (meaning C.Balances cash.new)) }
    ensures memory_is_kept { (S.Balances.lender securities.new ≡ S.Balances.lender securities.old) × (C.Balances.lender cash.new ≡ C.Balances.lender cash.old) }
{
    let n = made(state.count, lines);
    deliver_made(state, &mut lines[..n], securities, cash)
}

// Settles the whole expiry, once every contract is taken and every debit drawn: each line's units go to its buyer, each
// net above 0 to its agent, and the expiry is closed.
// A thin call, so that a wrong one is refused here, by this contract.
pub fn deliver_whole<S: Transfers, C: Transfers>(
    state: &mut State,
    lines: &mut [Line],
    securities: &mut S,
    cash: &mut C,
) -> Result<Answer, Cause>
    ensures goes_on_by_the_rules { Follows (seen state.old lines.old (meaning S.Balances securities.old) (meaning C.Balances cash.old)) whole_call result (seen state.new lines.new (meaning S.Balances securities.new) (meaning C.Balances cash.new)) }
    ensures memory_is_kept { (S.Balances.lender securities.new ≡ S.Balances.lender securities.old) × (C.Balances.lender cash.new ≡ C.Balances.lender cash.old) }
{
    deliver_by_rules(state, lines, securities, cash)
}
