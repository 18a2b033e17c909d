// Takes: a seller's units come in to the house.
ghost use Rattle.std.specs.Prelude.{◌≡◌, ℕ};
ghost use Rattle.book.specs.Data.{contents};
ghost use Rattle.book.specs.Books.{row_named};
ghost use Rattle.register.specs.Registers.{meaning};
ghost use Rattle.register.specs.Rules.{Meaning};
ghost use Rattle.state.specs.Seeing.{seen};
ghost use Rattle.state.specs.Following.{Follows};
ghost use Rattle.state.specs.Calls.{take_call};
ghost use Rattle.state.specs.Making.{FollowsOnMade};
ghost use Rattle.intake.specs.Taking.{asked_for};

use book::book::Book;
use delivery::taking::{covered, outstanding, take};
use pairing::line::Line;
use register::balances::Balances;
use register::transfers::Transfers;
use rules::answer::Answer;
use rules::fault::Cause;
use rules::session::Session;
use state::state::State;
use state::table::made;

// The row of a holder; 0 where there is none.
// No Option: the rules give a name that the book has not row 0, of which nothing is due.
fn row_or_0(book: &Book, member: u64, number: u64) -> usize
    ensures { result ≡ row_named (contents book.now) member number }
{
    book.row_of(member, number).unwrap_or(0)
}

// The contracts that a take asks for: in whole delivery all that are due, in partial delivery as many of them as the
// seller's units cover, and one where they cover none, so that the register itself finds it short.
fn contracts_asked(session: Session, due: u32, covered: u64) -> u32
    ensures { result ≡ asked_for session due covered }
{
    if session == Session::PartialDelivery {
        due.min(u32::try_from(covered.max(1)).unwrap_or(due))
    } else {
        due
    }
}

fn take_made<S: Transfers>(
    state: &State,
    lines: &mut [Line],
    securities: &mut S,
    row: usize,
    asset: usize,
) -> Result<Answer, Cause>
    ensures goes_on_by_the_rules { (member number : ℕ) (cash : Meaning) → row ≡ row_named (contents state.now.book) member number → FollowsOnMade state.now state.now lines.old lines.new (meaning S.Balances securities.old) (meaning S.Balances securities.new) cash cash (take_call member number asset) result }
    ensures memory_is_kept { S.Balances.lender securities.new ≡ S.Balances.lender securities.old }
{
    let due = outstanding(lines, row, asset);
    if due == 0 {
        return Err(Cause::NothingDue);
    }
    let multiplier = state.book.terms().multiplier;
    let contracts = contracts_asked(
        state.session,
        due,
        covered(securities, row, asset, multiplier),
    );
    take(lines, row, asset, contracts, multiplier, securities)?;
    Ok(Answer::Contracts(contracts))
}

fn take_by_rules<S: Transfers>(
    state: &State,
    lines: &mut [Line],
    securities: &mut S,
    member: u64,
    number: u64,
    asset: u64,
) -> Result<Answer, Cause>
    ensures goes_on_by_the_rules { (cash : Meaning) → Follows (seen state.now lines.old (meaning S.Balances securities.old) cash) (take_call member number asset) result (seen state.now lines.new (meaning S.Balances securities.new) cash) }
    ensures memory_is_kept { S.Balances.lender securities.new ≡ S.Balances.lender securities.old }
{
    let n = made(state.count, lines);
    take_made(
        state,
        &mut lines[..n],
        securities,
        row_or_0(&state.book, member, number),
        // 64 bits both: a `TryFrom` would add a refusal that never comes.
        asset as usize,
    )
}

// Takes a seller's units of an asset: in whole delivery those of all outstanding contracts, in partial delivery as many of
// them as its balance covers. The contracts count as in on the seller's lines of that asset, in line order.
// A thin call, so that a wrong one is refused here, by this contract.
pub fn take_contracts<S: Transfers>(
    state: &State,
    lines: &mut [Line],
    securities: &mut S,
    member: u64,
    number: u64,
    asset: u64,
) -> Result<Answer, Cause>
    ensures goes_on_by_the_rules { (cash : Meaning) → Follows (seen state.now lines.old (meaning S.Balances securities.old) cash) (take_call member number asset) result (seen state.now lines.new (meaning S.Balances securities.new) cash) }
    ensures memory_is_kept { S.Balances.lender securities.new ≡ S.Balances.lender securities.old }
{
    take_by_rules(state, lines, securities, member, number, asset)
}
