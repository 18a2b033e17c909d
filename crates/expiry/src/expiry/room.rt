// The room that a book needs: places for its lines, and accounts and assets in both registers.
ghost use Rattle.std.specs.Prelude.{◌≡◌, ◌*◌, not, ◌&&◌, leb, length, nat_le, nat_lt};
ghost use Rattle.book.specs.Data.{contents};
ghost use Rattle.order.specs.First.{any};
ghost use Rattle.register.specs.Registers.{meaning};
ghost use Rattle.register.specs.Rules.{answer};
ghost use Rattle.rules.specs.Tally.{cash_asset};
ghost use Rattle.rules.specs.Verdict.{lines_a_holder, first_failed, room, too_small};

use crate::expiry::Expiry;
use book::book::Book;
use book::limits::LINES_A_HOLDER;
use book::records::Holder;
use delivery::taking::CASH;
use pairing::line::Line;
use register::balances::Balances;
use rules::call::Call;
use rules::fault::{Cause, Fault, Part};
use rules::side::Side;

// Whether the table has places for all lines of the book.
fn has_places(book: &Book, places: usize) -> bool
    ensures { result ≡ nat_le (lines_a_holder * length (contents book.now).holders) places }
{
    LINES_A_HOLDER * book.holders().len() <= places
}

// Whether the securities register has an account for each row and one for the house, and the book's assets.
fn has_rows<S: Balances>(book: &Book, securities: &S) -> bool
    ensures { result ≡ (nat_lt (length (contents book.now).holders) (S.Balances.accounts securities.now) && nat_le (length (contents book.now).assets) (S.Balances.assets securities.now)) }
{
    book.holders().len() < securities.account_count()
        && book.assets().len() <= securities.asset_count()
}

// Whether the agent of some holder has no account.
fn lacks_an_agent(holders: &[Holder], accounts: usize) -> bool
    ensures { result ≡ any (λ h. leb accounts h.agent) holders.now }
{
    holders.iter().any(|h| accounts <= usize::from(h.agent))
}

// Whether the cash register has an account for each agent and one for the house, and cash.
fn has_agents<C: Balances>(book: &Book, cash: &C) -> bool
    ensures { result ≡ (not (any (λ h. leb (C.Balances.accounts cash.now) h.agent) (contents book.now).holders) && nat_lt cash_asset (C.Balances.assets cash.now)) }
{
    !lacks_an_agent(book.holders(), cash.account_count()) && CASH < cash.asset_count()
}

// Refuses with the first part that is too small for the book.
pub(crate) fn check_room<S: Balances, C: Balances>(
    book: &Book,
    places: usize,
    securities: &S,
    cash: &C,
) -> Result<(), Part>
    ensures { result ≡ answer (first_failed (room (contents book.now) places (meaning S.Balances securities.now) (meaning C.Balances cash.now))) }
{
    if !has_places(book, places) {
        return Err(Part::LineTable);
    }
    if !has_rows(book, securities) {
        return Err(Part::Register(Side::Securities));
    }
    if !has_agents(book, cash) {
        return Err(Part::Register(Side::Cash));
    }
    Ok(())
}

impl Expiry {
    // Refuses a call that finds too little room.
    pub(crate) fn check_call<S: Balances, C: Balances>(
        &self,
        lines: &[Line],
        securities: &S,
        cash: &C,
        call: Call,
    ) -> Result<(), Fault>
        ensures { result ≡ answer (too_small (contents self.now.state.book) (length lines.now) (meaning S.Balances securities.now) (meaning C.Balances cash.now) call) }
    {
        check_room(&self.state.book, lines.len(), securities, cash).map_err(|part| Fault {
            cause: Cause::TooSmall(part),
            call,
        })
    }
}
