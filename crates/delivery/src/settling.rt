// One line settled by itself: its value through the house to the seller's agent, its units to the buyer.
ghost use Rattle.std.specs.Prelude.{◌≡◌, min};
ghost use Rattle.register.specs.Registers.{meaning};
ghost use Rattle.register.specs.Rules.{transfer_answer, after_transfer};
ghost use Rattle.book.specs.Data.{contents};
ghost use Rattle.delivery.specs.Widths.{most_64};
ghost use Rattle.rules.specs.declared.side.Side.TheVariants.{Cash};
ghost use Rattle.rules.specs.Tally.{cash_asset};
ghost use Rattle.delivery.specs.Sides.{on_side};
ghost use Rattle.delivery.specs.Settling.{worth as worth_of, line_cash, PaysFor, Settles, UnpaidStays};

use crate::fault::{SideFault, on};
use crate::party::{Party, inside};
use crate::paying::hand_on;
use crate::taking::{CASH, HOUSE};
use book::book::Book;
use pairing::line::Line;
use register::balances::Balances;
use register::transfers::Transfers;
use rules::side::Side;

// As much of an amount as 64 bits hold.
pub(crate) fn narrowed(amount: u128) -> u64
    ensures { result ≡ min amount most_64 }
{
    u64::try_from(amount).unwrap_or(u64::MAX)
}

// Moves an amount of cash of any width. No balance comes near the most that 64 bits hold, so that what is wider is as short
// as that.
fn shift<C: Transfers>(
    cash: &mut C,
    giver: usize,
    taker: usize,
    amount: u128,
) -> Result<(), SideFault>
    ensures answers_by_the_rules { result ≡ on_side Cash (transfer_answer (meaning C.Balances cash.old) giver taker cash_asset amount) }
    ensures meaning_follows_the_rules { meaning C.Balances cash.new ≡ after_transfer (meaning C.Balances cash.old) giver taker cash_asset amount }
    ensures memory_is_kept { C.Balances.lender cash.new ≡ C.Balances.lender cash.old }
{
    on(
        Side::Cash,
        cash.transfer(giver, taker, CASH, narrowed(amount)),
    )
}

// The value of a line's contracts in.
fn worth(book: &Book, line: &Line) -> u128
    ensures { result ≡ worth_of (contents book.now) line.now }
{
    book.value(usize::from(line.asset), inside(line))
}

// Moves the value of a line's contracts in from the buyer's agent to the house, and on to the seller's agent.
fn pay_for<C: Transfers>(book: &Book, line: &Line, cash: &mut C) -> Result<(), SideFault>
    ensures pays { PaysFor (line_cash (contents book.now) line.now) (meaning C.Balances cash.old) (meaning C.Balances cash.new) result }
    ensures memory_is_kept { C.Balances.lender cash.new ≡ C.Balances.lender cash.old }
{
    let amount = worth(book, line);
    shift(cash, Party::Buyer.agent(book, line), HOUSE, amount)?;
    shift(cash, HOUSE, Party::Seller.agent(book, line), amount)
}

// Settles the contracts in of one line: the value of them goes from the buyer's agent through the house to the seller's
// agent, their units to the buyer. Where the buyer's agent is short of it, nothing moves.
pub fn settle_line<S: Transfers, C: Transfers>(
    book: &Book,
    line: &mut Line,
    securities: &mut S,
    cash: &mut C,
) -> Result<(), SideFault>
    ensures settles_where_no_move_is_refused { Settles (contents book.now) line.old line.new (meaning S.Balances securities.old) (meaning S.Balances securities.new) (meaning C.Balances cash.old) (meaning C.Balances cash.new) result }
    ensures refused_moves_nothing { UnpaidStays (contents book.now) line.old line.new (meaning S.Balances securities.old) (meaning S.Balances securities.new) (meaning C.Balances cash.old) (meaning C.Balances cash.new) result }
    ensures memory_is_kept { (S.Balances.lender securities.new ≡ S.Balances.lender securities.old) × (C.Balances.lender cash.new ≡ C.Balances.lender cash.old) }
{
    pay_for(book, line, cash)?;
    hand_on(line, Party::Buyer, book.terms().multiplier, securities)
}
