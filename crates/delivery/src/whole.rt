// All lines settled at once: their units to the buyers, and each net above 0 to its agent.
ghost use Rattle.std.specs.Prelude.{◌≡◌};
ghost use Rattle.register.specs.Registers.{meaning};
ghost use Rattle.book.specs.Data.{contents};
ghost use Rattle.delivery.specs.Parties.{to_buyer};
ghost use Rattle.delivery.specs.Handing.{HandsOut};
ghost use Rattle.delivery.specs.Whole.{SettlesWhole};

use crate::fault::SideFault;
use crate::party::Party;
use crate::paying::{hand_out, pay_agents};
use crate::sums::credits;
use book::book::Book;
use pairing::line::Line;
use register::balances::Balances;
use register::transfers::Transfers;

// Delivers the units of all contracts in by the book's multiplier. It stands by itself, so that a wrong factor is refused
// here, by its contract.
fn settle_by<S: Transfers>(
    book: &Book,
    lines: &mut [Line],
    securities: &mut S,
) -> Result<(), SideFault>
    ensures settles_where_no_move_is_refused { HandsOut to_buyer (contents book.now).terms.multiplier lines.old lines.new (meaning S.Balances securities.old) (meaning S.Balances securities.new) result }
    ensures memory_is_kept { S.Balances.lender securities.new ≡ S.Balances.lender securities.old }
{
    hand_out(lines, Party::Buyer, book.terms().multiplier, securities)
}

// Settles all lines at once, out of the units and the draws that the house holds.
pub fn settle_whole<S: Transfers, C: Transfers>(
    book: &Book,
    lines: &mut [Line],
    securities: &mut S,
    cash: &mut C,
) -> Result<(), SideFault>
    ensures settles_where_no_move_is_refused { SettlesWhole (contents book.now) lines.old lines.new (meaning S.Balances securities.old) (meaning S.Balances securities.new) (meaning C.Balances cash.old) (meaning C.Balances cash.new) result }
    ensures memory_is_kept { (S.Balances.lender securities.new ≡ S.Balances.lender securities.old) × (C.Balances.lender cash.new ≡ C.Balances.lender cash.old) }
{
    let amounts = credits(book, lines);
    settle_by(book, lines, securities)?;
    pay_agents(cash, &amounts)
}
