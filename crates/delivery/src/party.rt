// The two parties of a line: their accounts, their agents, and what becomes of contracts whose units they get.
ghost use Rattle.std.specs.Prelude.{◌≡◌, ◌+◌, ◌≤◌};
ghost use Rattle.book.specs.Data.{contents};
ghost use Rattle.book.specs.Books.{holder};
ghost use Rattle.pairing.specs.Lines.{inside as inside_of};
ghost use Rattle.delivery.specs.Widths.{most_32};
ghost use Rattle.delivery.specs.Parties.{row_on, agent_on, handed};

use book::book::Book;
use pairing::line::Line;

// The two holders of a line. Units that a buyer gets are settled, units that a seller gets are returned.
#[derive(Clone, Copy, PartialEq, Eq, Debug)]
pub enum Party {
    Buyer,
    Seller,
}

// The contracts of a line that are in: taken, and neither settled nor returned.
pub fn inside(line: &Line) -> u32
    ensures taken_less_settled_and_returned { result ≡ inside_of line.now }
    ensures room_to_count_them { (line.now.settled + result ≤ most_32) × (line.now.returned + result ≤ most_32) }
{
    line.taken
        .saturating_sub(line.settled)
        .saturating_sub(line.returned)
}

// The payment agent of the holder in a row; 0 where there is nobody.
// No Option: the rules give nobody agent 0, so both uses, a number compared and an account, would make None 0 again.
fn agent_of(book: &Book, row: usize) -> usize
    ensures { result ≡ (holder (contents book.now) row).agent }
{
    // checked_sub, then get: one chain of the library's, which a method of the book would only hide.
    row.checked_sub(1)
        .and_then(|place| book.holders().get(place))
        .map_or(0, |holder| usize::from(holder.agent))
}

impl Party {
    // The account of a holder is its row.
    pub(crate) fn account(&self, line: &Line) -> usize
        ensures row_of_the_party { result ≡ row_on self.now line.now }
    {
        match self {
            Party::Buyer => usize::from(line.buyer),
            Party::Seller => usize::from(line.seller),
        }
    }

    // Counts the contracts in as settled or returned.
    pub(crate) fn count(&self, line: &mut Line)
        ensures { line.new ≡ handed self.now line.old }
    {
        let contracts = inside(line);
        match self {
            Party::Buyer => line.settled += contracts,
            Party::Seller => line.returned += contracts,
        }
    }

    // The payment agent of that holder; 0 where the book has nobody in its row.
    pub(crate) fn agent(&self, book: &Book, line: &Line) -> usize
        ensures agent_of_the_party { result ≡ agent_on self.now (contents book.now) line.now }
    {
        agent_of(book, self.account(line))
    }
}
