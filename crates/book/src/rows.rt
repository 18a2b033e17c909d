// The rows of a book, one for each holder: their order, how one agrees with another, and what they add up to.
ghost use Rattle.std.specs.Prelude.{◌≡◌, ◌≤◌, length};
ghost use Rattle.book.specs.Limits.{most_holders};
ghost use Rattle.book.specs.Books.{stands_before, bought_by, sold_by};
ghost use Rattle.book.specs.Lawful.{agree, ascends as ascends_of, agrees as agrees_of, complete_rows};

use crate::records::Holder;

// The most contracts bought in a book.
const MOST_BOUGHT: u64 = 1_000_000;

impl Holder {
    // What rows are ordered by: the member, then the number.
    pub(crate) fn key(&self) -> (u64, u64)
        ensures value { result ≡ (self.now.member, self.now.number) }
    {
        (u64::from(self.member), u64::from(self.number))
    }

    // Whether this row stands before `h`.
    fn stands_before(&self, h: &Holder) -> bool
        ensures value { result ≡ stands_before self.now h.now }
    {
        self.key() < h.key()
    }

    // Whether both rows have one clearing member for one member, and one payment agent for one clearing member.
    fn agrees_with(&self, h: &Holder) -> bool
        ensures value { result ≡ agree self.now h.now }
    {
        (self.member != h.member || self.clearing == h.clearing)
            && (self.clearing != h.clearing || self.agent == h.agent)
    }
}

// Whether the row ascends after all of these.
pub(crate) fn ascends(rows: &[Holder], h: &Holder) -> bool
    ensures value { result ≡ ascends_of rows.now h.now }
{
    rows.iter().all(|g| g.stands_before(h))
}

// Whether the row agrees with each of these.
pub(crate) fn agrees(rows: &[Holder], h: &Holder) -> bool
    ensures value { result ≡ agrees_of rows.now h.now }
{
    rows.iter().all(|g| g.agrees_with(h))
}

// The rows of one book, which are no more than a book may have.
#[derive(Clone, Copy)]
pub(crate) struct Rows<'a> {
    pub(crate) holders: &'a [Holder],
    ghost few: { length holders.now ≤ most_holders },
}

// Bought and sold differ in one method; a closure for it would need a contract longer than the chain.
impl Rows<'_> {
    // Contracts bought.
    pub(crate) fn bought(&self) -> u64
        ensures value { result ≡ bought_by self.now.holders.now }
    {
        self.holders
            .iter()
            .filter(|h| h.buys())
            .map(|h| u64::from(h.volume()))
            .sum()
    }

    // Contracts sold.
    fn sold(&self) -> u64
        ensures value { result ≡ sold_by self.now.holders.now }
    {
        self.holders
            .iter()
            .filter(|h| h.sells())
            .map(|h| u64::from(h.volume()))
            .sum()
    }

    // Whether there are holders, as much is bought as sold, and not too much.
    pub(crate) fn is_complete(&self) -> bool
        ensures value { result ≡ complete_rows self.now.holders.now }
    {
        let bought = self.bought();
        !self.holders.is_empty() && bought == self.sold() && bought <= MOST_BOUGHT
    }
}
