// Opening an expiry.
ghost use Rattle.std.specs.Prelude.{◌≡◌};
ghost use Rattle.book.specs.Data.{contents};
ghost use Rattle.register.specs.Registers.{meaning};
ghost use Rattle.register.specs.Rules.{answer};
ghost use Rattle.rules.specs.Verdict.{house_empty, opening_refused};
ghost use Rattle.rules.specs.Histories.{OpensOrRefuses};
ghost use Rattle.state.specs.Seeing.{seen, opening};
ghost use Rattle.expiry.specs.Opened.{New};

use crate::expiry::Expiry;
use crate::expiry::room::check_room;
use book::book::Book;
use delivery::paying::AGENT_PLACES;
use delivery::taking::HOUSE;
use pairing::line::Line;
use pairs::lots::SellerLots;
use register::balances::Balances;
use rules::fault::OpeningFault;
use rules::session::Session;
use rules::side::Side;
use state::state::{MOST_HOLDERS, State};

// In the cash register cash is the only asset of the house.
const CASH_ASSETS: usize = 1;

// Whether the house holds none of the first assets, so many of them.
fn house_is_empty<R: Balances>(register: &R, assets: usize) -> bool
    ensures { result ≡ house_empty (meaning R.Balances register.now) assets }
{
    (0..assets).all(|asset| register.balance_of(HOUSE, asset) == 0)
}

// Refuses to open an expiry as the rules do: the empty book first, then too little room, then a house that holds something.
fn check_opening<S: Balances, C: Balances>(
    book: &Book,
    lines: &[Line],
    securities: &S,
    cash: &C,
) -> Result<(), OpeningFault>
    ensures { result ≡ answer (opening_refused (opening (contents book.now) lines.now (meaning S.Balances securities.now) (meaning C.Balances cash.now))) }
{
    if book.holders().is_empty() {
        return Err(OpeningFault::EmptyBook);
    }
    check_room(book, lines.len(), securities, cash).map_err(OpeningFault::TooSmall)?;
    if !house_is_empty(securities, book.assets().len()) {
        return Err(OpeningFault::HouseHolds(Side::Securities));
    }
    if !house_is_empty(cash, CASH_ASSETS) {
        return Err(OpeningFault::HouseHolds(Side::Cash));
    }
    Ok(())
}

impl Expiry {
    // In the members' notices, with nothing notified, paired, drawn or closed.
    fn new(book: Book) -> Expiry
        ensures { New (contents book) result.state }
    {
        let state = State {
            book,
            session: Session::MembersNotices,
            lots: [SellerLots::NONE; MOST_HOLDERS],
            count: 0,
            draws: [0; AGENT_PLACES],
            nets: [0; AGENT_PLACES],
            claims: [0; AGENT_PLACES],
        };
        Expiry { state }
    }

    fn open_checked<S: Balances, C: Balances>(
        book: Book,
        lines: &[Line],
        securities: &S,
        cash: &C,
    ) -> Result<Expiry, OpeningFault>
        ensures opens_or_refuses { OpensOrRefuses (opening (contents book) lines.now (meaning S.Balances securities.now) (meaning C.Balances cash.now)) (λ e. seen e.state lines.now (meaning S.Balances securities.now) (meaning C.Balances cash.now)) result }
    {
        check_opening(&book, lines, securities, cash)?;
        Ok(Expiry::new(book))
    }

    // Opens an expiry of the book in the members' notices, with the caller's table of lines and two registers of any make,
    // of which it only reads; or refuses, the empty book first, then too little room, then a house that holds something.
    // A thin call, so that a wrong one is refused here, by this contract.
    pub fn open<S: Balances, C: Balances>(
        book: Book,
        lines: &[Line],
        securities: &S,
        cash: &C,
    ) -> Result<Expiry, OpeningFault>
        ensures opens_or_refuses { OpensOrRefuses (opening (contents book) lines.now (meaning S.Balances securities.now) (meaning C.Balances cash.now)) (λ e. seen e.state lines.now (meaning S.Balances securities.now) (meaning C.Balances cash.now)) result }
    {
        Expiry::open_checked(book, lines, securities, cash)
    }
}
