// The state of one expiry: its book, its session, and what the calls so far left to be known.
ghost use Rattle.std.specs.Prelude.{◌≡◌};
ghost use Rattle.state.specs.Leaving.{without_draws};

use book::book::Book;
pub use book::limits::MOST_HOLDERS;
use delivery::paying::AGENT_PLACES;
use pairs::lots::SellerLots;
use rules::session::Session;

// Each of the most holders that a book may have has a record, so that no call asks for memory. Lots and notified contracts
// stand in the record of a row, at the row less one. Draws held, nets and claims are those of each agent, by its number, and
// 0 where there is none: three tables, since each is whole what a function of `delivery` takes (draws) or answers (the others).
#[derive(Drop)]
pub struct State {
    pub book: Book,
    pub session: Session,
    pub lots: [SellerLots; MOST_HOLDERS],
    // The lines made, which stand in the first places of the caller's table.
    pub count: usize,
    pub draws: [u64; AGENT_PLACES],
    pub nets: [i64; AGENT_PLACES],
    pub claims: [i64; AGENT_PLACES],
}

impl State {
    // Goes on to a session with no draw held.
    pub fn drop_draws(&mut self, session: Session)
        ensures no_draw_held { self.new ≡ without_draws self.old session }
    {
        self.draws = [0; AGENT_PLACES];
        self.session = session;
    }
}
