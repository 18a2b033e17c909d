// One expiry, which only its own calls change.
// Both constants are kept reachable here for callers.
pub use delivery::paying::AGENT_PLACES;
pub use state::state::MOST_HOLDERS;
use state::state::State;

pub mod calls;
pub mod credits;
pub mod noticing;
pub mod opening;
pub mod questions;
pub mod room;
pub mod runs;

// Calls are lent the caller's lines and two registers one by one: a struct of them would have to borrow all three anew for
// each call.
#[derive(Drop)]
pub struct Expiry {
    state: State,
}
