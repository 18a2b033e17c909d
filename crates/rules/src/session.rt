// The sessions of an expiry.
ghost use Rattle.std.specs.Prelude.{◌≡◌};
ghost use Rattle.rules.specs.Numbers.{session_number};

// What a call does depends on the session and the call together. The first is session 1.
#[derive(Clone, Copy, PartialEq, Eq, Debug)]
pub enum Session {
    // Members, and clearing members, give notice for their sellers.
    MembersNotices,
    // Only clearing members do.
    ClearingNotices,
    Pairing,
    // All contracts and debits are brought in, to be settled at once.
    WholeDelivery,
    // What is brought in is settled line by line.
    PartialDelivery,
    Closed,
}

impl Session {
    // By a match and not by the places of the variants, so that a wrong number is refused by the contract.
    pub fn number(&self) -> u8
        ensures told_by_its_number { result ≡ session_number self.now }
    {
        match self {
            Session::MembersNotices => 1,
            Session::ClearingNotices => 2,
            Session::Pairing => 3,
            Session::WholeDelivery => 4,
            Session::PartialDelivery => 5,
            Session::Closed => 6,
        }
    }
}
