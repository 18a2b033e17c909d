// The calls of an expiry.
use crate::side::Side;
use crate::speaker::Speaker;

// What an expiry may be asked to do, with all names as they were given. Names are wide, so that any number is a call,
// and is refused by the rules where it names nothing.
#[derive(Clone, Copy, PartialEq, Eq, Debug)]
pub enum Call {
    // So many contracts of a seller are to be delivered in an asset.
    Notice {
        speaker: Speaker,
        member: u64,
        number: u64,
        asset: u64,
        contracts: u64,
    },
    // The session ends.
    End,
    Pair,
    // An account of a register gets an amount of an asset from outside.
    Credit {
        side: Side,
        account: u64,
        asset: u64,
        amount: u64,
    },
    // A seller's units of an asset come in.
    Take {
        member: u64,
        number: u64,
        asset: u64,
    },
    // A payment agent's debit comes in.
    Draw {
        agent: u64,
    },
    // Everything is settled at once.
    SettleWhole,
    // What is in on one line is settled.
    SettleLine {
        line: u64,
    },
    Close,
}
