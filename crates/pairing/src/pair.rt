// Holders while they are paired, and the pairs made of them.
ghost use Rattle.std.specs.Prelude.{◌≡◌};
ghost use Rattle.pairing.specs.Pairing.{unpaired};

use crate::stage::Stage;
use book::records::Holder;

// A holder with the contracts that are not paired yet.
#[derive(Clone, Copy, Default, PartialEq, Eq, Debug)]
pub struct Unpaired {
    pub member: u16,
    pub number: u32,
    pub clearing: u16,
    pub agent: u8,
    // A flag, as the rule's definition has it: its two sides are `buys` and `not buys` of the same words.
    pub buys: bool,
    pub volume: u32,
}

// A holder of a book, with all of its contracts unpaired.
impl From<Holder> for Unpaired {
    ghost from_gives = { λ h u. u ≡ unpaired h };

    fn from(h: Holder) -> Unpaired {
        Unpaired {
            member: h.member,
            number: h.number,
            clearing: h.clearing,
            agent: h.agent,
            buys: h.buys(),
            volume: h.volume(),
        }
    }
}

// Contracts of a buyer against those of a seller, both by their place among the holders, from 0.
#[derive(Clone, Copy, Default, PartialEq, Eq, Debug)]
pub struct Pair {
    pub stage: Stage,
    pub buyer: usize,
    pub seller: usize,
    pub contracts: u32,
}
