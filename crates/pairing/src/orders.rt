// The orders of holders and of deliverables, for the search of the first by an order.
ghost use Rattle.std.specs.Prelude.{true};
ghost use Rattle.pairing.specs.Orders.{holder_leq, HolderAlike, holder_open, deliverable_leq, DeliverableAlike};
ghost use Rattle.std.proofs.Common.{rules};

use crate::deliverable::Deliverable;
use crate::pair::Unpaired;
use order::Ranked;
use std::cmp::Reverse;

// Larger unpaired volume first, then lower member, then lower number; open while volume is left.
impl Ranked for Unpaired {
    ghost leq = { holder_leq };

    ghost alike = { HolderAlike };

    ghost is_open = { holder_open };

    ghost compares = { Prim.search rules };

    ghost ties = { Prim.search rules };

    ghost carries = { Prim.search rules };

    fn stands_before(&self, other: &Unpaired) -> bool {
        (Reverse(self.volume), self.member, self.number)
            <= (Reverse(other.volume), other.member, other.number)
    }

    fn is_open(&self) -> bool {
        self.volume > 0
    }
}

// Lower market price less invoice price first, compared crosswise to stay above 0, then lower asset number; always open.
impl Ranked for Deliverable {
    ghost leq = { deliverable_leq };

    ghost alike = { DeliverableAlike };

    ghost is_open = { λ _. true };

    ghost compares = { Prim.search rules };

    ghost ties = { Prim.search rules };

    ghost carries = { Prim.search rules };

    fn stands_before(&self, other: &Deliverable) -> bool {
        let here = u128::from(self.market) + u128::from(other.invoice);
        let there = u128::from(other.market) + u128::from(self.invoice);
        (here, self.asset) <= (there, other.asset)
    }

    fn is_open(&self) -> bool {
        true
    }
}
