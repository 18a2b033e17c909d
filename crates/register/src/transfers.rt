// The moving half of a register: credits and moves.
ghost use Rattle.std.specs.Prelude.{◌≡◌};
ghost use Rattle.register.specs.Rules.{credit_answer, transfer_answer, after_credit, after_transfer};
ghost use Rattle.register.specs.Registers.{meaning};

use crate::balances::Balances;
use crate::fault::RegisterFault;

pub trait Transfers: Balances {
    // Credits an account with an amount of an asset.
    fn credit(&mut self, account: usize, asset: usize, amount: u64) -> Result<(), RegisterFault>
        ensures answers_by_the_rules { result ≡ credit_answer (meaning Self.Balances self.old) account asset amount }
        ensures meaning_follows_the_rules { meaning Self.Balances self.new ≡ after_credit (meaning Self.Balances self.old) account asset amount }
        ensures memory_is_kept { Self.Balances.lender self.new ≡ Self.Balances.lender self.old };

    // Moves an amount of an asset from the giver to the taker.
    fn transfer(
        &mut self,
        giver: usize,
        taker: usize,
        asset: usize,
        amount: u64,
    ) -> Result<(), RegisterFault>
        ensures answers_by_the_rules { result ≡ transfer_answer (meaning Self.Balances self.old) giver taker asset amount }
        ensures meaning_follows_the_rules { meaning Self.Balances self.new ≡ after_transfer (meaning Self.Balances self.old) giver taker asset amount }
        ensures memory_is_kept { Self.Balances.lender self.new ≡ Self.Balances.lender self.old };
}
