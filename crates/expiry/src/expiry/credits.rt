// A credit by its own name.
ghost use Rattle.std.specs.Prelude.{◌≡◌};
ghost use Rattle.book.specs.Data.{contents};
ghost use Rattle.register.specs.Registers.{meaning};
ghost use Rattle.rules.specs.Histories.{GoesOn, SmallRefused};
ghost use Rattle.state.specs.Seeing.{seen};
ghost use Rattle.state.specs.Calls.{credit_call};

use crate::expiry::Expiry;
use pairing::line::Line;
use register::balances::Balances;
use register::transfers::Transfers;
use rules::answer::Answer;
use rules::call::Call;
use rules::fault::Fault;
use rules::side::Side;

impl Expiry {
    // Credits an account of a register with an amount of an asset. The house's account is not credited.
    pub fn credit<S: Transfers, C: Transfers>(
        &mut self,
        lines: &mut [Line],
        securities: &mut S,
        cash: &mut C,
        side: Side,
        account: u64,
        asset: u64,
        amount: u64,
    ) -> Result<Answer, Fault>
        ensures goes_on_by_the_rules { GoesOn (seen self.old.state lines.old (meaning S.Balances securities.old) (meaning C.Balances cash.old)) (credit_call side account asset amount) result (seen self.new.state lines.new (meaning S.Balances securities.new) (meaning C.Balances cash.new)) }
        ensures too_small_is_refused_first { SmallRefused (contents self.old.state.book) (seen self.old.state lines.old (meaning S.Balances securities.old) (meaning C.Balances cash.old)) (credit_call side account asset amount) result (seen self.new.state lines.new (meaning S.Balances securities.new) (meaning C.Balances cash.new)) }
        ensures memory_is_kept { (S.Balances.lender securities.new ≡ S.Balances.lender securities.old) × (C.Balances.lender cash.new ≡ C.Balances.lender cash.old) }
    {
        let call = Call::Credit {
            side,
            account,
            asset,
            amount,
        };
        self.apply(lines, securities, cash, call)
    }
}
