// Credits, which every session takes.
ghost use Rattle.std.specs.Prelude.{◌≡◌, List};
ghost use Rattle.register.specs.Registers.{meaning};
ghost use Rattle.register.specs.Rules.{answer, unless_refused, with_credit};
ghost use Rattle.rules.specs.declared.side.Side.TheVariants as side_of;
ghost use Rattle.pairing.specs.declared.line.Line.{Line};
ghost use Rattle.state.specs.declared.state.State.{State};
ghost use Rattle.state.specs.Seeing.{seen};
ghost use Rattle.state.specs.Following.{Follows};
ghost use Rattle.state.specs.Calls.{credit_call};
ghost use Rattle.intake.specs.Crediting.{credit_stops, credit_leaves, of_side};

use delivery::taking::HOUSE;
use register::balances::Balances;
use register::transfers::Transfers;
use rules::answer::Answer;
use rules::fault::Cause;
use rules::side::Side;

// A credit that is asked for: an amount of an asset, for an account of the side's register.
#[derive(Clone, Copy)]
struct AskedCredit {
    side: Side,
    account: u64,
    asset: u64,
    amount: u64,
}

impl AskedCredit {
    // Credits the account in this register, unless it is the house's.
    fn enter<R: Transfers>(self, register: &mut R) -> Result<(), Cause>
        ensures answers_by_the_rules { result ≡ answer (credit_stops self.side (meaning R.Balances register.old) self.account self.asset self.amount) }
        ensures meaning_follows_the_rules { meaning R.Balances register.new ≡ unless_refused (credit_stops self.side (meaning R.Balances register.old) self.account self.asset self.amount) (with_credit (meaning R.Balances register.old) self.account self.asset self.amount) (meaning R.Balances register.old) }
        ensures memory_is_kept { R.Balances.lender register.new ≡ R.Balances.lender register.old }
    {
        // There is no `From` that widens a `usize`.
        if self.account == HOUSE as u64 {
            return Err(Cause::HouseCredit);
        }
        // A `usize` has 64 bits here, so no name is cut off, where `TryFrom` would add a refusal that never comes.
        register
            .credit(self.account as usize, self.asset as usize, self.amount)
            .map_err(|fault| Cause::Register(self.side, fault))
    }

    // Credits the account in the register of its side.
    fn enter_on_its_side<S: Transfers, C: Transfers>(
        self,
        securities: &mut S,
        cash: &mut C,
    ) -> Result<(), Cause>
        ensures answers_by_the_rules { result ≡ answer (credit_stops self.side (of_side self.side (meaning S.Balances securities.old) (meaning C.Balances cash.old)) self.account self.asset self.amount) }
        ensures securities_follow_the_rules { meaning S.Balances securities.new ≡ credit_leaves self.side side_of.Securities (credit_stops self.side (of_side self.side (meaning S.Balances securities.old) (meaning C.Balances cash.old)) self.account self.asset self.amount) (meaning S.Balances securities.old) self.account self.asset self.amount }
        ensures cash_follows_the_rules { meaning C.Balances cash.new ≡ credit_leaves self.side side_of.Cash (credit_stops self.side (of_side self.side (meaning S.Balances securities.old) (meaning C.Balances cash.old)) self.account self.asset self.amount) (meaning C.Balances cash.old) self.account self.asset self.amount }
        ensures memory_is_kept { (S.Balances.lender securities.new ≡ S.Balances.lender securities.old) × (C.Balances.lender cash.new ≡ C.Balances.lender cash.old) }
    {
        match self.side {
            Side::Securities => self.enter(securities),
            Side::Cash => self.enter(cash),
        }
    }
}

fn credit_by_rules<S: Transfers, C: Transfers>(
    securities: &mut S,
    cash: &mut C,
    asked: AskedCredit,
) -> Result<Answer, Cause>
    ensures goes_on_by_the_rules { (state : State) (lines : List Line) → Follows (seen state lines (meaning S.Balances securities.old) (meaning C.Balances cash.old)) (credit_call asked.side asked.account asked.asset asked.amount) result (seen state lines (meaning S.Balances securities.new) (meaning C.Balances cash.new)) }
    ensures memory_is_kept { (S.Balances.lender securities.new ≡ S.Balances.lender securities.old) × (C.Balances.lender cash.new ≡ C.Balances.lender cash.old) }
{
    asked.enter_on_its_side(securities, cash)?;
    Ok(Answer::Done)
}

// Credits an account of a register with an amount of an asset, in any session. The house's account is not credited.
pub fn credit<S: Transfers, C: Transfers>(
    securities: &mut S,
    cash: &mut C,
    side: Side,
    account: u64,
    asset: u64,
    amount: u64,
) -> Result<Answer, Cause>
    ensures goes_on_by_the_rules { (state : State) (lines : List Line) → Follows (seen state lines (meaning S.Balances securities.old) (meaning C.Balances cash.old)) (credit_call side account asset amount) result (seen state lines (meaning S.Balances securities.new) (meaning C.Balances cash.new)) }
    ensures memory_is_kept { (S.Balances.lender securities.new ≡ S.Balances.lender securities.old) × (C.Balances.lender cash.new ≡ C.Balances.lender cash.old) }
{
    let asked = AskedCredit {
        side,
        account,
        asset,
        amount,
    };
    credit_by_rules(securities, cash, asked)
}
