// The checks of a credit and of a move, in their order, made of any register by its reading half alone.
ghost use Rattle.std.specs.Prelude.{◌≡◌};
ghost use Rattle.register.specs.Rules.{credit_answer, transfer_answer};
ghost use Rattle.register.specs.Registers.{meaning};

use crate::balances::Balances;
use crate::fault::RegisterFault;
use crate::limits::MOST_ISSUED;

// What a register would answer to this credit.
pub fn check_credit<R: Balances>(
    register: &R,
    account: usize,
    asset: usize,
    amount: u64,
) -> Result<(), RegisterFault>
    ensures answers_by_the_rules { result ≡ credit_answer (meaning R.Balances register.now) account asset amount }
{
    if account >= register.account_count() {
        return Err(RegisterFault::UnknownAccount);
    }
    if asset >= register.asset_count() {
        return Err(RegisterFault::UnknownAsset);
    }
    if amount == 0 {
        return Err(RegisterFault::ZeroAmount);
    }
    if amount > MOST_ISSUED - register.issue_of(asset) {
        return Err(RegisterFault::OverIssue);
    }
    Ok(())
}

// What a register would answer to this move.
pub fn check_transfer<R: Balances>(
    register: &R,
    giver: usize,
    taker: usize,
    asset: usize,
    amount: u64,
) -> Result<(), RegisterFault>
    ensures answers_by_the_rules { result ≡ transfer_answer (meaning R.Balances register.now) giver taker asset amount }
{
    let accounts = register.account_count();
    if giver >= accounts || taker >= accounts {
        return Err(RegisterFault::UnknownAccount);
    }
    if asset >= register.asset_count() {
        return Err(RegisterFault::UnknownAsset);
    }
    if giver == taker {
        return Err(RegisterFault::SameAccount);
    }
    if amount == 0 {
        return Err(RegisterFault::ZeroAmount);
    }
    if amount > register.balance_of(giver, asset) {
        return Err(RegisterFault::Short);
    }
    Ok(())
}
