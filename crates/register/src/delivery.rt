// Delivery against payment: units in one register against money in another, both or neither.
ghost use Rattle.std.specs.Prelude.{◌≡◌, None};
ghost use Rattle.register.specs.Registers.{meaning};
ghost use Rattle.register.specs.Rules.{answer};
ghost use Rattle.register.specs.Deliveries.{delivery_refused, units_moved, money_moved, securities_after, cash_after, BothOrNeither};

use crate::balances::Balances;
use crate::checks::check_transfer;
use crate::fault::RegisterFault;
use crate::transfers::Transfers;

// Units of an asset from seller to buyer, against an amount of a currency from payer to payee.
#[derive(Clone, Copy, PartialEq, Eq, Debug)]
pub struct Delivery {
    pub seller: usize,
    pub buyer: usize,
    pub asset: usize,
    pub units: u64,
    pub payer: usize,
    pub payee: usize,
    pub currency: usize,
    pub amount: u64,
}

// The refusal of either half.
#[derive(Clone, Copy, PartialEq, Eq, Debug)]
pub enum DeliveryFault {
    Units(RegisterFault),
    Money(RegisterFault),
}

// What the two registers would answer to this delivery, told by their reading halves alone.
pub fn check_delivery<S: Balances, C: Balances>(
    securities: &S,
    cash: &C,
    delivery: Delivery,
) -> Result<(), DeliveryFault>
    ensures answers_by_the_rules { result ≡ answer (delivery_refused (meaning S.Balances securities.now) (meaning C.Balances cash.now) delivery) }
{
    check_transfer(
        securities,
        delivery.seller,
        delivery.buyer,
        delivery.asset,
        delivery.units,
    )
    .map_err(DeliveryFault::Units)?;
    check_transfer(
        cash,
        delivery.payer,
        delivery.payee,
        delivery.currency,
        delivery.amount,
    )
    .map_err(DeliveryFault::Money)
}

// Moves units and money, each known to be accepted.
fn exchange<S: Transfers, C: Transfers>(securities: &mut S, cash: &mut C, delivery: Delivery)
    requires accepted { delivery_refused (meaning S.Balances securities.old) (meaning C.Balances cash.old) delivery ≡ None }
    ensures units { meaning S.Balances securities.new ≡ units_moved (meaning S.Balances securities.old) delivery }
    ensures money { meaning C.Balances cash.new ≡ money_moved (meaning C.Balances cash.old) delivery }
    ensures lenders { (S.Balances.lender securities.new ≡ S.Balances.lender securities.old) × (C.Balances.lender cash.new ≡ C.Balances.lender cash.old) }
{
    let _ = securities.transfer(
        delivery.seller,
        delivery.buyer,
        delivery.asset,
        delivery.units,
    );
    let _ = cash.transfer(
        delivery.payer,
        delivery.payee,
        delivery.currency,
        delivery.amount,
    );
}

fn deliver<S: Transfers, C: Transfers>(
    securities: &mut S,
    cash: &mut C,
    delivery: Delivery,
) -> Result<(), DeliveryFault>
    ensures answers_by_the_rules { result ≡ answer (delivery_refused (meaning S.Balances securities.old) (meaning C.Balances cash.old) delivery) }
    ensures meaning_follows_the_rules { (meaning S.Balances securities.new ≡ securities_after (meaning S.Balances securities.old) (meaning C.Balances cash.old) delivery) × (meaning C.Balances cash.new ≡ cash_after (meaning S.Balances securities.old) (meaning C.Balances cash.old) delivery) }
    ensures both_or_neither { BothOrNeither delivery (meaning S.Balances securities.old) (meaning C.Balances cash.old) (meaning S.Balances securities.new) (meaning C.Balances cash.new) }
    ensures memory_is_kept { (S.Balances.lender securities.new ≡ S.Balances.lender securities.old) × (C.Balances.lender cash.new ≡ C.Balances.lender cash.old) }
{
    check_delivery(securities, cash, delivery)?;
    exchange(securities, cash, delivery);
    Ok(())
}

// Moves the units to the buyer and the money to the payee, or neither: both are checked before either is moved.
// A thin call, so that a wrong one is refused here, by this contract.
pub fn deliver_against_payment<S: Transfers, C: Transfers>(
    securities: &mut S,
    cash: &mut C,
    delivery: Delivery,
) -> Result<(), DeliveryFault>
    ensures answers_by_the_rules { result ≡ answer (delivery_refused (meaning S.Balances securities.old) (meaning C.Balances cash.old) delivery) }
    ensures meaning_follows_the_rules { (meaning S.Balances securities.new ≡ securities_after (meaning S.Balances securities.old) (meaning C.Balances cash.old) delivery) × (meaning C.Balances cash.new ≡ cash_after (meaning S.Balances securities.old) (meaning C.Balances cash.old) delivery) }
    ensures both_or_neither { BothOrNeither delivery (meaning S.Balances securities.old) (meaning C.Balances cash.old) (meaning S.Balances securities.new) (meaning C.Balances cash.new) }
    ensures memory_is_kept { (S.Balances.lender securities.new ≡ S.Balances.lender securities.old) × (C.Balances.lender cash.new ≡ C.Balances.lender cash.old) }
{
    deliver(securities, cash, delivery)
}
