// The balances, instructions and deliveries that the program runs.
use register::delivery::Delivery;
use register::instruction::Instruction;
use register::limits::MOST_ISSUED;

pub(crate) const ACCOUNTS: usize = 3;

pub(crate) const ASSETS: usize = 2;

// Account by account: the balance of asset 0, then of asset 1.
pub(crate) const OPENING: [u64; 6] = [100, 0, 20, 7, 0, 0];

// How often one unit then goes to and fro: more entries than a day book keeps waiting.
pub(crate) const ROUNDS: usize = 40;

fn credit(account: usize, asset: usize, amount: u64) -> Instruction {
    Instruction::Credit {
        account,
        asset,
        amount,
    }
}

fn transfer(giver: usize, taker: usize, asset: usize, amount: u64) -> Instruction {
    Instruction::Move {
        giver,
        taker,
        asset,
        amount,
    }
}

// Every refusal of a credit and of a move, and accepted ones between them.
pub(crate) fn refusals() -> [Instruction; 15] {
    [
        credit(2, 1, 50),
        credit(3, 2, 0),
        credit(2, 2, 0),
        credit(2, 1, 0),
        credit(2, 1, MOST_ISSUED - 56),
        credit(0, 1, MOST_ISSUED - 57),
        transfer(3, 3, 2, 0),
        transfer(0, 3, 0, 1),
        transfer(0, 0, 2, 0),
        transfer(0, 0, 0, 0),
        transfer(0, 1, 0, 0),
        transfer(0, 1, 0, 101),
        transfer(0, 1, 0, 100),
        transfer(1, 2, 0, 120),
        transfer(2, 0, 1, 51),
    ]
}

// A unit to account 0 and back.
pub(crate) fn to_and_fro() -> [Instruction; 2] {
    [transfer(2, 0, 0, 1), transfer(0, 2, 0, 1)]
}

// From the opening balances on both sides: account 0 sells asset 0, account 1 pays in currency 1.
fn sale(units: u64, amount: u64) -> Delivery {
    Delivery {
        seller: 0,
        buyer: 2,
        asset: 0,
        units,
        payer: 1,
        payee: 0,
        currency: 1,
        amount,
    }
}

// An accepted delivery, one short of units and of money, one short of money alone, and one that leaves nothing.
pub(crate) fn deliveries() -> [Delivery; 4] {
    [sale(60, 5), sale(41, 3), sale(40, 3), sale(40, 2)]
}
