// A line of the table.
use register::instruction::Instruction;

// A making has the counts of accounts and assets, then the balances in the memory.
#[derive(Drop)]
pub(crate) enum Call {
    Make(Vec<u64>),
    Carry(Instruction),
    Balance { account: usize, asset: usize },
    Issue { asset: usize },
}
