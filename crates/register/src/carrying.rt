// Carrying out instructions in registers of any make.
ghost use Rattle.std.specs.Prelude.{◌≡◌, true};
ghost use Rattle.register.specs.Registers.{meaning};
ghost use Rattle.register.specs.Instructions.{instruction_answer, after_instruction, after_all, all_alike};

use crate::balances::Balances;
use crate::fault::RegisterFault;
use crate::instruction::Instruction;
use crate::transfers::Transfers;

// Carries out one instruction.
pub fn carry_out<R: Transfers>(
    register: &mut R,
    instruction: Instruction,
) -> Result<(), RegisterFault>
    ensures answers_by_the_rules { result ≡ instruction_answer (meaning R.Balances register.old) instruction }
    ensures meaning_follows_the_rules { meaning R.Balances register.new ≡ after_instruction (meaning R.Balances register.old) instruction }
    ensures memory_is_kept { R.Balances.lender register.new ≡ R.Balances.lender register.old }
{
    match instruction {
        Instruction::Credit {
            account,
            asset,
            amount,
        } => register.credit(account, asset, amount),
        Instruction::Move {
            giver,
            taker,
            asset,
            amount,
        } => register.transfer(giver, taker, asset, amount),
    }
}

fn carry_out_each<A: Transfers, B: Transfers>(
    first: &mut A,
    second: &mut B,
    instructions: &[Instruction],
) -> bool
    ensures answers_by_the_rules { result ≡ all_alike (meaning A.Balances first.old) (meaning B.Balances second.old) instructions.now }
    ensures meaning_follows_the_rules { (meaning A.Balances first.new ≡ after_all (meaning A.Balances first.old) instructions.now) × (meaning B.Balances second.new ≡ after_all (meaning B.Balances second.old) instructions.now) }
    ensures one_meaning_one_answer { meaning A.Balances first.old ≡ meaning B.Balances second.old → (result ≡ true) × (meaning A.Balances first.new ≡ meaning B.Balances second.new) }
    ensures memory_is_kept { (A.Balances.lender first.new ≡ A.Balances.lender first.old) × (B.Balances.lender second.new ≡ B.Balances.lender second.old) }
{
    let mut same = true;
    for instruction in instructions {
        let a = carry_out(first, *instruction);
        let b = carry_out(second, *instruction);
        same &= a == b;
    }
    same
}

// Carries each instruction out in both registers, and tells whether they answered alike throughout.
// Registers that start with one meaning do, whatever their makes, and end with one meaning.
// A thin call, so that a wrong one is refused here, by this contract.
pub fn answer_alike<A: Transfers, B: Transfers>(
    first: &mut A,
    second: &mut B,
    instructions: &[Instruction],
) -> bool
    ensures answers_by_the_rules { result ≡ all_alike (meaning A.Balances first.old) (meaning B.Balances second.old) instructions.now }
    ensures meaning_follows_the_rules { (meaning A.Balances first.new ≡ after_all (meaning A.Balances first.old) instructions.now) × (meaning B.Balances second.new ≡ after_all (meaning B.Balances second.old) instructions.now) }
    ensures one_meaning_one_answer { meaning A.Balances first.old ≡ meaning B.Balances second.old → (result ≡ true) × (meaning A.Balances first.new ≡ meaning B.Balances second.new) }
    ensures memory_is_kept { (A.Balances.lender first.new ≡ A.Balances.lender first.old) × (B.Balances.lender second.new ≡ B.Balances.lender second.old) }
{
    carry_out_each(first, second, instructions)
}
