// What a caller has of its memory once the register that it was lent to is given up.
ghost use Rattle.std.specs.Prelude.{◌≡◌};
ghost use Rattle.register.specs.Rules.{answer};
ghost use Rattle.register.specs.Registers.{meaning};
ghost use Rattle.register.specs.Instructions.{after_all};
ghost use Rattle.table_register.specs.Make.{make_refused, memory_meaning};
ghost use Rattle.registers.specs.Lending.{HasBack};

use day_book::day::DayBook;
use register::balances::Balances;
use register::carrying::carry_out;
use register::fault::MakeFault;
use register::instruction::Instruction;
use register::transfers::Transfers;
use table_register::table::TableRegister;

fn carry_out_all<R: Transfers>(register: &mut R, instructions: &[Instruction])
    ensures meaning { meaning R.Balances register.new ≡ after_all (meaning R.Balances register.old) instructions.now }
    ensures lender { R.Balances.lender register.new ≡ R.Balances.lender register.old }
{
    for instruction in instructions {
        let _ = carry_out(register, *instruction);
    }
}

// Carries the instructions out in a table register over the memory, and has the memory back.
// This and the next are no generic function over the make: in a `R: Transfers` the check sees no reference to the
// memory, and would not know what the memory holds once the register is given up.
pub(crate) fn carry_out_in_table(
    cells: &mut [u64],
    accounts: usize,
    assets: usize,
    instructions: &[Instruction],
) -> Result<(), MakeFault>
    ensures answers_by_the_rules { result ≡ answer (make_refused cells.old accounts assets) }
    ensures memory_tells_the_balances { HasBack (make_refused cells.old accounts assets) (after_all (memory_meaning cells.old accounts assets) instructions.now) cells.old cells.new }
{
    let mut table = TableRegister::over(cells);
    table.lay_out(accounts, assets)?;
    carry_out_all(&mut table, instructions);
    Ok(())
}

// The same in a day book, which posts what waits before it is given up.
pub(crate) fn carry_out_in_day_book(
    cells: &mut [u64],
    accounts: usize,
    assets: usize,
    instructions: &[Instruction],
) -> Result<(), MakeFault>
    ensures answers_by_the_rules { result ≡ answer (make_refused cells.old accounts assets) }
    ensures memory_tells_the_balances { HasBack (make_refused cells.old accounts assets) (after_all (memory_meaning cells.old accounts assets) instructions.now) cells.old cells.new }
{
    let mut day = DayBook::over(cells);
    day.lay_out(accounts, assets)?;
    carry_out_all(&mut day, instructions);
    day.post();
    Ok(())
}
