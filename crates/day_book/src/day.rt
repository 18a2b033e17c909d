// The day book, with what holds of every one.
ghost use Rattle.std.specs.Prelude.{◌≡◌, ℕ, ◌*◌, ◌<◌, ◌≤◌, true, length, slice_index};
ghost use Rattle.register.specs.Instructions.{after_all};
ghost use Rattle.table_register.specs.Table.{Covered, table_meaning};
ghost use Rattle.day_book.specs.Entering.{each_accepted};
ghost use Rattle.day_book.specs.DayTable.{waits};

use crate::entries::MOST_ENTRIES;
use arrayvec::ArrayVec;
use register::instruction::Instruction;
use register::limits::MOST_ASSETS;
use table_register::counts::Counts;

pub mod calls;
pub mod making;
pub mod posting;

// The memory and the counts of a table register of the posted balances, the entries that wait, the oldest first, and
// the issues as the day book tells them: the posted ones, in `counts`, with the credits that wait.
// They are no `posted: TableRegister<'a>`: of a `&mut` in a struct within a struct the check tells the lender nothing
// once the day book is given up (tried so, the day book itself was proved, and no longer that `carry_out_in_day_book`
// of `registers` has its balances back in the memory).
#[derive(Drop)]
pub struct DayBook<'a> {
    cells: &'a mut [u64],
    counts: Counts,
    issues: [u64; MOST_ASSETS],
    entries: ArrayVec<Instruction, MOST_ENTRIES>,
    ghost size: { counts.accounts * counts.assets ≤ length cells.now },
    ghost covered: { Covered cells.now counts.accounts counts.assets counts.issues },
    ghost accepted: { each_accepted (table_meaning cells.now counts.accounts counts.assets counts.issues) (waits entries) ≡ true },
    ghost told: { (s : ℕ) → s < counts.assets → slice_index issues s ≡ (after_all (table_meaning cells.now counts.accounts counts.assets counts.issues) (waits entries)).issue s },
}
