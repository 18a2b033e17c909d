// The counts of a table and the issues of its assets: what a register in memory has beside the memory.
ghost use Rattle.std.specs.Prelude.{◌≤◌};
ghost use Rattle.table_register.specs.Make.{most_accounts, most_assets};
ghost use Rattle.table_register.specs.Table.{Bounded};

use register::limits::MOST_ASSETS;

pub mod laying;
pub mod reading;

#[derive(Clone, Copy)]
pub struct Counts {
    pub accounts: usize,
    pub assets: usize,
    // No `ArrayVec`, which is not `Copy` and whose clone is a `Result`: past the last asset is 0, told to nobody.
    pub issues: [u64; MOST_ASSETS],
    ghost few_accounts: { accounts ≤ most_accounts },
    ghost few_assets: { assets ≤ most_assets },
    ghost bounded: { Bounded assets issues },
}
