// The table register: each balance in its caller's memory, at place account × asset count + asset.
ghost use Rattle.std.specs.Prelude.{◌*◌, ◌≤◌, length};
ghost use Rattle.table_register.specs.Table.{Covered};

use crate::counts::Counts;

pub mod calls;
pub mod making;

#[derive(Drop)]
pub struct TableRegister<'a> {
    cells: &'a mut [u64],
    counts: Counts,
    ghost size: { counts.accounts * counts.assets ≤ length cells.now },
    ghost covered: { Covered cells.now counts.accounts counts.assets counts.issues },
}
