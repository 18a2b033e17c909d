// How a table register is made: over memory, and then laid out in it.
ghost use Rattle.std.specs.Prelude.{◌≡◌, IfOk};
ghost use Rattle.register.specs.Rules.{answer, unless_refused};
ghost use Rattle.table_register.specs.Make.{lay_out_refused, refusal, memory_meaning, nothing};
ghost use Rattle.table_register.specs.Laid.{LaidOut};
ghost use Rattle.table_register.specs.TableMeaning.{means};

use crate::counts::Counts;
use crate::table::TableRegister;
use register::fault::MakeFault;

impl<'a> TableRegister<'a> {
    // A register of no account and no asset over `cells`, to be laid out.
    pub fn over(cells: &'a mut [u64]) -> TableRegister<'a>
        ensures means_nothing { means result ≡ nothing }
        ensures memory_is_as_it_was { result.cells.now ≡ cells.old }
        ensures memory_is_kept { result.cells.ghost_name ≡ cells.entry.ghost_name }
    {
        TableRegister {
            cells,
            counts: Counts::none(),
        }
    }
}

impl TableRegister<'_> {
    // Behind `&self`: of a field passed on as `&[u64]` behind `&mut self` the check would know its length alone.
    fn counted(&self, accounts: usize, assets: usize) -> Result<Counts, MakeFault>
        ensures fault { refusal result ≡ lay_out_refused self.now.counts.accounts self.now.cells.now accounts assets }
        ensures laid_out { IfOk result (LaidOut self.now.cells.now accounts assets) }
    {
        self.counts.laid_out(self.cells, accounts, assets)
    }

    // Lays the memory out as a table of these counts: its balances are those that stand there.
    pub fn lay_out(&mut self, accounts: usize, assets: usize) -> Result<(), MakeFault>
        ensures answers_by_the_rules { result ≡ answer (lay_out_refused self.old.counts.accounts self.old.cells.now accounts assets) }
        ensures meaning_follows_the_rules { means self.new ≡ unless_refused (lay_out_refused self.old.counts.accounts self.old.cells.now accounts assets) (memory_meaning self.old.cells.now accounts assets) (means self.old) }
        ensures memory_is_as_it_was { self.new.cells.now ≡ self.old.cells.now }
        ensures memory_is_kept { self.new.cells.ghost_name ≡ self.old.cells.ghost_name }
    {
        let counts = self.counted(accounts, assets)?;
        self.counts = counts;
        Ok(())
    }
}
