// How a day book is made: over memory, and then laid out in it.
ghost use Rattle.std.specs.Prelude.{◌≡◌, [], IfOk};
ghost use Rattle.register.specs.Rules.{answer, unless_refused};
ghost use Rattle.table_register.specs.Make.{lay_out_refused, refusal, memory_meaning, nothing};
ghost use Rattle.table_register.specs.Laid.{LaidOut};
ghost use Rattle.day_book.specs.DayTable.{waits};
ghost use Rattle.day_book.specs.DayMeaning.{means};

use crate::day::DayBook;
use arrayvec::ArrayVec;
use register::fault::MakeFault;
use register::limits::MOST_ASSETS;
use table_register::counts::Counts;

impl<'a> DayBook<'a> {
    // A day book of no account and no asset over `cells`, to be laid out.
    pub fn over(cells: &'a mut [u64]) -> DayBook<'a>
        ensures means_nothing { means result ≡ nothing }
        ensures nothing_waits { waits result.entries ≡ [] }
        ensures memory_is_as_it_was { result.cells.now ≡ cells.old }
        ensures memory_is_kept { result.cells.ghost_name ≡ cells.entry.ghost_name }
    {
        DayBook {
            cells,
            counts: Counts::none(),
            issues: [0; MOST_ASSETS],
            entries: ArrayVec::new(),
        }
    }
}

impl DayBook<'_> {
    // Behind `&self`: of a field passed on as `&[u64]` behind `&mut self` the check would know its length alone.
    fn counted(&self, accounts: usize, assets: usize) -> Result<Counts, MakeFault>
        ensures fault { refusal result ≡ lay_out_refused self.now.counts.accounts self.now.cells.now accounts assets }
        ensures laid_out { IfOk result (λ k. (self.now.counts.accounts ≡ 0) × LaidOut self.now.cells.now accounts assets k) }
    {
        self.counts.laid_out(self.cells, accounts, assets)
    }

    // Takes the counts of memory laid out for the first time, when nothing waits yet.
    fn take(&mut self, accounts: usize, assets: usize, counts: Counts)
        requires empty { self.old.counts.accounts ≡ 0 }
        requires laid_out { LaidOut self.old.cells.now accounts assets counts }
        ensures meaning { means self.new ≡ memory_meaning self.old.cells.now accounts assets }
        ensures entries { waits self.new.entries ≡ waits self.old.entries }
        ensures memory { self.new.cells.now ≡ self.old.cells.now }
        ensures lender { self.new.cells.ghost_name ≡ self.old.cells.ghost_name }
    {
        let issues = counts.issues;
        self.counts = counts;
        self.issues = issues;
    }

    // Lays the memory out as a table of these counts: its balances are those that stand there.
    pub fn lay_out(&mut self, accounts: usize, assets: usize) -> Result<(), MakeFault>
        ensures answers_by_the_rules { result ≡ answer (lay_out_refused self.old.counts.accounts self.old.cells.now accounts assets) }
        ensures meaning_follows_the_rules { means self.new ≡ unless_refused (lay_out_refused self.old.counts.accounts self.old.cells.now accounts assets) (memory_meaning self.old.cells.now accounts assets) (means self.old) }
        ensures entries_stay { waits self.new.entries ≡ waits self.old.entries }
        ensures memory_is_as_it_was { self.new.cells.now ≡ self.old.cells.now }
        ensures memory_is_kept { self.new.cells.ghost_name ≡ self.old.cells.ghost_name }
    {
        let counts = self.counted(accounts, assets)?;
        self.take(accounts, assets, counts);
        Ok(())
    }
}
