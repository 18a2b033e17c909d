// Memory laid out as a table.
ghost use Rattle.std.specs.Prelude.{◌≡◌, ℕ, ◌<◌, IfOk, None, slice_index};
ghost use Rattle.table_register.specs.Make.{column, make_refused, lay_out_refused, refusal};
ghost use Rattle.table_register.specs.Laid.{LaidOut};

use crate::counts::Counts;
use crate::issues::issues_of;
use register::fault::MakeFault;
use register::limits::MOST_ASSETS;

impl Counts {
    // These counts, of memory that is accepted.
    fn of(cells: &[u64], accounts: usize, assets: usize, issues: [u64; MOST_ASSETS]) -> Counts
        requires accepted { make_refused cells.now accounts assets ≡ None }
        requires counted { (s : ℕ) → s < assets → slice_index issues s ≡ column cells.now accounts assets s }
        ensures { LaidOut cells.now accounts assets result }
    {
        Counts {
            accounts,
            assets,
            issues,
        }
    }

    // The counts of memory laid out for the first time.
    fn laid_out_once(
        &self,
        cells: &[u64],
        accounts: usize,
        assets: usize,
    ) -> Result<Counts, MakeFault>
        ensures fault { refusal result ≡ lay_out_refused self.now.accounts cells.now accounts assets }
        ensures laid_out { IfOk result (λ k. (self.now.accounts ≡ 0) × LaidOut cells.now accounts assets k) }
    {
        if self.accounts != 0 {
            return Err(MakeFault::BadShape);
        }
        let issues = issues_of(cells, accounts, assets)?;
        Ok(Counts::of(cells, accounts, assets, issues))
    }

    // The counts with which memory is laid out as a table. That is done once, of counts with no account.
    // A thin call, so that a wrong one is refused here, by this contract.
    pub fn laid_out(
        &self,
        cells: &[u64],
        accounts: usize,
        assets: usize,
    ) -> Result<Counts, MakeFault>
        ensures refused_by_the_rules { refusal result ≡ lay_out_refused self.now.accounts cells.now accounts assets }
        ensures tells_the_memory { IfOk result (λ k. (self.now.accounts ≡ 0) × LaidOut cells.now accounts assets k) }
    {
        self.laid_out_once(cells, accounts, assets)
    }
}
