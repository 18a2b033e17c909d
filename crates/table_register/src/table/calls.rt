// What a table register answers and does.
ghost use Rattle.std.specs.Prelude.{◌≡◌, ◌+◌, ◌*◌, ◌<◌, length, None};
ghost use Rattle.register.specs.Rules.{credit_refused, transfer_refused, credit_answer, transfer_answer, with_credit, with_move, after_credit, after_transfer, unless_refused};
ghost use Rattle.table_register.specs.Table.{cell, issued, credited_cells, moved_cells};
ghost use Rattle.table_register.specs.Lawful.{table_lawful};
ghost use Rattle.table_register.specs.TableMeaning.{means};

use crate::table::TableRegister;
use register::balances::Balances;
use register::checks::{check_credit, check_transfer};
use register::fault::RegisterFault;
use register::transfers::Transfers;

impl TableRegister<'_> {
    // Where the balance of a known account and asset is, which is inside the memory.
    fn place(&self, account: usize, asset: usize) -> usize
        requires known { (account < self.now.counts.accounts) × (asset < self.now.counts.assets) }
        ensures place { result ≡ account * self.now.counts.assets + asset }
        ensures inside { result < length self.now.cells.now }
    {
        self.counts.place(account, asset)
    }

    // Enters an accepted credit.
    fn enter_credit(&mut self, account: usize, asset: usize, amount: u64)
        requires accepted { credit_refused (means self.old) account asset amount ≡ None }
        ensures meaning { means self.new ≡ with_credit (means self.old) account asset amount }
        ensures memory { self.new.cells.now ≡ credited_cells self.old.cells.now self.old.counts.assets account asset amount }
        ensures lender { self.new.cells.ghost_name ≡ self.old.cells.ghost_name }
    {
        let place = self.place(account, asset);
        // The issue first: it covers the balances all the time.
        self.counts.issues[asset] += amount;
        self.cells[place] += amount;
    }

    // Enters an accepted move.
    fn enter_move(&mut self, giver: usize, taker: usize, asset: usize, amount: u64)
        requires accepted { transfer_refused (means self.old) giver taker asset amount ≡ None }
        ensures meaning { means self.new ≡ with_move (means self.old) giver taker asset amount }
        ensures memory { self.new.cells.now ≡ moved_cells self.old.cells.now self.old.counts.assets giver taker asset amount }
        ensures lender { self.new.cells.ghost_name ≡ self.old.cells.ghost_name }
    {
        let from = self.place(giver, asset);
        let to = self.place(taker, asset);
        self.cells[from] -= amount;
        self.cells[to] += amount;
    }
}

impl Balances for TableRegister<'_> {
    ghost accounts = { λ x. x.counts.accounts };

    ghost assets = { λ x. x.counts.assets };

    ghost balance = { λ x. cell x.cells.now x.counts.accounts x.counts.assets };

    ghost issue = { λ x. issued x.counts.issues x.counts.assets };

    ghost lawful = { λ x. table_lawful x.cells.now x.counts.accounts x.counts.assets x.counts.issues x.covered x.counts.bounded };

    ghost lender = { λ x. x.cells.ghost_name };

    fn account_count(&self) -> usize {
        self.counts.accounts
    }

    fn asset_count(&self) -> usize {
        self.counts.assets
    }

    fn balance_of(&self, account: usize, asset: usize) -> u64 {
        self.counts.balance_in(self.cells, account, asset)
    }

    fn issue_of(&self, asset: usize) -> u64 {
        self.counts.issue_of(asset)
    }
}

impl Transfers for TableRegister<'_> {
    fn credit(&mut self, account: usize, asset: usize, amount: u64) -> Result<(), RegisterFault>
        ensures answers_by_the_rules { result ≡ credit_answer (means self.old) account asset amount }
        ensures meaning_follows_the_rules { means self.new ≡ after_credit (means self.old) account asset amount }
        ensures memory_is_kept { self.new.cells.ghost_name ≡ self.old.cells.ghost_name }
        ensures memory_follows_the_rules { self.new.cells.now ≡ unless_refused (credit_refused (means self.old) account asset amount) (credited_cells self.old.cells.now self.old.counts.assets account asset amount) self.old.cells.now }
    {
        check_credit(self, account, asset, amount)?;
        self.enter_credit(account, asset, amount);
        Ok(())
    }

    fn transfer(
        &mut self,
        giver: usize,
        taker: usize,
        asset: usize,
        amount: u64,
    ) -> Result<(), RegisterFault>
        ensures answers_by_the_rules { result ≡ transfer_answer (means self.old) giver taker asset amount }
        ensures meaning_follows_the_rules { means self.new ≡ after_transfer (means self.old) giver taker asset amount }
        ensures memory_is_kept { self.new.cells.ghost_name ≡ self.old.cells.ghost_name }
        ensures memory_follows_the_rules { self.new.cells.now ≡ unless_refused (transfer_refused (means self.old) giver taker asset amount) (moved_cells self.old.cells.now self.old.counts.assets giver taker asset amount) self.old.cells.now }
    {
        check_transfer(self, giver, taker, asset, amount)?;
        self.enter_move(giver, taker, asset, amount);
        Ok(())
    }
}
