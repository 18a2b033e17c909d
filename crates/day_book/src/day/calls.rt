// What a day book answers and does.
ghost use Rattle.std.specs.Prelude.{◌≡◌, ◌<◌, [], cond, length, Ok};
ghost use Rattle.register.specs.Rules.{credit_refused, transfer_refused, credit_answer, transfer_answer, after_credit, after_transfer};
ghost use Rattle.register.specs.Instructions.{instruction_answer, after_instruction};
ghost use Rattle.day_book.specs.Entering.{most_entries, a_credit, a_move, full, with_entry, entries_after, posts};
ghost use Rattle.day_book.specs.DayTable.{waits, MemoryAfter};
ghost use Rattle.day_book.specs.DayMeaning.{means};
ghost use Rattle.day_book.specs.DayLawful.{day_book_lawful};

use crate::day::DayBook;
use crate::entries::{applied, raise};
use register::balances::Balances;
use register::checks::{check_credit, check_transfer};
use register::fault::RegisterFault;
use register::instruction::Instruction;
use register::transfers::Transfers;

impl DayBook<'_> {
    // The posted balance with the entries applied.
    // No `fold`: each step has to be known to stay within the most, which its closure would need as a contract.
    fn balance_with_entries(&self, account: usize, asset: usize) -> u64
        ensures { result ≡ (means self.now).balance account asset }
    {
        let mut balance = self.counts.balance_in(self.cells, account, asset);
        for entry in self.entries.iter() {
            balance = applied(*entry, account, asset, balance);
        }
        balance
    }
}

impl Balances for DayBook<'_> {
    ghost accounts = { λ x. (means x).accounts };

    ghost assets = { λ x. (means x).assets };

    ghost balance = { λ x. (means x).balance };

    ghost issue = { λ x. (means x).issue };

    ghost lawful = { day_book_lawful };

    ghost lender = { λ x. x.cells.ghost_name };

    #[tactic(auto, using(register::proofs::Lawfuls::all_accounts))]
    fn account_count(&self) -> usize {
        self.counts.accounts
    }

    #[tactic(auto, using(register::proofs::Lawfuls::all_assets))]
    fn asset_count(&self) -> usize {
        self.counts.assets
    }

    #[tactic(auto, using(crate::specs::DayLawful::no_account_told, crate::specs::DayLawful::no_asset_told))]
    fn balance_of(&self, account: usize, asset: usize) -> u64 {
        // No entry is of an unknown account or asset, so none has to be gone over.
        if account >= self.counts.accounts || asset >= self.counts.assets {
            return 0;
        }
        self.balance_with_entries(account, asset)
    }

    #[tactic(auto, using(crate::specs::DayLawful::no_issue_told))]
    fn issue_of(&self, asset: usize) -> u64 {
        if asset >= self.counts.assets {
            return 0;
        }
        self.issues[asset]
    }
}

impl DayBook<'_> {
    // Posts all entries where as many wait as can.
    fn make_room(&mut self)
        ensures meaning { means self.new ≡ means self.old }
        ensures room { length (waits self.new.entries) < most_entries }
        ensures entries { waits self.new.entries ≡ cond (full (waits self.old.entries)) [] (waits self.old.entries) }
        ensures memory { MemoryAfter (full (waits self.old.entries)) (means self.old) self.old.cells.now self.new.cells.now }
        ensures lender { self.new.cells.ghost_name ≡ self.old.cells.ghost_name }
    {
        if self.entries.is_full() {
            self.post_waiting();
        }
    }

    // Keeps an accepted entry; the issue rises with a credit.
    fn enter(&mut self, entry: Instruction)
        requires accepted { instruction_answer (means self.old) entry ≡ Ok tt }
        ensures meaning { means self.new ≡ after_instruction (means self.old) entry }
        ensures entries { waits self.new.entries ≡ with_entry (waits self.old.entries) entry }
        ensures memory { MemoryAfter (full (waits self.old.entries)) (means self.old) self.old.cells.now self.new.cells.now }
        ensures lender { self.new.cells.ghost_name ≡ self.old.cells.ghost_name }
    {
        self.make_room();
        raise(&mut self.issues, entry);
        self.entries.push(entry);
    }
}

impl Transfers for DayBook<'_> {
    fn credit(&mut self, account: usize, asset: usize, amount: u64) -> Result<(), RegisterFault>
        ensures answers_by_the_rules { result ≡ credit_answer (means self.old) account asset amount }
        ensures meaning_follows_the_rules { means self.new ≡ after_credit (means self.old) account asset amount }
        ensures memory_is_kept { self.new.cells.ghost_name ≡ self.old.cells.ghost_name }
        ensures entries_follow_the_rules { waits self.new.entries ≡ entries_after (credit_refused (means self.old) account asset amount) (waits self.old.entries) (a_credit account asset amount) }
        ensures memory_follows_the_rules { MemoryAfter (posts (credit_refused (means self.old) account asset amount) (waits self.old.entries)) (means self.old) self.old.cells.now self.new.cells.now }
    {
        check_credit(self, account, asset, amount)?;
        let credit = Instruction::Credit {
            account,
            asset,
            amount,
        };
        self.enter(credit);
        Ok(())
    }

    fn transfer(
        &mut self,
        giver: usize,
        taker: usize,
        asset: usize,
        amount: u64,
    ) -> Result<(), RegisterFault>
        ensures answers_by_the_rules { result ≡ transfer_answer (means self.old) giver taker asset amount }
        ensures meaning_follows_the_rules { means self.new ≡ after_transfer (means self.old) giver taker asset amount }
        ensures memory_is_kept { self.new.cells.ghost_name ≡ self.old.cells.ghost_name }
        ensures entries_follow_the_rules { waits self.new.entries ≡ entries_after (transfer_refused (means self.old) giver taker asset amount) (waits self.old.entries) (a_move giver taker asset amount) }
        ensures memory_follows_the_rules { MemoryAfter (posts (transfer_refused (means self.old) giver taker asset amount) (waits self.old.entries)) (means self.old) self.old.cells.now self.new.cells.now }
    {
        check_transfer(self, giver, taker, asset, amount)?;
        let transfer = Instruction::Move {
            giver,
            taker,
            asset,
            amount,
        };
        self.enter(transfer);
        Ok(())
    }
}
