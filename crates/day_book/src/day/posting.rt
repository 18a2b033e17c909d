// Posting: the entries that wait are written to the memory, the oldest first.
// No `TableRegister` is made over the memory for it: that has its fields to itself, so that only its own calls change it.
ghost use Rattle.std.specs.Prelude.{◌≡◌, ◌+◌, ◌*◌, ◌<◌, ◌≤◌, true, [], length, None, Ok};
ghost use Rattle.register.specs.Rules.{credit_refused, transfer_refused, with_credit, with_move};
ghost use Rattle.register.specs.Instructions.{instruction_answer, after_instruction, after_all};
ghost use Rattle.table_register.specs.Table.{Covered};
ghost use Rattle.day_book.specs.Entering.{each_accepted};
ghost use Rattle.day_book.specs.DayTable.{waits, posted_in, LaterPlacesStay, Posted};
ghost use Rattle.day_book.specs.DayMeaning.{means};

use crate::day::DayBook;
use register::instruction::Instruction;
use table_register::counts::Counts;

// The place of a balance in the memory.
fn place(counts: &Counts, account: usize, asset: usize) -> usize
    requires known { (account < counts.now.accounts) × (asset < counts.now.assets) }
    ensures place { result ≡ account * counts.now.assets + asset }
    ensures inside { result < counts.now.accounts * counts.now.assets }
{
    account * counts.assets + asset
}

// Posts an accepted credit.
fn post_credit(cells: &mut [u64], counts: &mut Counts, account: usize, asset: usize, amount: u64)
    requires size { counts.old.accounts * counts.old.assets ≤ length cells.old }
    requires covered { Covered cells.old counts.old.accounts counts.old.assets counts.old.issues }
    requires accepted { credit_refused (posted_in cells.old counts.old) account asset amount ≡ None }
    ensures meaning { posted_in cells.new counts.new ≡ with_credit (posted_in cells.old counts.old) account asset amount }
    ensures size { counts.new.accounts * counts.new.assets ≤ length cells.new }
    ensures covered { Covered cells.new counts.new.accounts counts.new.assets counts.new.issues }
    ensures later { LaterPlacesStay (counts.old.accounts * counts.old.assets) cells.old cells.new }
{
    let to = place(counts, account, asset);
    cells[to] += amount;
    counts.issues[asset] += amount;
}

// Posts an accepted move.
fn post_move(
    cells: &mut [u64],
    counts: &Counts,
    giver: usize,
    taker: usize,
    asset: usize,
    amount: u64,
)
    requires size { counts.now.accounts * counts.now.assets ≤ length cells.old }
    requires covered { Covered cells.old counts.now.accounts counts.now.assets counts.now.issues }
    requires accepted { transfer_refused (posted_in cells.old counts.now) giver taker asset amount ≡ None }
    ensures meaning { posted_in cells.new counts.now ≡ with_move (posted_in cells.old counts.now) giver taker asset amount }
    ensures size { counts.now.accounts * counts.now.assets ≤ length cells.new }
    ensures covered { Covered cells.new counts.now.accounts counts.now.assets counts.now.issues }
    ensures later { LaterPlacesStay (counts.now.accounts * counts.now.assets) cells.old cells.new }
{
    let from = place(counts, giver, asset);
    let to = place(counts, taker, asset);
    cells[from] -= amount;
    cells[to] += amount;
}

// Posts an accepted entry.
fn post_entry(cells: &mut [u64], counts: &mut Counts, entry: Instruction)
    requires size { counts.old.accounts * counts.old.assets ≤ length cells.old }
    requires covered { Covered cells.old counts.old.accounts counts.old.assets counts.old.issues }
    requires accepted { instruction_answer (posted_in cells.old counts.old) entry ≡ Ok tt }
    ensures meaning { posted_in cells.new counts.new ≡ after_instruction (posted_in cells.old counts.old) entry }
    ensures size { counts.new.accounts * counts.new.assets ≤ length cells.new }
    ensures covered { Covered cells.new counts.new.accounts counts.new.assets counts.new.issues }
    ensures later { LaterPlacesStay (counts.old.accounts * counts.old.assets) cells.old cells.new }
{
    match entry {
        Instruction::Credit {
            account,
            asset,
            amount,
        } => post_credit(cells, counts, account, asset, amount),
        Instruction::Move {
            giver,
            taker,
            asset,
            amount,
        } => post_move(cells, counts, giver, taker, asset, amount),
    }
}

// Posts the entries, the oldest first. None is checked again: each is accepted in its turn.
fn post_each(cells: &mut [u64], counts: &mut Counts, entries: &[Instruction])
    requires size { counts.old.accounts * counts.old.assets ≤ length cells.old }
    requires covered { Covered cells.old counts.old.accounts counts.old.assets counts.old.issues }
    requires accepted { each_accepted (posted_in cells.old counts.old) entries.now ≡ true }
    ensures meaning { posted_in cells.new counts.new ≡ after_all (posted_in cells.old counts.old) entries.now }
    ensures size { counts.new.accounts * counts.new.assets ≤ length cells.new }
    ensures covered { Covered cells.new counts.new.accounts counts.new.assets counts.new.issues }
    ensures later { LaterPlacesStay (counts.old.accounts * counts.old.assets) cells.old cells.new }
{
    for entry in entries {
        post_entry(cells, counts, *entry);
    }
}

impl DayBook<'_> {
    pub(crate) fn post_waiting(&mut self)
        ensures meaning { means self.new ≡ means self.old }
        ensures none { waits self.new.entries ≡ [] }
        ensures posted { Posted (means self.old) self.old.cells.now self.new.cells.now }
        ensures lender { self.new.cells.ghost_name ≡ self.old.cells.ghost_name }
    {
        post_each(self.cells, &mut self.counts, &self.entries);
        self.entries.clear();
    }

    // Posts what waits, so that the memory alone tells the balances.
    // A thin call, so that a wrong one is refused here, by this contract.
    pub fn post(&mut self)
        ensures meaning_stays { means self.new ≡ means self.old }
        ensures nothing_waits { waits self.new.entries ≡ [] }
        ensures memory_tells_the_balances { Posted (means self.old) self.old.cells.now self.new.cells.now }
        ensures memory_is_kept { self.new.cells.ghost_name ≡ self.old.cells.ghost_name }
    {
        self.post_waiting();
    }

    // How many entries wait.
    pub fn waiting(&self) -> usize
        ensures counts_what_waits { result ≡ length (waits self.now.entries) }
    {
        self.entries.len()
    }
}
