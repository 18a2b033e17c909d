// The entries of a day book: how many may wait, and what each does to a balance and to an issue.
ghost use Rattle.std.specs.Prelude.{◌≡◌, ℕ, ◌+◌, ◌<◌, ◌≤◌, slice_index};
ghost use Rattle.register.specs.Rules.{most};
ghost use Rattle.table_register.specs.Make.{most_assets};
ghost use Rattle.day_book.specs.Entering.{apply, added, asset_of};

use register::instruction::Instruction;
use register::limits::MOST_ASSETS;

// The most entries that wait: one accepted while so many wait posts them all first.
pub const MOST_ENTRIES: usize = 64;

// Raises the issue of its asset by what an entry adds.
pub(crate) fn raise(issues: &mut [u64; MOST_ASSETS], entry: Instruction)
    requires known { asset_of entry < most_assets }
    requires fits { slice_index issues.old (asset_of entry) + added entry (asset_of entry) ≤ most }
    ensures { (s : ℕ) → slice_index issues.new s ≡ slice_index issues.old s + added entry s }
{
    match entry {
        Instruction::Credit { asset, amount, .. } => issues[asset] += amount,
        Instruction::Move { .. } => (),
    }
}

// The balance of an account and asset after an entry, `held` before it. The asset is compared first, so that an entry of
// another one is left at once; with an arm for each kind, since one arm for both would cost a pick of the field.
pub(crate) fn applied(entry: Instruction, account: usize, asset: usize, held: u64) -> u64
    requires { apply entry account asset held ≤ most }
    ensures { result ≡ apply entry account asset held }
{
    match entry {
        Instruction::Credit { asset: of, .. } if of != asset => held,
        Instruction::Credit {
            account: to,
            amount,
            ..
        } if to == account => held + amount,
        Instruction::Move { asset: of, .. } if of != asset => held,
        Instruction::Move { giver, amount, .. } if giver == account => held.saturating_sub(amount),
        Instruction::Move { taker, amount, .. } if taker == account => held + amount,
        _ => held,
    }
}
