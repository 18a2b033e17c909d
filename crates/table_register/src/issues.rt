// The sums of the balances in memory, which are its issues once it is made a register.
ghost use Rattle.std.specs.Prelude.{◌≡◌, ℕ, ◌+◌, ◌*◌, ◌<◌, ◌≤◌, length, IfOk, slice_index};
ghost use Rattle.register.specs.Rules.{most};
ghost use Rattle.table_register.specs.Make.{most_accounts, most_assets, column, within_most, shaped, make_refused, refusal};

use register::fault::MakeFault;
use register::limits::{MOST_ACCOUNTS, MOST_ASSETS, MOST_ISSUED};

// The sum with one balance more, or none where it is above the most.
fn with_balance(sum: u64, held: u64) -> Option<u64>
    requires { sum ≤ most }
    ensures { result ≡ within_most (sum + held) }
{
    sum.checked_add(held).filter(|sum| *sum <= MOST_ISSUED)
}

// The sum of one asset's balances, or none where it is above the most.
// No `try_fold`, which would be no plainer: its closure would need the bound on the sum so far as a contract.
fn column_sum(cells: &[u64], accounts: usize, assets: usize, asset: usize) -> Option<u64>
    requires few_accounts { accounts ≤ most_accounts }
    requires few_assets { assets ≤ most_assets }
    requires known { asset < assets }
    requires size { length cells.now ≡ accounts * assets }
    ensures { result ≡ within_most (column cells.now accounts assets asset) }
{
    let mut sum = 0u64;
    for row in cells.chunks_exact(assets) {
        sum = with_balance(sum, row[asset])?;
    }
    Some(sum)
}

// Whether the counts are in range, and the memory has a place for each balance.
fn is_shaped(cells: &[u64], accounts: usize, assets: usize) -> bool
    ensures { result ≡ shaped accounts assets (length cells.now) }
{
    (1..=MOST_ACCOUNTS).contains(&accounts)
        && (1..=MOST_ASSETS).contains(&assets)
        && cells.len() == accounts * assets
}

fn counted_issues(
    cells: &[u64],
    accounts: usize,
    assets: usize,
) -> Result<[u64; MOST_ASSETS], MakeFault>
    ensures fault { refusal result ≡ make_refused cells.now accounts assets }
    ensures issues { IfOk result (λ k. ((s : ℕ) → s < assets → slice_index k s ≡ column cells.now accounts assets s)) }
{
    if !is_shaped(cells, accounts, assets) {
        return Err(MakeFault::BadShape);
    }
    // By index: `array::try_from_fn` does not tell that its calls were made with these cells, and after a loop over
    // `issues.iter_mut().enumerate().take(assets)` the check knows no element of `issues`.
    let mut issues = [0u64; MOST_ASSETS];
    for asset in 0..assets {
        issues[asset] = column_sum(cells, accounts, assets, asset).ok_or(MakeFault::TooMuch)?;
    }
    Ok(issues)
}

// The issue of each asset of the memory `cells` as a table of these counts.
// Memory and counts are no struct, here and in `Counts::laid_out`: not known to be in range, they have no fact to keep.
// A thin call, so that a wrong one is refused here, by this contract.
pub fn issues_of(
    cells: &[u64],
    accounts: usize,
    assets: usize,
) -> Result<[u64; MOST_ASSETS], MakeFault>
    ensures refused_by_the_rules { refusal result ≡ make_refused cells.now accounts assets }
    ensures tells_each_sum { IfOk result (λ issues. ((s : ℕ) → s < assets → slice_index issues s ≡ column cells.now accounts assets s)) }
{
    counted_issues(cells, accounts, assets)
}
