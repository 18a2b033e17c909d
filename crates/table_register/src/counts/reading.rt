// What the counts tell, alone and of memory.
ghost use Rattle.std.specs.Prelude.{◌≡◌, ℕ, ◌+◌, ◌*◌, ◌<◌, slice_index};
ghost use Rattle.table_register.specs.Table.{cell, issued};

use crate::counts::Counts;
use register::limits::MOST_ASSETS;

impl Counts {
    // No account and no asset.
    pub fn none() -> Counts
        ensures no_account { result.accounts ≡ 0 }
        ensures no_asset { result.assets ≡ 0 }
        ensures no_units { (s : ℕ) → slice_index result.issues s ≡ 0 }
    {
        Counts {
            accounts: 0,
            assets: 0,
            issues: [0; MOST_ASSETS],
        }
    }

    // Where the balance of a known account and asset is.
    pub(crate) fn place(&self, account: usize, asset: usize) -> usize
        requires known { (account < self.now.accounts) × (asset < self.now.assets) }
        ensures { result ≡ account * self.now.assets + asset }
    {
        account * self.assets + asset
    }

    // The balance that memory has as a table of these counts, 0 where account or asset is unknown: not an `Option`, since
    // the rules give each account and asset a balance and each asset an issue, 0 to an unknown one.
    pub fn balance_in(&self, cells: &[u64], account: usize, asset: usize) -> u64
        ensures tells_the_balance { result ≡ cell cells.now self.now.accounts self.now.assets account asset }
    {
        if account >= self.accounts || asset >= self.assets {
            return 0;
        }
        cells.get(self.place(account, asset)).copied().unwrap_or(0)
    }

    // The issue of an asset, 0 where it is unknown.
    pub fn issue_of(&self, asset: usize) -> u64
        ensures tells_the_issue { result ≡ issued self.now.issues self.now.assets asset }
    {
        if asset >= self.assets {
            return 0;
        }
        self.issues[asset]
    }
}
