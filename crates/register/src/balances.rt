// The reading half of a register: what it means, and the questions that it answers. A question changes nothing.
ghost use Rattle.std.specs.Prelude.{◌≡◌, ℕ};
ghost use Rattle.register.specs.Rules.{Lawful};

pub trait Balances {
    // The meaning: the counts of accounts and assets, both numbered from 0, each balance and each issue.
    ghost accounts: { Self → ℕ };

    ghost assets: { Self → ℕ };

    ghost balance: { Self → ℕ → ℕ → ℕ };

    ghost issue: { Self → ℕ → ℕ };

    // What each make must prove of its meaning.
    ghost lawful: { (x : Self) → Lawful (record { accounts = accounts x; assets = assets x; balance = balance x; issue = issue x }) };

    // The name of the memory that was lent to the register; it has it until it is given up.
    // A fact of old and new, so each call that moves says it in a clause: no invariant can hold it.
    ghost lender: { Self → ℕ };

    fn account_count(&self) -> usize
        ensures tells_the_count { result ≡ accounts self.now };

    fn asset_count(&self) -> usize
        ensures tells_the_count { result ≡ assets self.now };

    fn balance_of(&self, account: usize, asset: usize) -> u64
        ensures tells_the_balance { result ≡ balance self.now account asset };

    fn issue_of(&self, asset: usize) -> u64
        ensures tells_the_issue { result ≡ issue self.now asset };
}
