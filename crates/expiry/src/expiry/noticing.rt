// A notice by its own name.
ghost use Rattle.std.specs.Prelude.{◌≡◌};
ghost use Rattle.book.specs.Data.{contents};
ghost use Rattle.register.specs.Registers.{meaning};
ghost use Rattle.rules.specs.Histories.{GoesOn, SmallRefused};
ghost use Rattle.state.specs.Seeing.{seen};
ghost use Rattle.state.specs.Calls.{notice_call};

use crate::expiry::Expiry;
use pairing::line::Line;
use register::balances::Balances;
use register::transfers::Transfers;
use rules::answer::Answer;
use rules::call::Call;
use rules::fault::Fault;
use rules::speaker::Speaker;

impl Expiry {
    // Gives notice that so many contracts of a seller are to be delivered in an asset.
    pub fn notice<S: Transfers, C: Transfers>(
        &mut self,
        lines: &mut [Line],
        securities: &mut S,
        cash: &mut C,
        speaker: Speaker,
        member: u64,
        number: u64,
        asset: u64,
        contracts: u64,
    ) -> Result<Answer, Fault>
        ensures goes_on_by_the_rules { GoesOn (seen self.old.state lines.old (meaning S.Balances securities.old) (meaning C.Balances cash.old)) (notice_call speaker member number asset contracts) result (seen self.new.state lines.new (meaning S.Balances securities.new) (meaning C.Balances cash.new)) }
        ensures too_small_is_refused_first { SmallRefused (contents self.old.state.book) (seen self.old.state lines.old (meaning S.Balances securities.old) (meaning C.Balances cash.old)) (notice_call speaker member number asset contracts) result (seen self.new.state lines.new (meaning S.Balances securities.new) (meaning C.Balances cash.new)) }
        ensures memory_is_kept { (S.Balances.lender securities.new ≡ S.Balances.lender securities.old) × (C.Balances.lender cash.new ≡ C.Balances.lender cash.old) }
    {
        let call = Call::Notice {
            speaker,
            member,
            number,
            asset,
            contracts,
        };
        self.apply(lines, securities, cash, call)
    }
}
