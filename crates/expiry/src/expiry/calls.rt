// The calls of an expiry: its session and the call decide together what is done.
ghost use Rattle.std.specs.Prelude.{◌≡◌};
ghost use Rattle.book.specs.Data.{contents};
ghost use Rattle.register.specs.Registers.{meaning};
ghost use Rattle.rules.specs.Histories.{GoesOn, SmallRefused};
ghost use Rattle.state.specs.Seeing.{seen};
ghost use Rattle.state.specs.Following.{answered as answered_by};

use crate::expiry::Expiry;
use intake::credits::credit;
use intake::draws::{draw_debit, return_draws};
use intake::takes::take_contracts;
use notices::ending::end_notices;
use notices::notices::notice;
use notices::pairing_call::pair_book;
use pairing::line::Line;
use register::balances::Balances;
use register::transfers::Transfers;
use rules::answer::Answer;
use rules::call::Call;
use rules::fault::{Cause, Fault};
use rules::session::Session;
use settlement::closing::close;
use settlement::part::deliver_line;
use settlement::whole::deliver_whole;

// A refusal has its cause, and the call with all of its names.
fn answered(call: Call, res: Result<Answer, Cause>) -> Result<Answer, Fault>
    ensures { result ≡ answered_by call res }
{
    res.map_err(|cause| Fault { cause, call })
}

impl Expiry {
    // What a call does in the session, which it may move on in place.
    fn do_call<S: Transfers, C: Transfers>(
        &mut self,
        lines: &mut [Line],
        securities: &mut S,
        cash: &mut C,
        call: Call,
    ) -> Result<Answer, Cause>
        ensures goes_on_by_the_rules { GoesOn (seen self.old.state lines.old (meaning S.Balances securities.old) (meaning C.Balances cash.old)) call (answered_by call result) (seen self.new.state lines.new (meaning S.Balances securities.new) (meaning C.Balances cash.new)) }
        ensures memory_is_kept { (S.Balances.lender securities.new ≡ S.Balances.lender securities.old) × (C.Balances.lender cash.new ≡ C.Balances.lender cash.old) }
    {
        match (self.state.session, call) {
            (
                _,
                Call::Credit {
                    side,
                    account,
                    asset,
                    amount,
                },
            ) => credit(securities, cash, side, account, asset, amount),
            (
                Session::MembersNotices | Session::ClearingNotices,
                Call::Notice {
                    speaker,
                    member,
                    number,
                    asset,
                    contracts,
                },
            ) => notice(&mut self.state, speaker, member, number, asset, contracts),
            (Session::MembersNotices, Call::End) => {
                self.state.session = Session::ClearingNotices;
                Ok(Answer::Done)
            }
            (Session::ClearingNotices, Call::End) => end_notices(&mut self.state),
            (Session::Pairing, Call::Pair) => pair_book(&mut self.state, lines),
            (
                Session::WholeDelivery | Session::PartialDelivery,
                Call::Take {
                    member,
                    number,
                    asset,
                },
            ) => take_contracts(&self.state, lines, securities, member, number, asset),
            (Session::WholeDelivery, Call::Draw { agent }) => draw_debit(
                &mut self.state,
                lines,
                cash,
                agent,
            ),
            (Session::WholeDelivery, Call::SettleWhole) => deliver_whole(
                &mut self.state,
                lines,
                securities,
                cash,
            ),
            (Session::WholeDelivery, Call::End) => return_draws(&mut self.state, cash),
            (Session::PartialDelivery, Call::SettleLine { line }) => deliver_line(
                &self.state,
                lines,
                securities,
                cash,
                line,
            ),
            (Session::PartialDelivery, Call::Close) => close(&mut self.state, lines, securities),
            _ => Err(Cause::WrongSession),
        }
    }

    fn apply_by_rules<S: Transfers, C: Transfers>(
        &mut self,
        lines: &mut [Line],
        securities: &mut S,
        cash: &mut C,
        call: Call,
    ) -> Result<Answer, Fault>
        ensures goes_on_by_the_rules { GoesOn (seen self.old.state lines.old (meaning S.Balances securities.old) (meaning C.Balances cash.old)) call result (seen self.new.state lines.new (meaning S.Balances securities.new) (meaning C.Balances cash.new)) }
        ensures too_small_is_refused_first { SmallRefused (contents self.old.state.book) (seen self.old.state lines.old (meaning S.Balances securities.old) (meaning C.Balances cash.old)) call result (seen self.new.state lines.new (meaning S.Balances securities.new) (meaning C.Balances cash.new)) }
        ensures memory_is_kept { (S.Balances.lender securities.new ≡ S.Balances.lender securities.old) × (C.Balances.lender cash.new ≡ C.Balances.lender cash.old) }
    {
        self.check_call(lines, securities, cash, call)?;
        let result = self.do_call(lines, securities, cash, call);
        answered(call, result)
    }

    // Carries out one call over the expiry's lines and registers, or refuses it. A table or register that is too small is
    // refused first.
    // A thin call, so that a wrong one is refused here, by this contract.
    pub fn apply<S: Transfers, C: Transfers>(
        &mut self,
        lines: &mut [Line],
        securities: &mut S,
        cash: &mut C,
        call: Call,
    ) -> Result<Answer, Fault>
        ensures goes_on_by_the_rules { GoesOn (seen self.old.state lines.old (meaning S.Balances securities.old) (meaning C.Balances cash.old)) call result (seen self.new.state lines.new (meaning S.Balances securities.new) (meaning C.Balances cash.new)) }
        ensures too_small_is_refused_first { SmallRefused (contents self.old.state.book) (seen self.old.state lines.old (meaning S.Balances securities.old) (meaning C.Balances cash.old)) call result (seen self.new.state lines.new (meaning S.Balances securities.new) (meaning C.Balances cash.new)) }
        ensures memory_is_kept { (S.Balances.lender securities.new ≡ S.Balances.lender securities.old) × (C.Balances.lender cash.new ≡ C.Balances.lender cash.old) }
    {
        self.apply_by_rules(lines, securities, cash, call)
    }
}
