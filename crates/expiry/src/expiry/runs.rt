// Runs of calls, and a whole day from its opening.
ghost use Rattle.std.specs.Prelude.{◌≡◌};
ghost use Rattle.book.specs.Data.{contents};
ghost use Rattle.register.specs.Registers.{meaning};
ghost use Rattle.state.specs.Seeing.{seen, opening};
ghost use Rattle.expiry.specs.Running.{calls_in, with_answer, RunsOn, Plays, RefusedStays};

use crate::expiry::Expiry;
use book::book::Book;
use pairing::line::Line;
use register::balances::Balances;
use register::transfers::Transfers;
use rules::answer::Answer;
use rules::call::Call;
use rules::fault::{Fault, OpeningFault};

// A call, and the answer that it got. Before it is made the answer is a blank one, `Done`: a run leaves no entry without one,
// so an `Option` would give every reader a `None` that never comes.
#[derive(Clone, Copy)]
pub struct Entry {
    pub call: Call,
    pub answer: Result<Answer, Fault>,
}

impl Entry {
    // A call that was not made yet.
    pub fn new(call: Call) -> Entry
        ensures has_the_call { result.call ≡ call }
    {
        Entry {
            call,
            answer: Ok(Answer::Done),
        }
    }

    // Enters the answer that the call got.
    fn enter(&mut self, answer: Result<Answer, Fault>)
        ensures entered_beside_its_call { self.new ≡ with_answer self.old answer }
    {
        self.answer = answer;
    }
}

impl Expiry {
    fn run_all<S: Transfers, C: Transfers>(
        &mut self,
        lines: &mut [Line],
        securities: &mut S,
        cash: &mut C,
        entries: &mut [Entry],
    )
        ensures law_over_the_run { RunsOn (seen self.old.state lines.old (meaning S.Balances securities.old) (meaning C.Balances cash.old)) entries.new (seen self.new.state lines.new (meaning S.Balances securities.new) (meaning C.Balances cash.new)) }
        ensures calls_stay { calls_in entries.new ≡ calls_in entries.old }
        ensures memory_is_kept { (S.Balances.lender securities.new ≡ S.Balances.lender securities.old) × (C.Balances.lender cash.new ≡ C.Balances.lender cash.old) }
    {
        for entry in entries.iter_mut() {
            let answer = self.apply(lines, securities, cash, entry.call);
            entry.enter(answer);
        }
    }

    // Carries out all calls in their order, refused ones included, and enters the answer of each beside it.
    // A thin call, so that a wrong one is refused here, by this contract.
    pub fn run<S: Transfers, C: Transfers>(
        &mut self,
        lines: &mut [Line],
        securities: &mut S,
        cash: &mut C,
        entries: &mut [Entry],
    )
        ensures law_over_the_run { RunsOn (seen self.old.state lines.old (meaning S.Balances securities.old) (meaning C.Balances cash.old)) entries.new (seen self.new.state lines.new (meaning S.Balances securities.new) (meaning C.Balances cash.new)) }
        ensures calls_stay { calls_in entries.new ≡ calls_in entries.old }
        ensures memory_is_kept { (S.Balances.lender securities.new ≡ S.Balances.lender securities.old) × (C.Balances.lender cash.new ≡ C.Balances.lender cash.old) }
    {
        self.run_all(lines, securities, cash, entries)
    }

    fn play_all<S: Transfers, C: Transfers>(
        book: Book,
        lines: &mut [Line],
        securities: &mut S,
        cash: &mut C,
        entries: &mut [Entry],
    ) -> Result<Expiry, OpeningFault>
        ensures law_over_the_day { Plays (opening (contents book) lines.old (meaning S.Balances securities.old) (meaning C.Balances cash.old)) (λ e. seen e.state lines.new (meaning S.Balances securities.new) (meaning C.Balances cash.new)) entries.new result }
        ensures refused_moves_nothing { RefusedStays result ((lines.new ≡ lines.old) × (meaning S.Balances securities.new ≡ meaning S.Balances securities.old) × (meaning C.Balances cash.new ≡ meaning C.Balances cash.old) × (entries.new ≡ entries.old)) }
        ensures calls_stay { calls_in entries.new ≡ calls_in entries.old }
        ensures memory_is_kept { (S.Balances.lender securities.new ≡ S.Balances.lender securities.old) × (C.Balances.lender cash.new ≡ C.Balances.lender cash.old) }
    {
        let mut expiry = Expiry::open(book, lines, securities, cash)?;
        expiry.run(lines, securities, cash, entries);
        Ok(expiry)
    }

    // Plays a whole day: opens an expiry of the book over the lines and the registers, carries out all calls, enters their
    // answers, and hands back the expiry, which tells its session, nets and claims.
    // A thin call, so that a wrong one is refused here, by this contract.
    pub fn play<S: Transfers, C: Transfers>(
        book: Book,
        lines: &mut [Line],
        securities: &mut S,
        cash: &mut C,
        entries: &mut [Entry],
    ) -> Result<Expiry, OpeningFault>
        ensures law_over_the_day { Plays (opening (contents book) lines.old (meaning S.Balances securities.old) (meaning C.Balances cash.old)) (λ e. seen e.state lines.new (meaning S.Balances securities.new) (meaning C.Balances cash.new)) entries.new result }
        ensures refused_moves_nothing { RefusedStays result ((lines.new ≡ lines.old) × (meaning S.Balances securities.new ≡ meaning S.Balances securities.old) × (meaning C.Balances cash.new ≡ meaning C.Balances cash.old) × (entries.new ≡ entries.old)) }
        ensures calls_stay { calls_in entries.new ≡ calls_in entries.old }
        ensures memory_is_kept { (S.Balances.lender securities.new ≡ S.Balances.lender securities.old) × (C.Balances.lender cash.new ≡ C.Balances.lender cash.old) }
    {
        Expiry::play_all(book, lines, securities, cash, entries)
    }
}
