// The words of an expiry: its sessions, its calls and their answers.
// Each answers 0: a function is only what carries the theorems.
#![tactic(auto)]

ghost use Rattle.rules.specs.Law.{LawHolds};
ghost use Rattle.rules.specs.Postings.{OnlyShort, PostingsFollow};
ghost use Rattle.rules.specs.Standing.{RoomStays, RefusedStands, RegistersFollow, CoveredOrShort};
ghost use Rattle.rules.specs.Ranges.{SumsInRange};
ghost use Rattle.rules.specs.Premises.{ExampleOpens, OpenedStands, AnyCallsStand, DaysAreHistories};
ghost use Rattle.rules.specs.Cases.{WorkedCases};

pub mod answer;
pub mod call;
pub mod fault;
pub mod session;
pub mod side;
pub mod speaker;

// Wherever an expiry stands, after any history, the law holds.
pub fn law_holds() -> u8
    ensures law_over_every_history { LawHolds }
{
    0
}

// The rules give what was worked out by hand: pairs, prices, lines, nets, takes, claims and openings.
pub fn worked_cases_hold() -> u8
    ensures cases_by_hand_agree { WorkedCases }
{
    0
}

// The law supposes nothing that cannot be had: a book opens, what was opened stands, and so it does after any calls.
pub fn law_is_not_hollow() -> u8
    ensures the_example_opens { ExampleOpens }
    ensures what_was_opened_stands { OpenedStands }
    ensures stands_after_any_calls { AnyCallsStand }
    ensures computed_days_are_histories { DaysAreHistories }
{
    0
}

// A due take, draw or line settlement finds accounts and asset known, the accounts different and the amount above 0, so
// that its register can find it short and nothing else, and does so exactly where the balance does not cover it.
pub fn due_calls_are_covered_or_short() -> u8
    ensures short_is_the_only_refusal { OnlyShort }
{
    0
}

// Contracts, units, values, nets, claims and balances stay in range, for every book and every history.
pub fn sums_stay_in_range() -> u8
    ensures no_sum_passes_its_range { SumsInRange }
{
    0
}

// What an accepted call asks of the registers, move by move, is accepted by them, and leaves each balance and issue as
// the tally tells it after the call.
pub fn registers_follow_the_tally() -> u8
    ensures postings_do_what_the_tally_tells { PostingsFollow }
{
    0
}

// Wherever an expiry stands: it has room for its book, it stands after a refused call as it is, its own registers accept
// the postings of an accepted call and then tell what the tally does, and a due call is covered or short.
pub fn what_stands_goes_on() -> u8
    ensures room_is_never_too_small { RoomStays }
    ensures refused_moves_nothing { RefusedStands }
    ensures its_registers_follow_the_tally { RegistersFollow }
    ensures short_is_the_only_refusal { CoveredOrShort }
{
    0
}
