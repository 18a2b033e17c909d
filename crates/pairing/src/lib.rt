// Pairing: bought contracts against sold ones, and the lines that are delivered.
#![tactic(auto)]

ghost use Rattle.pairing.specs.Cases.{WorkedCases, PremisesHold};

pub mod deliverable;
pub mod line;
pub mod orders;
pub mod pair;
pub mod stage;

// The rule gives what was worked out by hand: pairs, prices, lines, values and nets. What its laws
// suppose can be had.
// It answers 0: the function is only what carries the theorems.
pub fn worked_cases_hold() -> u8
    ensures cases_by_hand_agree { WorkedCases }
    ensures premises_can_be_had { PremisesHold }
{
    0
}
