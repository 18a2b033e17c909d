// Whole days of calls that a separate program played, and the rules' own play of them.
// It answers 0: the function is only what carries the theorems.
#![tactic(auto)]

ghost use Rattle.rules_days.specs.Days.{DaysAgree};

// The rules open, answer and tell as the separate program did, at every step of every day of the table.
pub fn days_follow_the_rules() -> u8
    ensures days_agree_with_the_separate_player { DaysAgree }
{
    0
}
