// A register's refusal, with the side on which it came.
ghost use Rattle.std.specs.Prelude.{◌≡◌};
ghost use Rattle.rules.specs.declared.fault.Cause.TheVariants as cause_of;
ghost use Rattle.delivery.specs.Sides.{on_side};

use register::fault::RegisterFault;
use rules::fault::Cause;
use rules::side::Side;

// What a register refused, whole. Whoever made the call receives it.
#[derive(Clone, Copy, PartialEq, Eq, Debug)]
pub struct SideFault {
    pub side: Side,
    pub fault: RegisterFault,
}

// A register's answer, with its side where it refused, so that `?` hands up both.
pub fn on(side: Side, answer: Result<(), RegisterFault>) -> Result<(), SideFault>
    ensures side_is_told { result ≡ on_side side answer }
{
    answer.map_err(|fault| SideFault { side, fault })
}

// A side's refusal comes up whole as the cause of a refused call.
impl From<SideFault> for Cause {
    ghost from_gives = { λ x r. r ≡ cause_of.Register x.side x.fault };

    fn from(x: SideFault) -> Cause {
        Cause::Register(x.side, x.fault)
    }
}
