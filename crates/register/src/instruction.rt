// A credit or a move, as one value.
#[derive(Clone, Copy, PartialEq, Eq, Debug)]
pub enum Instruction {
    Credit {
        account: usize,
        asset: usize,
        amount: u64,
    },
    Move {
        giver: usize,
        taker: usize,
        asset: usize,
        amount: u64,
    },
}

// A credit of nothing, which every register refuses: what stands in the unused places of a vector of fixed capacity.
impl Default for Instruction {
    ghost use Rattle.std.specs.Prelude.{◌≡◌};
    ghost use Rattle.register.specs.declared.instruction.Instruction.TheVariants.{Credit};

    ghost is_default = { λ x. x ≡ Credit 0 0 0 };

    fn default() -> Instruction {
        Instruction::Credit {
            account: 0,
            asset: 0,
            amount: 0,
        }
    }
}
