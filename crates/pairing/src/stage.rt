// The stages of pairing, and the groups of holders that each goes through.

ghost use Rattle.std.specs.Prelude.{◌≡◌};
ghost use Rattle.pairing.specs.StageNumber.{stage_number};

// How near the holders of a pair stand: one member, one clearing member, one payment agent, or one book.
#[derive(Clone, Copy, Default, PartialEq, Eq, Debug)]
pub enum Stage {
    #[default]
    Member,
    Clearing,
    Agent,
    Whole,
}

// The number by which a stage is told, from 1 on.
// A match, and not the variants' own values: an edit that gives two stages one number has to be refused by a proof.
impl From<Stage> for u8 {
    ghost from_gives = { λ s n. n ≡ stage_number s };

    fn from(stage: Stage) -> u8 {
        match stage {
            Stage::Member => 1,
            Stage::Clearing => 2,
            Stage::Agent => 3,
            Stage::Whole => 4,
        }
    }
}

// The holders whose member, clearing member or payment agent has this number.
#[derive(Clone, Copy)]
pub struct Group {
    pub stage: Stage,
    pub number: u16,
}
