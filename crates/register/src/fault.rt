// The refusals of a register, and the numbers by which they are told.
ghost use Rattle.std.specs.Prelude.{◌≡◌};
ghost use Rattle.register.specs.Faults.{number, make_number};

// Why a credit or a move is refused. Whoever made the call receives it.
#[derive(Clone, Copy, PartialEq, Eq, Debug)]
pub enum RegisterFault {
    UnknownAccount,
    UnknownAsset,
    SameAccount,
    ZeroAmount,
    Short,
    OverIssue,
}

// Why memory cannot be made a register: its size or the counts are unfit, or an asset has too many units.
#[derive(Clone, Copy, PartialEq, Eq, Debug)]
pub enum MakeFault {
    BadShape,
    TooMuch,
}

// The numbers stand in a match, and are no discriminants: two refusals told alike would then not compile, and the edits
// that tell one refusal as another have to be refused by a proof.
impl RegisterFault {
    pub fn number(&self) -> u8
        ensures told_by_its_number { result ≡ number self.now }
    {
        match self {
            RegisterFault::UnknownAccount => 20,
            RegisterFault::UnknownAsset => 21,
            RegisterFault::SameAccount => 22,
            RegisterFault::ZeroAmount => 23,
            RegisterFault::Short => 24,
            RegisterFault::OverIssue => 25,
        }
    }
}

impl MakeFault {
    pub fn number(&self) -> u8
        ensures told_by_its_number { result ≡ make_number self.now }
    {
        match self {
            MakeFault::BadShape => 15,
            MakeFault::TooMuch => 25,
        }
    }
}
