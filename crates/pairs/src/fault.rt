// Why pairing is refused.
ghost use Rattle.std.specs.Prelude.{◌≡◌, Some};
ghost use Rattle.pairs.specs.Refusals.{number, told};

use std::error::Error;
use std::fmt;

// A table has too few places: four lines a holder, and a record of lots for each holder.
#[derive(Clone, Copy, PartialEq, Eq, Debug)]
pub enum PairingFault {
    FewLines,
    FewRecords,
}

impl PairingFault {
    // The number of the refusal.
    // A match, and no constant: an edit that gives one of them another number has to be refused by a proof.
    pub fn number(self) -> u8
        ensures numbered { result ≡ number self }
    {
        match self {
            PairingFault::FewLines | PairingFault::FewRecords => 15,
        }
    }
}

impl fmt::Display for PairingFault {
    ghost output = { λ e. Some (told e) };

    fn fmt<W: fmt::Write>(&self, f: &mut fmt::Formatter<W>) -> fmt::Result {
        match self {
            PairingFault::FewLines => write!(f, "the table of lines is too small"),
            PairingFault::FewRecords => write!(f, "there are too few records"),
        }
    }
}

impl Error for PairingFault {}
