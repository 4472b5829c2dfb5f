// Why a call is refused.
ghost use Rattle.std.specs.Prelude.{◌≡◌};
ghost use Rattle.history.specs.Notes.{number_of};
ghost use Rattle.history.specs.Told.{why_of};
ghost use Rattle.history.specs.declared.rejection.Rejection.TheVariants.{Call as OfCall, Sheet as OfSheet};

use net::refusal::Refusal;
use sheet::fault::SheetFault;

#[derive(Clone, Copy, Debug, PartialEq, Eq)]
pub enum Rejection {
    // by the net
    Call(Refusal),
    // for a fault of the sheet that was read
    Sheet(SheetFault),
}

// By hand: a derived `From` has no contract.
impl From<Refusal> for Rejection {
    ghost from_gives = { λ refusal r. r ≡ OfCall refusal };

    fn from(refusal: Refusal) -> Rejection {
        Rejection::Call(refusal)
    }
}

impl From<SheetFault> for Rejection {
    ghost from_gives = { λ found r. r ≡ OfSheet found };

    fn from(found: SheetFault) -> Rejection {
        Rejection::Sheet(found)
    }
}

impl Rejection {
    // The number of the refusal or of the fault.
    pub fn number(self) -> u8
        ensures { result ≡ number_of (why_of self) }
    {
        match self {
            Rejection::Call(why) => why.number(),
            Rejection::Sheet(fault) => fault.number(),
        }
    }
}
