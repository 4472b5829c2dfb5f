// What can be wrong with a sheet, as the trial finds it.
use super::failure::Failure;
use net::refusal::Refusal;
use sheet::fault::SheetFault;

// A fault of a sheet: its number, its layer, and the offset of its record.
#[derive(Clone, Copy, PartialEq, Eq)]
pub struct PlainFault {
    pub number: u8,
    pub layer: u8,
    pub offset: usize,
}

impl From<SheetFault> for PlainFault {
    fn from(fault: SheetFault) -> PlainFault {
        PlainFault {
            number: fault.number(),
            layer: fault.layer().number(),
            offset: fault.offset(),
        }
    }
}

impl From<PlainFault> for Failure<PlainFault> {
    fn from(fault: PlainFault) -> Failure<PlainFault> {
        Failure::Told(fault)
    }
}

#[derive(Clone, Copy)]
pub enum Slip {
    Version,
    Cut,
    Malformed,
    Misplaced,
    OtherKind,
    Refused(Refusal),
}

impl From<Slip> for Failure<Slip> {
    fn from(slip: Slip) -> Failure<Slip> {
        Failure::Told(slip)
    }
}

impl Slip {
    pub fn at(self, offset: usize) -> PlainFault {
        let (number, layer) = match self {
            Slip::Version => (21, 1),
            Slip::Cut => (22, 1),
            Slip::Malformed => (23, 2),
            Slip::Misplaced => (24, 2),
            Slip::OtherKind => (25, 2),
            Slip::Refused(refusal) => (number_of(refusal), 3),
        };
        PlainFault {
            number,
            layer,
            offset,
        }
    }
}

// The trial's own list of the numbers of refusals.
fn number_of(refusal: Refusal) -> u8 {
    match refusal {
        Refusal::EventsOutOfRange => 1,
        Refusal::TooFewCells => 2,
        Refusal::NoSuchEvent => 3,
        Refusal::SameEvent => 4,
        Refusal::PlaceTooShort => 5,
        Refusal::NotClosed => 6,
        Refusal::TooLarge => 11,
        Refusal::NothingToWithdraw => 12,
        Refusal::WrongCount => 13,
        Refusal::OutsideNet => 14,
        Refusal::NamedTwice => 15,
        Refusal::Contradiction(_) => 16,
    }
}
