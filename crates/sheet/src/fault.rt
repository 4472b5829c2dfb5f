// What can be wrong with a sheet.
ghost use Rattle.std.specs.Prelude.{◌≡◌};
ghost use Rattle.sheet.specs.Told.{fault_of, layer_number};
ghost use Rattle.sheet.specs.declared.fault.RecordFault.TheVariants.{Refused as Carried};

use net::refusal::Refusal;

// No words of its own, as the fault below: programs print the number.
#[derive(Clone, Copy, Debug, PartialEq, Eq)]
pub enum RecordFault {
    // no tag, an unknown one, or a length wrong for it
    Malformed,
    // the first record is missing or not the events, or the events come again
    Misplaced,
    // another kind's number
    OtherKind,
    // the net refuses what the record asks
    Refused(Refusal),
}

#[derive(Clone, Copy, Debug, PartialEq, Eq)]
pub enum SheetFault {
    // no bytes, or a version other than 1
    Version,
    // fewer bytes than the record needs
    Cut { offset: usize },
    // the record whose length stands at the offset is at fault
    AtRecord { offset: usize, fault: RecordFault },
}

// Where a fault is found.
#[derive(Clone, Copy, Debug, PartialEq, Eq)]
pub enum Layer {
    Bytes = 1,
    Records = 2,
    Net = 3,
}

impl Layer {
    pub fn number(self) -> u8
        ensures { result ≡ layer_number self }
    {
        self as u8
    }
}

// By hand: a derived `From` has no contract, and clauses name the fault.
impl From<Refusal> for RecordFault {
    ghost from_gives = { λ why r. r ≡ Carried why };

    fn from(why: Refusal) -> RecordFault {
        RecordFault::Refused(why)
    }
}

impl SheetFault {
    // Variants that carry a value have no discriminants to cast; a refusal has its number from the net.
    // As the guide for makers of sheets numbers them.
    pub fn number(self) -> u8
        ensures { result ≡ (fault_of self).number }
    {
        match self {
            SheetFault::Version => 21,
            SheetFault::Cut { .. } => 22,
            SheetFault::AtRecord { fault, .. } => match fault {
                RecordFault::Malformed => 23,
                RecordFault::Misplaced => 24,
                RecordFault::OtherKind => 25,
                RecordFault::Refused(why) => why.number(),
            },
        }
    }

    pub fn layer(self) -> Layer
        ensures { layer_number result ≡ (fault_of self).layer }
    {
        match self {
            SheetFault::Version | SheetFault::Cut { .. } => Layer::Bytes,
            SheetFault::AtRecord { fault, .. } => match fault {
                RecordFault::Malformed | RecordFault::Misplaced | RecordFault::OtherKind => {
                    Layer::Records
                }
                RecordFault::Refused(_) => Layer::Net,
            },
        }
    }

    // The offset of the record's first length byte.
    // 0 where the version is wrong: every fault is told with an offset.
    pub fn offset(self) -> usize
        ensures { result ≡ (fault_of self).offset }
    {
        match self {
            SheetFault::Version => 0,
            SheetFault::Cut { offset } => offset,
            SheetFault::AtRecord { offset, .. } => offset,
        }
    }
}
