// A reader over the bytes of a sheet, record by record.
ghost use Rattle.std.specs.Prelude.{◌≡◌, ◌≤◌, ◌≢◌, length, Some, MatchResult, MatchOption, true, false, slice_index};
ghost use Rattle.std.specs.Option.{ForSome};
ghost use Rattle.std.specs.Iterator.{at_most};
ghost use Rattle.sheet.specs.Records.{whole, body_at};

use super::fault::{RecordFault, SheetFault};

// A record is a part of the sheet: its body, and the offset of its first length byte.
#[derive(Clone, Copy)]
pub struct Record<'s> {
    pub offset: usize,
    pub body: &'s [u8],
}

// Its items are the records in their order, and at last the fault of the bytes, if there is one.
#[derive(Drop)]
pub struct Reader<'s> {
    sheet: &'s [u8],
    // where the next record begins; none after a fault and at the end
    at: Option<usize>,
    ghost inside: { ForSome at (λ n. n ≤ length sheet.now) },
}

// Where the first record begins, after the version.
pub const START: usize = 1;

impl<'s> Reader<'s> {
    ghost use Rattle.sheet.specs.declared.fault.SheetFault.TheVariants.{Version as OtherVersion};

    pub fn new(sheet: &'s [u8]) -> Result<Reader<'s>, SheetFault>
        ensures { MatchResult result (λ x. (x.sheet.now ≡ sheet.now) × (x.at ≡ Some 1) × (slice_index sheet.now 0 ≡ 1)) (λ e. (e ≡ OtherVersion) × (slice_index sheet.now 0 ≢ 1)) }
    {
        match sheet {
            // version 1, which only the writer names once more
            [1, ..] => Ok(Reader {
                sheet,
                at: Some(START),
            }),
            _ => Err(SheetFault::Version),
        }
    }
}

impl<'s> Iterator for Reader<'s> {
    ghost use Rattle.sheet.specs.Told.{Comes, left};

    type Item = Result<Record<'s>, SheetFault>;

    ghost next_gives = { Comes };

    ghost remaining = { λ s. at_most (left s) };

    fn next(&mut self) -> Option<Result<Record<'s>, SheetFault>> {
        let offset = self.at.take()?;
        let bytes = &self.sheet[offset..];
        if bytes.is_empty() {
            // a sheet has a first record
            return (offset == START).then_some(Err(SheetFault::AtRecord {
                offset,
                fault: RecordFault::Misplaced,
            }));
        }
        let Some(body) = body_of(bytes) else {
            return Some(Err(SheetFault::Cut { offset }));
        };
        self.at = Some(offset + 2 + body.len());
        Some(Ok(Record { offset, body }))
    }
}

// The body of the record at the front; none where the bytes end before it does.
fn body_of(bytes: &[u8]) -> Option<&[u8]>
    ensures { MatchOption result (whole bytes.now 0 ≡ false) (λ body. (whole bytes.now 0 ≡ true) × (body.now ≡ body_at bytes.now 0)) }
{
    let [high, low, rest @ ..] = bytes else {
        return None;
    };
    rest.get(..usize::from(u16::from_be_bytes([*high, *low])))
}
