// Timing sheets by the trial's own reading and writing.
ghost use Rattle.std.specs.Prelude.{◌+◌, ◌≤◌, length, IfSome};

use super::amount::{Amount, Sample};
use super::failure::Failure;
use super::faults::{PlainFault, Slip};
use super::model::{Model, event_byte};
use std::alloc::{AllocError, Global};

// Kinds, tags and the version in numbers of the trial's own: a sheet is read without the names that are tried.
fn kind_number<K: Sample>() -> u8 {
    if K::MARKED { 2 } else { 1 }
}

// A record with its length before it.
fn push_record(out: &mut Vec<u8>, record: &[u8]) -> Result<(), AllocError> {
    let length = (record.len() & 0xffff) as u16;
    out.extend_from_slice(&length.to_be_bytes())?;
    out.extend_from_slice(record)
}

// The eight bytes of a number that fits them.
fn push_number(out: &mut Vec<u8>, number: i128) -> Result<(), AllocError> {
    out.extend_from_slice(&number.to_be_bytes()[8..])
}

fn push_bound<K: Sample>(
    out: &mut Vec<u8>,
    i: usize,
    j: usize,
    bound: Amount,
) -> Result<(), AllocError> {
    let mut record = vec![in *out.allocator(); 2, event_byte(i), event_byte(j)]?;
    push_number(&mut record, bound.number)?;
    if K::MARKED {
        push_number(&mut record, bound.mark)?;
    }
    push_record(out, record.as_slice())
}

// The sheet of a model: its events, its bounds by from and then to, its ordering.
pub fn sheet_of<K: Sample>(model: &Model) -> Result<Vec<u8>, AllocError> {
    let mut out = vec![in model.heap; 1]?;
    push_record(
        &mut out,
        &[1, event_byte(model.events()), kind_number::<K>()],
    )?;
    for (i, row) in model.bounds.rows().iter().enumerate() {
        for (j, entry) in row.iter().enumerate() {
            if let Some(bound) = entry {
                push_bound::<K>(&mut out, i, j, *bound)?;
            }
        }
    }
    let mut ordering = vec![in model.heap; 3]?;
    ordering.extend_from_slice(model.order.as_slice())?;
    push_record(&mut out, ordering.as_slice())?;
    Ok(out)
}

#[derive(Clone, Copy)]
enum Record<'s> {
    Events {
        count: usize,
        kind: u8,
    },
    Bound {
        from: usize,
        to: usize,
        bound: Amount,
    },
    Ordering(&'s [u8]),
}

// Numbers of eight bytes in two's complement: one, and one for the mark of a kind with marks.
fn bound_of<K: Sample>(bytes: &[u8]) -> Option<Amount> {
    let (number, mark) = match bytes.as_chunks::<8>() {
        ([number], []) if !K::MARKED => (*number, [0; 8]),
        ([number, mark], []) if K::MARKED => (*number, *mark),
        _ => return None,
    };
    Some(Amount {
        number: i128::from(i64::from_be_bytes(number)),
        mark: i128::from(i64::from_be_bytes(mark)),
    })
}

// None where the tag is missing or unknown, or the length is wrong for it.
fn record_of<K: Sample>(bytes: &[u8]) -> Option<Record<'_>> {
    match bytes {
        [1, count, kind] => Some(Record::Events {
            count: usize::from(*count),
            kind: *kind,
        }),
        [2, from, to, bound @ ..] => Some(Record::Bound {
            from: usize::from(*from),
            to: usize::from(*to),
            bound: bound_of::<K>(bound)?,
        }),
        [3, list @ ..] => Some(Record::Ordering(list)),
        _ => None,
    }
}

// What a record does to the model.
fn apply<K: Sample>(model: &mut Model, bytes: &[u8], first: bool) -> Result<(), Failure<Slip>> {
    let record = record_of::<K>(bytes).ok_or(Slip::Malformed)?;
    if first != matches!(&record, Record::Events { .. }) {
        return Err(Slip::Misplaced.into());
    }
    match record {
        Record::Events { kind, .. } if kind != kind_number::<K>() => Err(Slip::OtherKind.into()),
        Record::Events { count, .. } => model
            .begin(count)
            .map_err(|failure| failure.map(Slip::Refused)),
        Record::Bound { from, to, bound } => {
            model.require(from, to, bound).map_err(Slip::Refused)?;
            Ok(())
        }
        Record::Ordering(list) => model
            .arrange(list)
            .map_err(|failure| failure.map(Slip::Refused)),
    }
}

// The bytes of the first record after its length, and what follows them.
fn split_record(bytes: &[u8]) -> Option<(&[u8], &[u8])>
    ensures { IfSome result (λ parts. length parts.1.now + 2 ≤ length bytes.now) }
{
    let (length, after) = bytes.split_first_chunk::<2>()?;
    after.split_at_checked(usize::from(u16::from_be_bytes(*length)))
}

// The model that a sheet gives over so many cells, or the fault of its first faulty record.
pub fn read_plainly<K: Sample>(
    heap: Global,
    cells: usize,
    bytes: &[u8],
) -> Result<Model, Failure<PlainFault>> {
    let mut model = Model::new(heap, cells)?;
    let [1, records @ ..] = bytes else {
        return Err(Slip::Version.at(0).into());
    };
    let mut rest = records;
    while !rest.is_empty() {
        let offset = bytes.len() - rest.len();
        let Some((record, after)) = split_record(rest) else {
            return Err(Slip::Cut.at(offset).into());
        };
        let applied = apply::<K>(&mut model, record, offset == 1);
        applied.map_err(|failure| failure.map(|slip| slip.at(offset)))?;
        rest = after;
    }
    if model.events() == 0 {
        return Err(Slip::Misplaced.at(1).into());
    }
    Ok(model)
}
