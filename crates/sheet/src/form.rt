// What a record says, and what it asks of a net.
ghost use Rattle.std.specs.Prelude.{◌≡◌};
ghost use Rattle.sheet.specs.Codes.{SaidCodes, EntryCodes};
ghost use Rattle.sheet.specs.Records.{said, events_said, bound_said};
ghost use Rattle.sheet.specs.Told.{coding_of, form_told, entry_told, entry_of};

use super::fault::RecordFault;
use super::reader::{Record, START};
use kinds::kind::Kind;

#[derive(Clone, Copy)]
pub enum Form<'s, K> {
    // kind: the byte of the sheet, which is only compared with the kind's own number
    Events { n: u8, kind: u8 },
    Bound { from: u8, to: u8, bound: K },
    Ordering { events: &'s [u8] },
}

// What a form asks where it may stand; the kind's number is checked by then.
#[derive(Clone, Copy)]
pub enum Request<'s, K> {
    Begin { n: u8 },
    Require { from: u8, to: u8, bound: K },
    Arrange { events: &'s [u8] },
}

// The form of a record, chosen by its tag; none where there is no tag, an unknown one, or a length wrong for it.
#[tactic(auto, unfolding(crate::specs::Records::said))]
pub fn form_of<'s, K: Kind>(body: &'s [u8]) -> Option<Form<'s, K>>
    ensures says { form_told K.Kind.amount result ≡ said (coding_of K.Kind) body.now }
    ensures codes { SaidCodes (coding_of K.Kind) (said (coding_of K.Kind) body.now) }
{
    let (tag, fields) = body.split_first()?;
    // numbers and no enum of tags: the form that is told is that enum
    // by the number: an enum of tags would be matched once more, right here
    match *tag {
        1 => events_of(fields),
        2 => bound_of(fields),
        3 => Some(Form::Ordering { events: fields }),
        _ => None,
    }
}

fn events_of<'s, K: Kind>(fields: &'s [u8]) -> Option<Form<'s, K>>
    ensures says { form_told K.Kind.amount result ≡ events_said fields.now }
    ensures codes { SaidCodes (coding_of K.Kind) (events_said fields.now) }
{
    let [n, kind] = fields else {
        return None;
    };
    Some(Form::Events { n: *n, kind: *kind })
}

fn bound_of<'s, K: Kind>(fields: &'s [u8]) -> Option<Form<'s, K>>
    ensures says { form_told K.Kind.amount result ≡ bound_said (coding_of K.Kind) fields.now }
    ensures codes { SaidCodes (coding_of K.Kind) (bound_said (coding_of K.Kind) fields.now) }
{
    let [from, to, bytes @ ..] = fields else {
        return None;
    };
    let bound = K::read(bytes)?;
    Some(Form::Bound {
        from: *from,
        to: *to,
        bound,
    })
}

// What a record asks: the first one is to begin, and no other may.
pub fn request_of<'s, K: Kind>(found: Record<'s>) -> Result<Request<'s, K>, RecordFault>
    ensures asks { entry_told K.Kind.amount found.entry.offset result ≡ entry_of (coding_of K.Kind) found.entry }
    ensures codes { EntryCodes (coding_of K.Kind) (entry_of (coding_of K.Kind) found.entry) }
{
    let form = form_of(found.body).ok_or(RecordFault::Malformed)?;
    let begins = matches!(form, Form::Events { .. });
    // the offset tells the first record: a field for it would say that twice
    if begins != (found.offset == START) {
        return Err(RecordFault::Misplaced);
    }
    match form {
        Form::Events { kind, .. } if kind != K::number() => Err(RecordFault::OtherKind),
        Form::Events { n, .. } => Ok(Request::Begin { n }),
        Form::Bound { from, to, bound } => Ok(Request::Require { from, to, bound }),
        Form::Ordering { events } => Ok(Request::Arrange { events }),
    }
}
