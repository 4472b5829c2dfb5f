// Writing a net as a sheet.
ghost use Rattle.std.specs.Prelude.{◌≡◌, ℕ, ◌+◌, ◌*◌, ◌/◌, ◌%◌, ◌^◌, ◌<◌, ◌≤◌, List, [], ◌∷◌, ◌++◌, length, drop, Some, slice_index};
ghost use Rattle.table.specs.Cells.{amount_of};
ghost use Rattle.net.specs.Refusals.{answered};
ghost use Rattle.net.specs.State.{state};
ghost use Rattle.sheet.specs.Codes.{Codes, Coded};
ghost use Rattle.sheet.specs.RoundTrips.{WrittenBack};
ghost use Rattle.sheet.specs.Told.{coding_of};
ghost use Rattle.sheet.specs.Written.{length_bytes, events_record, bound_record, ordering_record, held_from, held, bounds_records, bounds_length, written, sheet_length, writing, write_sheet};

use kinds::kind::Kind;
use net::net::Net;
use net::refusal::Refusal;

// The bound in force, if any.
// no method, since Net is another crate's; two plain numbers, as it takes them
fn bound_between<K: Kind>(net: &Net<'_, K>, from: usize, to: usize) -> Option<K>
    ensures { amount_of K.Kind.amount result ≡ (state K.Kind.amount net.now).bounds from to }
{
    net.bound(from, to).ok().flatten()
}

// How many bounds in force are from an event.
fn held_from<K: Kind>(net: &Net<'_, K>, from: usize) -> usize
    ensures { result ≡ held_from (state K.Kind.amount net.now) from }
{
    (0..net.events())
        .filter(|to| bound_between(net, from, *to).is_some())
        .count()
}

// How many bounds are in force.
fn held<K: Kind>(net: &Net<'_, K>) -> usize
    requires { held (state K.Kind.amount net.now) < 2 ^ 64 }
    ensures { result ≡ held (state K.Kind.amount net.now) }
{
    (0..net.events()).map(|from| held_from(net, from)).sum()
}

// How many bytes their records have.
fn bounds_length<K: Kind>(net: &Net<'_, K>) -> usize
    ensures value { result ≡ bounds_length (coding_of K.Kind) (state K.Kind.amount net.now) }
    ensures few { result ≤ 69 * 128 * 128 }
{
    held(net) * (K::width() + 5)
}

// The length of a record and its tag, at the front of `out`.
// Tags, the version and the kind are bytes here: each is written once, and read once as a form.
fn put_head(out: &mut [u8], size: usize, tag: u8)
    requires room { 3 ≤ length out.old }
    requires short { size < 65536 }
    ensures { out.new ≡ length_bytes size ++ (tag ∷ drop 3 out.old) }
{
    // `as` in this file: a net has at most 128 events, and a size here is below 65536
    let [high, low] = (size as u16).to_be_bytes();
    out[..3].copy_from_slice(&[high, low, tag]);
}

// The record of a bound, at the front of `out`.
fn put_bound<K: Kind>(out: &mut [u8], from: u8, to: u8, bound: K) -> usize
    requires { K.Kind.width + 5 ≤ length out.old }
    ensures used { result ≡ K.Kind.width + 5 }
    ensures bytes { out.new ≡ bound_record (coding_of K.Kind) from to (K.Kind.amount bound) ++ drop (K.Kind.width + 5) out.old }
    ensures codes { Codes (coding_of K.Kind) (K.Kind.amount bound) }
{
    let width = K::width();
    put_head(out, width + 3, 2);
    out[3] = from;
    out[4] = to;
    let end = width + 5;
    bound.write(&mut out[5..end]).unwrap();
    end
}

// The records of all bounds in force, by from and then to.
// place and net apart: a writer of both would be made anew for each part of the place
fn put_bounds<K: Kind>(out: &mut [u8], net: &Net<'_, K>) -> usize
    requires fits { bounds_length (coding_of K.Kind) (state K.Kind.amount net.now) ≤ length out.old }
    ensures used { result ≡ bounds_length (coding_of K.Kind) (state K.Kind.amount net.now) }
    ensures bytes { out.new ≡ bounds_records (coding_of K.Kind) (state K.Kind.amount net.now) ++ drop (bounds_length (coding_of K.Kind) (state K.Kind.amount net.now)) out.old }
    ensures long { length (bounds_records (coding_of K.Kind) (state K.Kind.amount net.now)) ≡ bounds_length (coding_of K.Kind) (state K.Kind.amount net.now) }
    ensures codes { Coded (coding_of K.Kind) (state K.Kind.amount net.now) }
{
    let n = net.events();
    // a cursor, since a proof knows no elements of a slice after a loop over its `chunks_exact_mut`
    let mut at = 0;
    for from in 0..n {
        for to in 0..n {
            if let Some(bound) = bound_between(net, from, to) {
                at += put_bound(&mut out[at..], from as u8, to as u8, bound);
            }
        }
    }
    at
}

// The event of a rank, counted from 0.
fn event_of<K: Kind>(net: &Net<'_, K>, rank: usize) -> u8
    requires { rank < (state K.Kind.amount net.now).events }
    ensures { result ≡ slice_index (state K.Kind.amount net.now).order rank }
{
    net.event_at(rank + 1).unwrap() as u8
}

// The record of the ordering.
fn put_ordering<K: Kind>(out: &mut [u8], net: &Net<'_, K>)
    requires fits { (state K.Kind.amount net.now).events + 3 ≤ length out.old }
    ensures bytes { out.new ≡ ordering_record (state K.Kind.amount net.now).order ++ drop ((state K.Kind.amount net.now).events + 3) out.old }
    ensures long { length (state K.Kind.amount net.now).order ≡ (state K.Kind.amount net.now).events }
{
    let n = net.events();
    put_head(out, n + 1, 3);
    for (rank, event) in out[3..n + 3].iter_mut().enumerate() {
        *event = event_of(net, rank);
    }
}

// The version and the record of the events.
fn put_events<K: Kind>(out: &mut [u8], net: &Net<'_, K>)
    requires fits { 6 ≤ length out.old }
    ensures { out.new ≡ (1 ∷ events_record (coding_of K.Kind) (state K.Kind.amount net.now).events) ++ drop 6 out.old }
{
    out[..6].copy_from_slice(&[1, 0, 3, 1, net.events() as u8, K::number()]);
}

// All records, at the front of a place that is long enough.
fn put_sheet<K: Kind>(out: &mut [u8], net: &Net<'_, K>)
    requires fits { sheet_length (coding_of K.Kind) (state K.Kind.amount net.now) ≤ length out.old }
    ensures bytes { out.new ≡ written (coding_of K.Kind) (state K.Kind.amount net.now) ++ drop (sheet_length (coding_of K.Kind) (state K.Kind.amount net.now)) out.old }
    ensures long { length (written (coding_of K.Kind) (state K.Kind.amount net.now)) ≡ sheet_length (coding_of K.Kind) (state K.Kind.amount net.now) }
    ensures codes { Coded (coding_of K.Kind) (state K.Kind.amount net.now) }
{
    put_events(out, net);
    let used = put_bounds(&mut out[6..], net);
    let at = 6 + used;
    put_ordering(&mut out[at..], net);
}

// Writes the net as a sheet at the front of the place, and tells its length.
pub fn write<K: Kind>(net: &Net<'_, K>, place: &mut [u8]) -> Result<usize, Refusal>
    ensures writing { writing (answered result) place.new ≡ write_sheet (coding_of K.Kind) (state K.Kind.amount net.now) place.old }
    ensures back { WrittenBack (coding_of K.Kind) (state K.Kind.amount net.now) result place.new }
{
    let n = net.events();
    if n == 0 {
        return Err(Refusal::EventsOutOfRange);
    }
    let length = 6 + bounds_length(net) + (n + 3);
    if place.len() < length {
        return Err(Refusal::PlaceTooShort);
    }
    put_sheet(place, net);
    Ok(length)
}
