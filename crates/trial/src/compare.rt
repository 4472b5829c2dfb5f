// A net held to its model: state, loops and walks.
use super::amount::{Amount, Sample, sum};
use super::matrix::Matrix;
use super::model::Model;
use super::tally::Tally;
use net::net::Net;
use net::refusal::Refusal;

// What a byte of a place holds before a call.
pub const UNTOUCHED: u8 = 0xEE;

// Events, bounds in force and ordering.
// not of Held: the net that a sheet is read into is held to the same model
pub fn compare_layout<K: Sample>(net: &Net<'_, K>, model: &Model, tally: &mut Tally) {
    let n = model.events();
    tally.agree(net.events() == n, "number of events");
    compare_bounds(net, model, tally);
    for (place, event) in model.order.iter().enumerate() {
        let event = usize::from(*event);
        let rank = place + 1;
        tally.agree(net.event_at(rank) == Some(event), "event of a rank");
        tally.agree(net.rank_of(event) == Some(rank), "rank of an event");
    }
    tally.agree(net.event_at(0).is_none(), "event of rank 0");
    tally.agree(
        net.event_at(n.saturating_add(1)).is_none(),
        "event past the last rank",
    );
    tally.agree(net.rank_of(n).is_none(), "rank of no event");
}

fn compare_bounds<K: Sample>(net: &Net<'_, K>, model: &Model, tally: &mut Tally) {
    for (i, row) in model.bounds.rows().iter().enumerate() {
        for (j, entry) in row.iter().enumerate() {
            let agrees = net
                .bound(i, j)
                .is_ok_and(|bound| bound.map(K::told) == *entry);
            tally.agree(agrees, "bound in force");
        }
    }
    tally.refuses(
        net.bound(model.events(), 0),
        Refusal::NoSuchEvent,
        "bound of no event",
    );
}

// The sum of the bounds from each event to the next; none where a bound is missing.
fn sum_along(bounds: &Matrix, events: &[u8]) -> Option<Amount> {
    events
        .array_windows::<2>()
        .try_fold(Amount::ZERO, |total, [here, next]| {
            Some(total + bounds.at(usize::from(*here), usize::from(*next))?)
        })
}

fn all_different(events: &[u8]) -> bool {
    events.iter().enumerate().all(|(k, event)| events
        .iter()
        .take(k)
        .all(|earlier| earlier != event))
}

pub fn is_untouched(place: &[u8]) -> bool {
    untouched_from(place, 0)
}

pub fn untouched_from(place: &[u8], from: usize) -> bool {
    place.iter().skip(from).all(|byte| *byte == UNTOUCHED)
}

// A shown loop: bounds in force, none twice, under zero.
pub fn is_loop_under_zero(bounds: &Matrix, events: &[u8]) -> bool {
    let (Some(first), Some(last)) = (events.first(), events.last()) else {
        return false;
    };
    let back = bounds.at(usize::from(*last), usize::from(*first));
    sum(sum_along(bounds, events), back).is_some_and(|total| total < Amount::ZERO)
        && all_different(events)
}

// A walk from i to j, none twice, with the distance as its sum.
pub fn is_least_walk(bounds: &Matrix, sums: &Matrix, i: usize, j: usize, events: &[u8]) -> bool {
    let (Some(first), Some(last)) = (events.first(), events.last()) else {
        return false;
    };
    usize::from(*first) == i
        && usize::from(*last) == j
        && all_different(events)
        && sum_along(bounds, events) == sums.at(i, j)
}
