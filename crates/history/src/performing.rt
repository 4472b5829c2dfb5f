// Performing a list of calls on a net just made.
ghost use Rattle.std.specs.Prelude.{◌≡◌, List, map, length};
ghost use Rattle.net.specs.Refusals.{answered};
ghost use Rattle.net.specs.State.{state, room};
ghost use Rattle.net.specs.State as states;
ghost use Rattle.net.specs.Kept.{Kept};
ghost use Rattle.sheet.specs.Told.{coding_of};
ghost use Rattle.history.specs.Deeds.{Deed};
ghost use Rattle.history.specs.Standing.{Stands};
ghost use Rattle.history.specs.Runs.{Takes, Ran};
ghost use Rattle.history.specs.Notes.{call_note, Notes};
ghost use Rattle.history.specs.Law.{Truly, Law};
ghost use Rattle.history.specs.SheetCalls.{sheet_of};
ghost use Rattle.history.specs.Told.{action, actions, note_of, answer_of, asked_told, reported};

use super::call::{Asked, Call, Report};
use super::rejection::Rejection;
use kinds::kind::Kind;
use net::net::Net;
use sheet::reading::read;
use table::cell::Cell;

// Makes a net over the table, performs the calls, asks for the distance and the window of two events, closes the
// net, and asks again. The answer to each call is noted in its slot, if there is one.
// calls and answers as two slices: the caller lends the slots, and there may be fewer
pub fn perform<K: Kind>(
    table: &mut [Cell<K>],
    calls: &[Call<'_, K>],
    place: &mut [u8],
    answers: &mut [Result<(), Rejection>],
    from: usize,
    to: usize,
) -> Report<K>
    ensures law { Law K.Kind.arithmetic (sheet_of (coding_of K.Kind)) (length table.old) (actions K.Kind.amount (length place.old) calls.now) from to (map answer_of answers.old) (map answer_of answers.new) place.old place.new (reported K.Kind.amount result) }
    ensures notes { Notes (coding_of K.Kind) (length table.old) (actions K.Kind.amount (length place.old) calls.now) note_of answers.old answers.new place.old place.new (call_note (answered result.closing)) }
{
    let mut net = Net::make(table);
    run(&mut net, calls, place, answers);
    let before = ask(&net, from, to);
    let closing = net.close(place).map(|_| ());
    let after = ask(&net, from, to);
    Report {
        before,
        closing,
        after,
    }
}

// Performs the calls in order, and notes the answer to each.
// what the net keeps stands here too: no type speaks of before and after
fn run<K: Kind>(
    net: &mut Net<'_, K>,
    calls: &[Call<'_, K>],
    place: &mut [u8],
    answers: &mut [Result<(), Rejection>],
)
    ensures kept { room net.new ≡ room net.old }
    ensures faithful { Kept K.Kind.arithmetic K.Kind.amount net.old → Kept K.Kind.arithmetic K.Kind.amount net.new }
    ensures ran { state K.Kind.amount net.old ≡ states.made → Ran (coding_of K.Kind) (room net.old) (actions K.Kind.amount (length place.old) calls.now) note_of answers.old answers.new place.old place.new (state K.Kind.amount net.new) }
{
    for (k, call) in calls.iter().enumerate() {
        let answer = apply(net, call, place);
        // by index, since no proof knows what a slice holds after `get_mut`
        if k < answers.len() {
            answers[k] = answer;
        }
    }
}

// Performs one call, and tells its answer.
fn apply<K: Kind>(
    net: &mut Net<'_, K>,
    call: &Call<'_, K>,
    place: &mut [u8],
) -> Result<(), Rejection>
    ensures kept { room net.new ≡ room net.old }
    ensures faithful { Kept K.Kind.arithmetic K.Kind.amount net.old → Kept K.Kind.arithmetic K.Kind.amount net.new }
    ensures takes { Takes (coding_of K.Kind) (room net.old) (action K.Kind.amount (length place.old) call.now) (note_of result) place.old place.new (state K.Kind.amount net.old) (state K.Kind.amount net.new) }
{
    match call {
        Call::Begin(n) => net.begin(*n)?,
        Call::Read(sheet) => read(net, sheet)?,
        Call::Require(i, j, bound) => net.require(*i, *j, *bound)?,
        Call::Withdraw(i, j) => net.withdraw(*i, *j)?,
        Call::Arrange(list) => net.arrange(list)?,
        Call::Rank => net.rank(),
        Call::Close(k) => {
            let bytes = (*k).min(place.len());
            net.close(&mut place[..bytes])?;
        }
    }
    Ok(())
}

// Asks whether the net is closed, and for the distance and the window of two events.
// net and events as they are: no other function asks
fn ask<K: Kind>(net: &Net<'_, K>, from: usize, to: usize) -> Asked<K>
    ensures { Kept K.Kind.arithmetic K.Kind.amount net.now → (past : List Deed) → Stands K.Kind.arithmetic past (state K.Kind.amount net.now) → Truly K.Kind.arithmetic past from to (asked_told K.Kind.amount result) }
{
    Asked {
        closed: net.is_closed(),
        distance: net.distance(from, to),
        window: net.window(from, to),
    }
}
