// The limits of a net, and sheets that are damaged at their start.
use super::amount::Sample;
use super::faults::PlainFault;
use super::model::{LIMIT, MOST_CELLS};
use super::tally::Tally;
use kinds::micros::Micros;
use kinds::strict::StrictMicros;
use net::net::Net;
use net::refusal::Refusal;
use sheet::reading::read;
use std::alloc::{AllocError, Global};
use table::cell::Cell;
use table::grid::blank;

// A net whose answers are known beforehand.
#[derive(Drop)]
struct Known<'n, K> {
    net: Net<'n, K>,
    tally: &'n mut Tally,
}

impl<'n, K: Sample> Known<'n, K> {
    fn over(cells: &'n mut [Cell<K>], tally: &'n mut Tally) -> Known<'n, K> {
        Known {
            net: Net::make(cells),
            tally,
        }
    }

    fn begin(&mut self, n: usize, expected: Result<(), Refusal>) {
        let answer = self.net.begin(n);
        self.tally.answer(expected, answer, "number of events");
    }

    fn compare_events(&mut self, expected: usize) {
        let agrees = self.net.events() == expected;
        self.tally.agree(agrees, "events after a refused begin");
    }

    fn require(&mut self, number: i64, mark: i64, expected: Result<(), Refusal>) {
        let answer = self.net.require(0, 1, K::made(number, mark));
        self.tally.answer(expected, answer, "size of a bound");
    }

    // three numbers, so that each case below is one line
    fn read(&mut self, bytes: &[u8], number: u8, layer: u8, offset: usize) {
        let answer = read(&mut self.net, bytes).map_err(PlainFault::from);
        let fault = PlainFault {
            number,
            layer,
            offset,
        };
        self.tally.answer(Err(fault), answer, "damaged sheet");
    }
}

fn try_table<K: Sample>(heap: Global, tally: &mut Tally) -> Result<(), AllocError> {
    let mut cells = vec![in heap; blank(); MOST_CELLS]?;
    let mut known: Known<'_, K> = Known::over(cells.as_mut_slice(), tally);
    known.begin(0, Err(Refusal::EventsOutOfRange));
    known.begin(128, Ok(()));
    known.begin(129, Err(Refusal::EventsOutOfRange));
    known.compare_events(128);
    known.require(LIMIT, 0, Ok(()));
    known.require(-LIMIT, 0, Ok(()));
    known.require(LIMIT + 1, 0, Err(Refusal::TooLarge));
    known.require(-LIMIT - 1, 0, Err(Refusal::TooLarge));
    known.read(&[], 21, 1, 0);
    known.read(&[2], 21, 1, 0);
    known.read(&[1], 24, 2, 1);
    known.read(&[1, 0, 3, 1, 3], 22, 1, 1);
    Ok(())
}

fn try_short_table<K: Sample>(heap: Global, tally: &mut Tally) -> Result<(), AllocError> {
    let mut cells = vec![in heap; blank(); MOST_CELLS - 1]?;
    let mut known: Known<'_, K> = Known::over(cells.as_mut_slice(), tally);
    known.begin(128, Err(Refusal::TooFewCells));
    known.begin(129, Err(Refusal::EventsOutOfRange));
    known.begin(127, Ok(()));
    Ok(())
}

fn try_marks(heap: Global, tally: &mut Tally) -> Result<(), AllocError> {
    let mut cells = vec![in heap; blank(); 4]?;
    let mut known: Known<'_, StrictMicros> = Known::over(cells.as_mut_slice(), tally);
    known.begin(2, Ok(()));
    known.require(0, LIMIT, Ok(()));
    known.require(0, -LIMIT, Ok(()));
    known.require(0, LIMIT + 1, Err(Refusal::TooLarge));
    known.require(LIMIT, -LIMIT - 1, Err(Refusal::TooLarge));
    Ok(())
}

pub fn try_limits(heap: Global, tally: &mut Tally) -> Result<(), AllocError> {
    try_table::<Micros>(heap, tally)?;
    try_table::<StrictMicros>(heap, tally)?;
    try_short_table::<Micros>(heap, tally)?;
    try_short_table::<StrictMicros>(heap, tally)?;
    try_marks(heap, tally)
}
