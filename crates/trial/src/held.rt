// A net and its model, which take the same calls, and the tally of what came of them.
use super::amount::Sample;
use super::closed::Closed;
use super::compare::{UNTOUCHED, compare_layout, is_loop_under_zero, is_untouched, untouched_from};
use super::drafts::Demand;
use super::failure::expected;
use super::graph::recount;
use super::model::Model;
use super::tally::{Tally, count};
use net::net::Net;
use net::refusal::Refusal;
use order::counts::Counts;
use std::alloc::{AllocError, Global};
use table::cell::Cell;

// So much more room than a call needs, which it is to leave as it is.
pub const SPARE: usize = 3;

#[derive(Drop)]
pub struct Held<'n, K> {
    pub net: Net<'n, K>,
    pub model: Model,
    pub tally: &'n mut Tally,
}

impl<'n, K: Sample> Held<'n, K> {
    pub fn over(
        heap: Global,
        cells: &'n mut [Cell<K>],
        tally: &'n mut Tally,
    ) -> Result<Held<'n, K>, AllocError> {
        Ok(Held {
            model: Model::new(heap, cells.len())?,
            net: Net::make(cells),
            tally,
        })
    }

    pub fn begin(&mut self, n: usize) -> Result<(), AllocError> {
        let told = expected(self.model.begin(n))?;
        let answer = self.net.begin(n);
        self.tally.answer(told, answer, "begin");
        Ok(())
    }

    pub fn require(&mut self, demand: Demand) {
        let Demand {
            from,
            to,
            number,
            mark,
        } = demand;
        let bound = K::made(number, mark);
        let told = self.model.require(from, to, bound.told());
        let answer = self.net.require(from, to, bound);
        self.tally.answer(told, answer, "require");
    }

    pub fn withdraw(&mut self, i: usize, j: usize) {
        let told = self.model.withdraw(i, j);
        let answer = self.net.withdraw(i, j);
        self.tally.answer(told, answer, "withdraw");
    }

    pub fn arrange(&mut self, list: &[u8]) -> Result<(), AllocError> {
        let told = expected(self.model.arrange(list))?;
        let answer = self.net.arrange(list);
        self.tally.answer(told, answer, "arrange");
        Ok(())
    }

    pub fn rank(&mut self) -> Result<(), AllocError> {
        self.model.rank()?;
        self.net.rank();
        count(&mut self.tally.calls);
        Ok(())
    }

    // Closes the net, and the model by Floyd–Warshall.
    pub fn close(&mut self) -> Result<(), AllocError> {
        let n = self.model.events();
        if n > 0 {
            self.close_short(n - 1)?;
        }
        let mut place = vec![in self.model.heap; UNTOUCHED; n.saturating_add(SPARE)]?;
        let answer = self.net.close(place.as_mut_slice());
        self.model.sums = self.model.bounds.least_sums()?;
        if self.model.sums.is_some() {
            self.compare_counts(answer)?;
            self.tally.agree(is_untouched(place.as_slice()), "place of an accepted close");
            Ok(())
        } else {
            self.compare_loop(answer, place.as_slice());
            self.ask_open()
        }
    }

    // A place one byte too short is refused and left as it is.
    fn close_short(&mut self, room: usize) -> Result<(), AllocError> {
        let mut short = vec![in self.model.heap; UNTOUCHED; room]?;
        let answer = self.net.close(short.as_mut_slice());
        self.tally.refuses(answer, Refusal::PlaceTooShort, "closing with a short place");
        self.tally
            .agree(is_untouched(short.as_slice()), "short place of closing");
        Ok(())
    }

    fn compare_counts(&mut self, answer: Result<Counts, Refusal>) -> Result<(), AllocError> {
        let model = &self.model;
        let plain = recount(model.heap, &model.bounds, model.order.as_slice())?;
        let tally = &mut *self.tally;
        match answer {
            Ok(Counts { width, fill, looks }) => {
                // one by one: each has its own word in the tally
                tally.agree(u64::from(width) == plain.width, "width");
                tally.agree(u64::from(fill) == plain.fill, "fill");
                tally.agree(u64::from(looks) == plain.looks, "looks");
            }
            Err(_) => tally.agree(false, "closing of a net without contradiction"),
        }
        count(&mut tally.closed);
        Ok(())
    }

    fn compare_loop(&mut self, answer: Result<Counts, Refusal>, place: &[u8]) {
        // a `match`: `if let` with `else` is no shorter
        let shown = match answer {
            Err(Refusal::Contradiction(m)) => m,
            _ => 0,
        };
        let events = place.get(..shown).unwrap_or(&[]);
        self.tally.agree(is_loop_under_zero(&self.model.bounds, events), "shown loop");
        self.tally
            .agree(untouched_from(place, shown), "place after the loop");
        count(&mut self.tally.contradictory);
    }

    // Events, bounds in force, ordering, and open or closed.
    pub fn compare_state(&mut self) {
        compare_layout(&self.net, &self.model, self.tally);
        let closed = self.net.is_closed();
        self.tally
            .agree(closed == self.model.sums.is_some(), "open or closed");
    }

    // Asks a closed net for distances, windows, walks and times; an open one refuses to tell them.
    pub fn ask(&mut self) -> Result<(), AllocError> {
        match &self.model.sums {
            Some(sums) => Closed {
                net: &self.net,
                heap: self.model.heap,
                bounds: &self.model.bounds,
                sums,
                tally: self.tally,
            }
            .ask(),
            None => self.ask_open(),
        }
    }

    fn ask_open(&mut self) -> Result<(), AllocError> {
        let n = self.model.events();
        let why = if n == 0 {
            Refusal::NoSuchEvent
        } else {
            Refusal::NotClosed
        };
        let mut place = vec![in self.model.heap; UNTOUCHED; n]?;
        let mut times = vec![in self.model.heap; K::zero(); n]?;
        let tally = &mut *self.tally;
        tally.refuses(self.net.distance(0, 0), why, "distance of an open net");
        tally.refuses(self.net.window(0, 0), why, "window of an open net");
        let walk = self.net.walk(0, 0, place.as_mut_slice());
        tally.refuses(walk, why, "walk of an open net");
        let answer = self.net.times(times.as_mut_slice());
        tally.refuses(answer, Refusal::NotClosed, "times of an open net");
        tally.agree(is_untouched(place.as_slice()), "place of a refused walk");
        Ok(())
    }
}
