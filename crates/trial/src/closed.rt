// A closed net is asked for distances, windows, walks and times.
use super::amount::{Amount, Sample};
use super::compare::{UNTOUCHED, is_least_walk, is_untouched, untouched_from};
use super::held::SPARE;
use super::matrix::Matrix;
use super::tally::{Tally, count};
use net::net::Net;
use net::refusal::Refusal;
use std::alloc::{AllocError, Global};

// A closed net, the bounds in force, and the least sums that it is held to.
#[derive(Drop)]
pub struct Closed<'c, 'n, K> {
    pub net: &'c Net<'n, K>,
    pub heap: Global,
    pub bounds: &'c Matrix,
    pub sums: &'c Matrix,
    pub tally: &'c mut Tally,
}

impl<K: Sample> Closed<'_, '_, K> {
    pub fn ask(&mut self) -> Result<(), AllocError> {
        self.compare_pairs()?;
        self.compare_times()?;
        self.compare_outside()
    }

    fn compare_pairs(&mut self) -> Result<(), AllocError> {
        let n = self.bounds.size();
        let mut place = vec![in self.heap; UNTOUCHED; n.saturating_add(SPARE)]?;
        for i in 0..n {
            for j in 0..n {
                self.compare_distance(i, j);
                place.fill(UNTOUCHED);
                let answer = self.net.walk(i, j, place.as_mut_slice());
                self.compare_walk(i, j, answer, place.as_slice());
            }
        }
        Ok(())
    }

    fn compare_distance(&mut self, i: usize, j: usize) {
        let most = self.sums.at(i, j);
        let least = self.sums.at(j, i).map(|sum| -sum);
        let agrees = self
            .net
            .distance(i, j)
            .is_ok_and(|distance| distance.map(K::told) == most);
        self.tally.agree(agrees, "distance");
        count(&mut self.tally.distances);
        let agrees = self.net.window(i, j).is_ok_and(|(low, high)| low.map(K::told) == least
            && high.map(K::told) == most);
        self.tally.agree(agrees, "window");
    }

    fn compare_walk(
        &mut self,
        i: usize,
        j: usize,
        answer: Result<Option<usize>, Refusal>,
        place: &[u8],
    ) {
        let sum = self.sums.at(i, j);
        match answer {
            Ok(Some(length)) => {
                let events = place.get(..length).unwrap_or(&[]);
                self.tally.agree(sum.is_some(), "walk where there is none");
                let least = is_least_walk(self.bounds, self.sums, i, j, events);
                self.tally.agree(least, "walk");
                self.tally
                    .agree(untouched_from(place, length), "place after the walk");
                count(&mut self.tally.walks);
            }
            Ok(None) => {
                self.tally.agree(sum.is_none(), "missing walk");
                self.tally
                    .agree(is_untouched(place), "place of a missing walk");
            }
            Err(_) => self.tally.agree(false, "refused walk"),
        }
    }

    fn compare_times(&mut self) -> Result<(), AllocError> {
        let n = self.bounds.size();
        let marker = K::made(77, 7);
        let mut place = vec![in self.heap; marker; n.saturating_add(SPARE)]?;
        let answer = self.net.times(place.as_mut_slice());
        self.tally.agree(answer.is_ok(), "times");
        let told: Vec<Amount> = place.iter().copied().map(K::told).collect(self.heap)?;
        let times = told.get(..n).unwrap_or(&[]);
        for (j, time) in times.iter().enumerate() {
            self.tally
                .agree(Some(*time) == least_to(self.sums, j), "time of an event");
        }
        let untouched = told.iter().skip(n).all(|time| *time == marker.told());
        self.tally.agree(untouched, "place after the times");
        self.tally.agree(
            keeps_bounds(times, self.bounds),
            "times that keep every bound",
        );
        Ok(())
    }

    // Questions about no event, and places that are too short.
    fn compare_outside(&mut self) -> Result<(), AllocError> {
        let n = self.bounds.size();
        if n == 0 {
            return Ok(());
        }
        let mut place = vec![in self.heap; UNTOUCHED; n - 1]?;
        let mut times = vec![in self.heap; K::zero(); n - 1]?;
        let tally = &mut *self.tally;
        tally.refuses(
            self.net.distance(n, 0),
            Refusal::NoSuchEvent,
            "distance from no event",
        );
        tally.refuses(
            self.net.distance(0, n),
            Refusal::NoSuchEvent,
            "distance to no event",
        );
        tally.refuses(
            self.net.window(n, 0),
            Refusal::NoSuchEvent,
            "window of no event",
        );
        let answer = self.net.walk(0, n, place.as_mut_slice());
        tally.refuses(answer, Refusal::NoSuchEvent, "walk to no event");
        let answer = self.net.walk(0, 0, place.as_mut_slice());
        tally.refuses(answer, Refusal::PlaceTooShort, "walk with a short place");
        let answer = self.net.times(times.as_mut_slice());
        tally.refuses(answer, Refusal::PlaceTooShort, "times with a short place");
        tally.agree(is_untouched(place.as_slice()), "short place of a walk");
        Ok(())
    }
}

fn least_to(sums: &Matrix, j: usize) -> Option<Amount> {
    (0..sums.size()).filter_map(|i| sums.at(i, j)).min()
}

// No bound asks for more than the times leave.
fn keeps_bounds(times: &[Amount], bounds: &Matrix) -> bool {
    times.iter().zip(bounds.rows()).all(|(start, row)| {
        row.iter().zip(times).all(|(bound, time)| bound.is_none_or(|bound| *time <= *start + bound))
    })
}
