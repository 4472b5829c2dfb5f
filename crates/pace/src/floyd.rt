// Floyd–Warshall over whole numbers, row by row. A close is measured against it, so it is pace's own and not the
// trial's, which is for other numbers: a change there would move what is measured here. Places and sums wrap, since no
// contract bounds them; those of the shapes are small.
use super::shapes::{Demand, EVENTS};
use std::alloc::{AllocError, Global};

// The bounds from each event to each, row by row, zero from an event to itself; once closed, the least sums.
#[derive(Drop)]
pub struct Square {
    entries: Vec<Option<i64>>,
}

impl Square {
    pub fn of_bounds(heap: Global, demands: &[Demand]) -> Result<Square, AllocError> {
        let entries = vec![in heap; None; EVENTS * EVENTS]?;
        let mut square = Square { entries };
        for i in 0..EVENTS {
            square.lower(i, i, 0);
        }
        for demand in demands {
            square.lower(demand.from, demand.to, demand.bound);
        }
        Ok(square)
    }

    // events go as plain numbers, as the net takes them
    pub fn at(&self, i: usize, j: usize) -> Option<i64> {
        *self.entries.get(place(i, j))?
    }

    fn lower(&mut self, i: usize, j: usize, bound: i64) {
        if let Some(entry) = self.entries.get_mut(place(i, j)) {
            *entry = lesser(*entry, bound);
        }
    }

    // Each row becomes the lesser of itself and the sums by way of event k, whose row is given.
    fn relax_all(&mut self, k: usize, through: &[Option<i64>]) {
        for row in self.entries.chunks_mut(EVENTS) {
            let front = row.get(k).copied().flatten();
            relax(row, front, through);
        }
    }

    pub fn close(&mut self) {
        for k in 0..EVENTS {
            // with array::from_fn here relax takes a twelfth less time, and the ratios of docs/PACE.md would fall
            let mut through = [None; EVENTS];
            for (j, entry) in through.iter_mut().enumerate() {
                *entry = self.at(k, j);
            }
            self.relax_all(k, &through);
        }
    }
}

fn place(i: usize, j: usize) -> usize {
    i.wrapping_mul(EVENTS).wrapping_add(j)
}

fn lesser(old: Option<i64>, new: i64) -> Option<i64> {
    Some(old.map_or(new, |old| old.min(new)))
}

fn sum(a: Option<i64>, b: Option<i64>) -> Option<i64> {
    Some(a?.wrapping_add(b?))
}

fn relax(row: &mut [Option<i64>], front: Option<i64>, through: &[Option<i64>]) {
    for (entry, back) in row.iter_mut().zip(through) {
        if let Some(by) = sum(front, *back) {
            *entry = lesser(*entry, by);
        }
    }
}
