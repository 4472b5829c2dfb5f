// A plain model of a net: the bounds in force, the ordering, and the least sums once closed.
// The limits, calls and refusals of a net once more, on purpose: the net is held to what the trial knows by itself.
use super::amount::{Amount, lesser};
use super::failure::Failure;
use super::graph::ranking;
use super::matrix::Matrix;
use net::refusal::Refusal;
use std::alloc::{AllocError, Global};

pub const MOST_EVENTS: usize = 128;

pub const MOST_CELLS: usize = MOST_EVENTS * MOST_EVENTS;

// The greatest size of a bound.
pub const LIMIT: i64 = 1 << 40;

#[derive(Drop)]
pub struct Model {
    pub heap: Global,
    pub cells: usize,
    pub bounds: Matrix,
    pub order: Vec<u8>,
    pub sums: Option<Matrix>,
}

// An event as a byte: those of a net are below 128.
pub fn event_byte(event: usize) -> u8 {
    (event & 0xff) as u8
}

// The first n events in order.
pub fn events_below(heap: Global, n: usize) -> Result<Vec<u8>, AllocError> {
    (0..n).map(event_byte).collect(heap)
}

fn fits(part: i128) -> bool {
    part.unsigned_abs() <= LIMIT as u128
}

impl Model {
    pub fn new(heap: Global, cells: usize) -> Result<Model, AllocError> {
        Ok(Model {
            heap,
            cells,
            bounds: Matrix::empty(heap, 0)?,
            order: Vec::new(heap),
            sums: None,
        })
    }

    pub fn events(&self) -> usize {
        self.bounds.size()
    }

    pub fn begin(&mut self, n: usize) -> Result<(), Failure<Refusal>> {
        if n == 0 || n > MOST_EVENTS {
            return Err(Refusal::EventsOutOfRange.into());
        }
        if n * n > self.cells {
            return Err(Refusal::TooFewCells.into());
        }
        self.bounds = Matrix::empty(self.heap, n)?;
        self.order = events_below(self.heap, n)?;
        self.sums = None;
        Ok(())
    }

    // events go as plain numbers, as the net takes them
    fn pair(&self, i: usize, j: usize) -> Result<(), Refusal> {
        if i >= self.events() || j >= self.events() {
            return Err(Refusal::NoSuchEvent);
        }
        if i == j {
            return Err(Refusal::SameEvent);
        }
        Ok(())
    }

    pub fn require(&mut self, i: usize, j: usize, bound: Amount) -> Result<(), Refusal> {
        self.pair(i, j)?;
        if !fits(bound.number) || !fits(bound.mark) {
            return Err(Refusal::TooLarge);
        }
        let least = lesser(self.bounds.at(i, j), Some(bound));
        self.bounds.put(i, j, least);
        self.sums = None;
        Ok(())
    }

    pub fn withdraw(&mut self, i: usize, j: usize) -> Result<(), Refusal> {
        self.pair(i, j)?;
        if self.bounds.at(i, j).is_none() {
            return Err(Refusal::NothingToWithdraw);
        }
        self.bounds.put(i, j, None);
        self.sums = None;
        Ok(())
    }

    pub fn arrange(&mut self, list: &[u8]) -> Result<(), Failure<Refusal>> {
        if list.len() != self.events() {
            return Err(Refusal::WrongCount.into());
        }
        let mut order = Vec::new(self.heap);
        for event in list {
            if usize::from(*event) >= self.events() {
                return Err(Refusal::OutsideNet.into());
            }
            if order.contains(event) {
                return Err(Refusal::NamedTwice.into());
            }
            order.push(*event)?;
        }
        self.order = order;
        self.sums = None;
        Ok(())
    }

    pub fn rank(&mut self) -> Result<(), AllocError> {
        self.order = ranking(self.heap, &self.bounds)?;
        self.sums = None;
        Ok(())
    }
}
