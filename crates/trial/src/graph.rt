// Events with their neighbours, taken out one by one: the ranking, and the counts of an elimination step by step.
use super::matrix::Matrix;
use super::model::event_byte;
use std::alloc::{AllocError, Global};

// The trial's own, apart from the net's Counts, which are held to it.
#[derive(Clone, Copy, Default)]
pub struct PlainCounts {
    pub width: u64,
    pub fill: u64,
    pub looks: u64,
}

// The events that are left, each with a mark for every event: whether it is a neighbour. None stands for one taken out.
// marks and no sets of events: in trees of sets the joins took a quarter of the trial
#[derive(Drop)]
struct Graph {
    left: Vec<Option<Vec<bool>>>,
}

impl Graph {
    // Two events are neighbours where a bound is in force in either direction.
    fn of_bounds(heap: Global, bounds: &Matrix) -> Result<Graph, AllocError> {
        let apart = vec![in heap; false; bounds.size()]?;
        let mut graph = Graph {
            left: vec![in heap; Some(apart); bounds.size()]?,
        };
        for (i, row) in bounds.rows().iter().enumerate() {
            for (j, bound) in row.iter().enumerate() {
                if bound.is_some() {
                    graph.join(i, j);
                }
            }
        }
        Ok(graph)
    }

    fn mark(&mut self, i: usize, j: usize, joined: bool) {
        if let Some(Some(marks)) = self.left.get_mut(i) {
            if let Some(mark) = marks.get_mut(j) {
                *mark = joined;
            }
        }
    }

    fn join(&mut self, i: usize, j: usize) {
        self.mark(i, j, true);
        self.mark(j, i, true);
    }

    fn are_joined(&self, i: usize, j: usize) -> bool {
        match self.left.get(i) {
            Some(Some(marks)) => marks.get(j).copied().unwrap_or(false),
            _ => false,
        }
    }

    // Takes an event out and joins its neighbours with each other; tells how many it had, and how many pairs that makes.
    fn take_out(&mut self, heap: Global, event: usize) -> Result<(u64, u64), AllocError> {
        let mut beside = Vec::new(heap);
        for other in 0..self.left.len() {
            if self.are_joined(event, other) {
                self.mark(other, event, false);
                beside.push(other)?;
            }
        }
        if let Some(marks) = self.left.get_mut(event) {
            *marks = None;
        }
        let mut made: u64 = 0;
        for (k, i) in beside.iter().enumerate() {
            for j in beside.iter().take(k) {
                if !self.are_joined(*i, *j) {
                    self.join(*i, *j);
                    made = made.saturating_add(1);
                }
            }
        }
        Ok((beside.len() as u64, made))
    }

    // The first of the events with fewest neighbours left.
    fn fewest_left(&self) -> Option<usize> {
        self.left
            .iter()
            .enumerate()
            .filter_map(|(event, marks)| Some((event, marks.as_ref()?)))
            .min_by_key(|(_, marks)| marks.iter().filter(|joined| **joined).count())
            .map(|(event, _)| event)
    }
}

// The events from rank 1 on, ranks given out from the highest to the event with fewest neighbours left.
pub fn ranking(heap: Global, bounds: &Matrix) -> Result<Vec<u8>, AllocError> {
    let mut graph = Graph::of_bounds(heap, bounds)?;
    let mut order = Vec::new(heap);
    for _ in 0..bounds.size() {
        if let Some(event) = graph.fewest_left() {
            order.push(event_byte(event))?;
            graph.take_out(heap, event)?;
        }
    }
    order.reverse();
    Ok(order)
}

// Width, fill and looks of an elimination in the ordering.
pub fn recount(heap: Global, bounds: &Matrix, order: &[u8]) -> Result<PlainCounts, AllocError> {
    let mut graph = Graph::of_bounds(heap, bounds)?;
    let mut counts = PlainCounts::default();
    for (lower, event) in order.iter().enumerate().rev() {
        let (degree, made) = graph.take_out(heap, usize::from(*event))?;
        counts.width = counts.width.max(degree);
        counts.fill = counts.fill.saturating_add(made);
        counts.looks = counts
            .looks
            .saturating_add(degree.saturating_mul(lower as u64));
    }
    Ok(counts)
}
