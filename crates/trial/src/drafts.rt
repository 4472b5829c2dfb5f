// Random bounds of several families of nets, and random orderings.
// Sums and differences of bounds wrap: some bounds are drawn beyond the limit, up to the ends of their type.
ghost use Rattle.std.specs.Prelude.{◌<◌};

use super::chance::Chance;
use super::model::{LIMIT, events_below};
use std::alloc::{AllocError, Global};
use std::fmt;

// A bound to lay down from one event to another.
// Clone and Copy alone in this file: nothing compares or prints these values.
#[derive(Clone, Copy)]
pub struct Demand {
    pub from: usize,
    pub to: usize,
    pub number: i64,
    pub mark: i64,
}

#[derive(Clone, Copy)]
pub enum Family {
    // most pairs are bounded
    Dense,
    // about two bounds an event
    Sparse,
    // three parts without a bound between them
    Parted,
    // a chain bounded out and back to exactly zero, and chords
    ZeroLoops,
    // bounds of the greatest size
    Extreme,
}

pub const FAMILIES: [Family; 5] = [
    Family::Dense,
    Family::Sparse,
    Family::Parted,
    Family::ZeroLoops,
    Family::Extreme,
];

impl fmt::Display for Family {
    fn fmt<W: fmt::Write>(&self, f: &mut fmt::Formatter<W>) -> fmt::Result {
        f.write_str(match self {
            Family::Dense => "dense nets",
            Family::Sparse => "sparse nets",
            Family::Parted => "parted nets",
            Family::ZeroLoops => "chains of zero loops",
            Family::Extreme => "nets of greatest bounds",
        })
    }
}

// The time and the mark of an event, which bounds without slack keep exactly.
#[derive(Clone, Copy, Default)]
struct Moment {
    time: i64,
    mark: i64,
}

// A draft under way.
#[derive(Drop)]
struct Draft<'c> {
    chance: &'c mut Chance,
    demands: Vec<Demand>,
    moments: Vec<Moment>,
    // whether some bounds ask for too much
    tight: bool,
}

impl<'c> Draft<'c> {
    fn begun(heap: Global, n: usize, chance: &'c mut Chance) -> Result<Draft<'c>, AllocError> {
        let mut moments = Vec::new(heap);
        for _ in 0..n {
            moments.push(Moment {
                time: chance.between(-1000, 1000),
                mark: chance.between(-3, 3),
            })?;
        }
        let tight = chance.in_hundred(35);
        Ok(Draft {
            chance,
            demands: Vec::new(heap),
            moments,
            tight,
        })
    }

    fn moment(&self, event: usize) -> Moment {
        self.moments.get(event).copied().unwrap_or_default()
    }

    fn some_event(&mut self) -> usize {
        self.chance.below(self.moments.len())
    }

    fn demand(&mut self, from: usize, to: usize, number: i64, mark: i64) -> Result<(), AllocError> {
        self.demands.push(Demand {
            from,
            to,
            number,
            mark,
        })?;
        Ok(())
    }

    // A bound that the moments keep with some slack.
    fn with_slack(
        &mut self,
        from: usize,
        to: usize,
        slack: i64,
        mark: i64,
    ) -> Result<(), AllocError> {
        let start = self.moment(from);
        let end = self.moment(to);
        self.demand(
            from,
            to,
            end.time.wrapping_sub(start.time).wrapping_add(slack),
            end.mark.wrapping_sub(start.mark).wrapping_add(mark),
        )
    }

    // A bound with room to spare, or now and then with too little.
    fn loose(&mut self, from: usize, to: usize) -> Result<(), AllocError> {
        let slack = if self.tight && self.chance.in_hundred(6) {
            self.chance.between(-80, 0)
        } else {
            self.chance.between(0, 300)
        };
        let mark = self.chance.between(-1, 1);
        self.with_slack(from, to, slack, mark)
    }

    // So many in a hundred of the pairs within each of so many parts.
    fn pairs(&mut self, parts: usize, share: usize) -> Result<(), AllocError>
        requires { 0 < parts }
    {
        let n = self.moments.len();
        for i in 0..n {
            for j in 0..n {
                if i != j && i % parts == j % parts && self.chance.in_hundred(share) {
                    self.loose(i, j)?;
                }
            }
        }
        Ok(())
    }

    fn sparse(&mut self) -> Result<(), AllocError> {
        for _ in 0..self.moments.len().saturating_mul(2) {
            let i = self.some_event();
            let j = self.some_event();
            self.loose(i, j)?;
        }
        Ok(())
    }

    // Chords keep the zero loops, miss by one, or leave a little.
    fn chord(&mut self) -> Result<(), AllocError> {
        let i = self.some_event();
        let j = self.some_event();
        let too_little = self.tight && self.chance.in_hundred(5);
        if too_little && self.chance.in_hundred(50) {
            return self.with_slack(i, j, -1, 0);
        }
        if too_little {
            return self.with_slack(i, j, 0, -1);
        }
        let slack = self.chance.between(-2, 2).max(0);
        let mark = self.chance.between(0, 1);
        self.with_slack(i, j, slack, mark)
    }

    fn zero_loops(&mut self, row: &[u8]) -> Result<(), AllocError> {
        for [here, next] in row.array_windows::<2>() {
            let here = usize::from(*here);
            let next = usize::from(*next);
            self.with_slack(here, next, 0, 0)?;
            self.with_slack(next, here, 0, 0)?;
        }
        for _ in row {
            self.chord()?;
        }
        Ok(())
    }

    fn extreme_bound(&mut self) -> i64 {
        match self.chance.below(8) {
            0 => -LIMIT,
            1 => self.chance.between(-2, 2),
            2 => LIMIT - 1,
            _ => LIMIT,
        }
    }

    fn over_limit(&mut self) -> i64 {
        match self.chance.below(4) {
            0 => LIMIT + 1,
            1 => -LIMIT - 1,
            2 => i64::MIN,
            _ => i64::MAX,
        }
    }

    // A chain of greatest bounds out and exactly back; where it is tight, one link falls short by one.
    fn extreme_chain(&mut self, row: &[u8]) -> Result<(), AllocError> {
        let short = self.chance.below(row.len());
        for (place, [here, next]) in row.array_windows::<2>().enumerate() {
            let here = usize::from(*here);
            let next = usize::from(*next);
            let mark = self.extreme_bound();
            let lack = i64::from(self.tight && place == short);
            self.demand(here, next, LIMIT - lack, mark)?;
            self.demand(next, here, -LIMIT, mark.wrapping_neg())?;
        }
        Ok(())
    }

    // Further bounds of greatest size lead back along the chain; some are over the limit.
    fn extreme(&mut self, row: &[u8]) -> Result<(), AllocError> {
        self.extreme_chain(row)?;
        for _ in row {
            let to = self.chance.below(row.len());
            let beyond = self.chance.below(row.len().saturating_sub(to));
            let i = event_of(row, to.saturating_add(beyond));
            let j = event_of(row, to);
            if self.chance.in_hundred(60) {
                let number = self.extreme_bound().max(1 - LIMIT);
                let mark = self.extreme_bound();
                self.demand(i, j, number, mark)?;
            } else {
                let over = self.over_limit();
                self.demand(i, j, over, 0)?;
                self.demand(i, j, LIMIT, over)?;
            }
        }
        Ok(())
    }
}

// 0 outside the row, as `moment` has a default: no contract tells that what was drawn lies inside.
fn event_of(row: &[u8], place: usize) -> usize {
    row.get(place).map_or(0, |event| usize::from(*event))
}

// The bounds of a random net of n events.
pub fn drafted(
    heap: Global,
    family: Family,
    n: usize,
    chance: &mut Chance,
) -> Result<Vec<Demand>, AllocError> {
    let mut draft = Draft::begun(heap, n, chance)?;
    let row = shuffled(heap, n, draft.chance)?;
    let row = row.as_slice();
    // one match: a method of the family would hold the same arms
    match family {
        Family::Dense => draft.pairs(1, 70)?,
        Family::Sparse => draft.sparse()?,
        Family::Parted => draft.pairs(3, 50)?,
        Family::ZeroLoops => draft.zero_loops(row)?,
        Family::Extreme => draft.extreme(row)?,
    }
    // by a pattern: so a field is moved out of a value
    let Draft { demands, .. } = draft;
    Ok(demands)
}

// The events in random order.
pub fn shuffled(heap: Global, n: usize, chance: &mut Chance) -> Result<Vec<u8>, AllocError> {
    let mut row = events_below(heap, n)?;
    let places = row.as_mut_slice();
    for i in 0..places.len() {
        let other = chance.below(i + 1);
        places.swap(i, other);
    }
    Ok(row)
}
