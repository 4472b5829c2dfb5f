// The nets of the benchmark: 128 events each, all of them free of contradiction.
ghost use Rattle.std.specs.Prelude.{◌<◌};

use std::alloc::{AllocError, Global};
use std::fmt;

// How many events are measured, whatever the limit of a net is.
pub const EVENTS: usize = 128;

// Clone and Copy alone in this file: nothing compares these values.
#[derive(Clone, Copy)]
pub enum Shape {
    // one event after the other
    Chain,
    // a chain of diamonds, each an event, two beside each other, and the next
    Diamonds,
    // each event bound to two earlier ones, rather to those with many bounds
    ScaleFree,
    // a common start in the place of the last step, sixteen jobs of eight steps released and due from it, and eight
    // machines that take the jobs in turn
    JobShop,
    // sixteen jobs of eight steps and eight machines, without a common start
    JobsAlone,
    // all pairs
    Dense,
}

pub const SHAPES: [Shape; 6] = [
    Shape::Chain,
    Shape::Diamonds,
    Shape::ScaleFree,
    Shape::JobShop,
    Shape::JobsAlone,
    Shape::Dense,
];

impl Shape {
    pub fn name(self) -> &'static str {
        match self {
            Shape::Chain => "chain",
            Shape::Diamonds => "diamonds",
            Shape::ScaleFree => "scale-free",
            Shape::JobShop => "job-shop",
            Shape::JobsAlone => "jobs-alone",
            Shape::Dense => "dense",
        }
    }
}

impl fmt::Display for Shape {
    fn fmt<W: fmt::Write>(&self, f: &mut fmt::Formatter<W>) -> fmt::Result {
        f.write_str(self.name())
    }
}

// Pace's own: the trial's demands have a mark besides.
#[derive(Clone, Copy)]
pub struct Demand {
    pub from: usize,
    pub to: usize,
    pub bound: i64,
}

// Bounds under way, with a generator of numbers of its own: another than the trial's, so that the nets that were
// measured stay as they are.
#[derive(Drop)]
struct Draft {
    demands: Vec<Demand>,
    state: u64,
}

impl Draft {
    // A number below n, or 0 where n is 0.
    // The first draw of `popular` is among no bounds.
    fn below(&mut self, n: usize) -> usize
        ensures { 0 < n → result < n }
    {
        let mut x = self.state;
        x ^= x >> 12;
        x ^= x << 25;
        x ^= x >> 27;
        self.state = x;
        let drawn = x.wrapping_mul(0x2545_F491_4F6C_DD1D) >> 33;
        if n == 0 { 0 } else { drawn as usize % n }
    }

    // Bounds out and back, which the times 10, 20, 30, .. of the events keep.
    fn link(&mut self, i: usize, j: usize) -> Result<(), AllocError> {
        if i >= EVENTS || j >= EVENTS || i == j {
            return Ok(());
        }
        // `as`: events are below 128, and what is drawn below 1000
        let apart = (j as i64 - i as i64) * 10;
        let out = apart + self.below(1000) as i64;
        let back = self.below(1000) as i64 - apart;
        self.demands.push(Demand {
            from: i,
            to: j,
            bound: out,
        })?;
        self.demands.push(Demand {
            from: j,
            to: i,
            bound: back,
        })?;
        Ok(())
    }

    fn chain(&mut self) -> Result<(), AllocError> {
        for i in 0..EVENTS {
            self.link(i, i + 1)?;
        }
        Ok(())
    }

    fn diamonds(&mut self) -> Result<(), AllocError> {
        for k in 0..EVENTS / 3 {
            let first = 3 * k;
            let last = first + 3;
            self.link(first, first + 1)?;
            self.link(first, first + 2)?;
            self.link(first + 1, last)?;
            self.link(first + 2, last)?;
        }
        Ok(())
    }

    // An end of a bound drawn among all so far is an event with a chance in proportion to its bounds.
    fn popular(&mut self) -> usize {
        let bounds = self.demands.len();
        let at = self.below(bounds);
        self.demands.get(at).map_or(0, |demand| demand.from)
    }

    fn scale_free(&mut self) -> Result<(), AllocError> {
        for event in 1..EVENTS {
            let one = self.popular();
            let two = self.popular();
            self.link(event, one)?;
            if one != two {
                self.link(event, two)?;
            }
        }
        Ok(())
    }

    // Not one function with `jobs_alone`: here event 0 is the start, bound to each step, and steps count from 1.
    fn job_shop(&mut self) -> Result<(), AllocError> {
        for step in 1..EVENTS {
            self.link(0, step)?;
            if step % 8 != 0 {
                self.link(step, step + 1)?;
            }
        }
        for machine in 1..9 {
            self.machine(machine)?;
        }
        Ok(())
    }

    // A machine takes its step of each job in turn, every fifth job next.
    fn machine(&mut self, machine: usize) -> Result<(), AllocError>
        requires { machine < 16 }
    {
        for turn in 0..15 {
            let job = (machine + 5 * turn) % 16;
            let next = (job + 5) % 16;
            self.link(8 * job + machine, 8 * next + machine)?;
        }
        Ok(())
    }

    fn jobs_alone(&mut self) -> Result<(), AllocError> {
        for step in 0..EVENTS {
            if step % 8 != 7 {
                self.link(step, step + 1)?;
            }
        }
        for machine in 0..8 {
            self.machine(machine)?;
        }
        Ok(())
    }

    fn dense(&mut self) -> Result<(), AllocError> {
        for i in 0..EVENTS {
            for j in 0..i {
                self.link(i, j)?;
            }
        }
        Ok(())
    }
}

pub fn drafted(heap: Global, shape: Shape) -> Result<Vec<Demand>, AllocError> {
    let mut draft = Draft {
        demands: Vec::new(heap),
        state: 20_240,
    };
    // one match: a method of the shape would hold the same arms
    match shape {
        Shape::Chain => draft.chain()?,
        Shape::Diamonds => draft.diamonds()?,
        Shape::ScaleFree => draft.scale_free()?,
        Shape::JobShop => draft.job_shop()?,
        Shape::JobsAlone => draft.jobs_alone()?,
        Shape::Dense => draft.dense()?,
    }
    // by a pattern: so a field is moved out of a value
    let Draft { demands, .. } = draft;
    Ok(demands)
}
