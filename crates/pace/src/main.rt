// One close of 128 events against Floyd–Warshall over the same numbers, for several shapes of net.
// Without a word, it says whether both agree. With the word `time` it tells by how much one close is faster.
// With a shape's name and `build`, `close` or `floyd`, it does that once, for a counter of instructions.
#![tactic(auto)]

mod floyd;
mod shapes;

use floyd::Square;
use kinds::micros::Micros;
use net::net::Net;
use net::refusal::Refusal;
use order::counts::Counts;
use shapes::{Demand, EVENTS, SHAPES, Shape, drafted};
use std::env;
use std::rt::{Clock, Env};
use std::time::Instant;
use table::grid::blank;

const ROUNDS: usize = 40;

// Lays the bounds down and ranks the events.
fn lay(net: &mut Net<'_, Micros>, demands: &[Demand]) -> Result<(), Refusal> {
    net.begin(EVENTS)?;
    for demand in demands {
        net.require(demand.from, demand.to, Micros(demand.bound))?;
    }
    net.rank();
    Ok(())
}

fn agree(net: &Net<'_, Micros>, square: &Square) -> bool {
    (0..EVENTS).all(|i| {
        (0..EVENTS).all(|j| {
            net.distance(i, j).is_ok_and(|distance| distance.map(|micros| micros.0)
                == square.at(i, j))
        })
    })
}

fn compare(rt: &(impl Print + AllocGlobal), shape: Shape) -> anyhow::Result<()> {
    let heap = rt.alloc();
    let demands = drafted(heap, shape)?;
    let mut cells = vec![in heap; blank(); EVENTS * EVENTS]?;
    let mut net = Net::make(cells.as_mut_slice());
    let mut square = Square::of_bounds(heap, demands.as_slice())?;
    let laid = lay(&mut net, demands.as_slice());
    square.close();
    let bounds = demands.len();
    match net.close(&mut [0; EVENTS]) {
        Ok(Counts { width, fill, looks }) => {
            let verdict = if laid.is_ok() && agree(&net, &square) {
                "agrees"
            } else {
                "differs"
            };
            println!(rt;
                "{shape}: {bounds} bounds, width {width}, fill {fill}, looks {looks}, {verdict}"
            )?;
        }
        Err(_) => println!(rt; "{shape}: refused")?,
    }
    Ok(())
}

// A bool, since it is printed as one; `compare` tells the rest.
fn close_once(net: &mut Net<'_, Micros>) -> bool {
    net.close(&mut [0; EVENTS]).is_ok()
}

// How long the work takes, in nanoseconds.
fn timed<F: FnOnce()>(rt: &impl Clock, work: F) -> anyhow::Result<u128>
    requires { F.IsAlwaysCallable work }
{
    let start = Instant::now(rt)?;
    work();
    Ok(start.elapsed(rt)?.as_nanos())
}

// The least time of several rounds, so that other work on the machine counts little.
fn least<F: FnMut() -> anyhow::Result<u128>>(mut round: F) -> anyhow::Result<u128>
    requires { F.IsAlwaysCallable round }
{
    let mut least = u128::MAX;
    for _ in 0..ROUNDS {
        least = least.min(round()?);
    }
    Ok(least)
}

fn time_close(rt: &(impl Clock + AllocGlobal), demands: &[Demand]) -> anyhow::Result<u128> {
    let mut cells = vec![in rt.alloc(); blank(); EVENTS * EVENTS]?;
    let mut net = Net::make(cells.as_mut_slice());
    // whether all is accepted is told by `compare`
    let _ = lay(&mut net, demands);
    least(|| timed(rt, || {
        let _ = close_once(&mut net);
    }))
}

fn time_floyd(rt: &(impl Clock + AllocGlobal), demands: &[Demand]) -> anyhow::Result<u128> {
    least(|| {
        let mut square = Square::of_bounds(rt.alloc(), demands)?;
        timed(rt, || square.close())
    })
}

fn time(rt: &(impl Print + Clock + AllocGlobal), shape: Shape) -> anyhow::Result<()> {
    let demands = drafted(rt.alloc(), shape)?;
    let close = time_close(rt, demands.as_slice())?;
    let floyd = time_floyd(rt, demands.as_slice())?;
    // by division: a ratio of whole numbers has no Display
    let hundredths = floyd.wrapping_mul(100) / close.max(1);
    let whole = hundredths / 100;
    let part = hundredths % 100;
    println!(rt; "{shape}: Floyd-Warshall takes {whole}.{part:02} times as long as one close")?;
    Ok(())
}

// What is to be done once, to have its instructions counted.
// Clone and Copy alone: nothing compares or prints a task.
#[derive(Clone, Copy)]
enum Task {
    Build,
    Close,
    Floyd,
}

impl From<&str> for Task {
    fn from(word: &str) -> Task {
        match word {
            "close" => Task::Close,
            "floyd" => Task::Floyd,
            _ => Task::Build,
        }
    }
}

fn once(rt: &(impl Print + AllocGlobal), shape: Shape, task: Task) -> anyhow::Result<()> {
    let heap = rt.alloc();
    let demands = drafted(heap, shape)?;
    let mut cells = vec![in heap; blank(); EVENTS * EVENTS]?;
    let mut net = Net::make(cells.as_mut_slice());
    let mut square = Square::of_bounds(heap, demands.as_slice())?;
    let laid = lay(&mut net, demands.as_slice()).is_ok();
    let done = match task {
        Task::Build => laid,
        Task::Close => close_once(&mut net),
        Task::Floyd => {
            square.close();
            laid
        }
    };
    // 0 where there is no walk: it is printed so that no work is left out
    let far = square.at(0, 127).unwrap_or(0);
    println!(rt; "{done} {far}")?;
    Ok(())
}

fn run(rt: &(impl Print + Clock + Env + AllocGlobal)) -> anyhow::Result<()> {
    let mut words = env::args(rt)?.skip(1);
    let name = words.next();
    let task = words.next();
    for shape in SHAPES {
        // asked for each of six shapes: a closure for each of the three runs would be longer
        match (&name, &task) {
            (None, _) => compare(rt, shape)?,
            (Some(_), None) => time(rt, shape)?,
            (Some(name), Some(task)) => {
                // by name: a word that names no shape prints nothing
                if name.as_str() == shape.name() {
                    once(rt, shape, Task::from(task.as_str()))?;
                }
            }
        }
    }
    Ok(())
}

fn main(rt: HostRuntime) -> anyhow::Result<()> {
    run(&rt)
}
