// Holds nets of both kinds to the trial's own plain computations: limits, random nets, random successions of calls.
#![tactic(auto)]

mod amount;
mod bytes;
mod chance;
mod closed;
mod compare;
mod drafts;
mod failure;
mod faults;
mod graph;
mod held;
mod limits;
mod matrix;
mod model;
mod nets;
mod sheets;
mod successions;
mod tally;

use amount::Sample;
use chance::Chance;
use drafts::{FAMILIES, Family};
use held::Held;
use kinds::micros::Micros;
use kinds::strict::StrictMicros;
use limits::try_limits;
use model::{MOST_CELLS, MOST_EVENTS};
use net::net::Net;
use nets::try_net;
use successions::try_succession;
use table::grid::blank;
use tally::Tally;

// How many nets of each family, and from how many events to how many.
// Clone and Copy alone in this file: nothing compares or prints these values.
#[derive(Clone, Copy)]
struct Group {
    cases: usize,
    least: usize,
    most: usize,
}

const SMALL: Group = Group {
    cases: 400,
    least: 1,
    most: 24,
};

const LARGE: Group = Group {
    cases: 4,
    least: MOST_EVENTS,
    most: MOST_EVENTS,
};

const SUCCESSIONS: usize = 1000;

// A kind's name, and the seed of its random numbers.
#[derive(Clone, Copy)]
struct Draw {
    kind: &'static str,
    seed: u64,
}

const WHOLE: Draw = Draw {
    kind: "whole microseconds",
    seed: 1_001,
};

const STRICT: Draw = Draw {
    kind: "strict microseconds",
    seed: 2_002,
};

fn print_mismatch(
    rt: &impl Print,
    tally: &mut Tally,
    group: &str,
    case: usize,
) -> anyhow::Result<()> {
    if let Some(what) = tally.take_mismatch() {
        println!(rt; "mismatch in {group}, case {case}: {what}")?;
    }
    Ok(())
}

fn run_limits(rt: &(impl Print + AllocGlobal)) -> anyhow::Result<()> {
    let mut tally = Tally::default();
    try_limits(rt.alloc(), &mut tally)?;
    print_mismatch(rt, &mut tally, "limits", 0)?;
    let calls = tally.calls;
    let refused = tally.refused;
    println!(rt; "limits, both kinds: {calls} calls, {refused} refused")?;
    Ok(())
}

fn run_family<K: Sample>(
    rt: &(impl Print + AllocGlobal),
    draw: Draw,
    family: Family,
    group: Group,
) -> anyhow::Result<()> {
    let heap = rt.alloc();
    let Draw { kind, seed } = draw;
    let Group { cases, least, most } = group;
    let mut cells = vec![in heap; blank::<K>(); MOST_CELLS]?;
    let mut others = vec![in heap; blank::<K>(); MOST_CELLS]?;
    let mut tally = Tally::default();
    let mut chance = Chance::seeded(seed);
    let reach = if least < most { "up to " } else { "" };
    let name = format!(in heap; "{cases} {family} of {reach}{most} events")?;
    for case in 0..cases {
        let span = most.saturating_sub(least).saturating_add(1);
        let n = least.saturating_add(chance.below(span));
        let mut held = Held::over(heap, cells.as_mut_slice(), &mut tally)?;
        let mut other = Net::make(others.as_mut_slice());
        try_net(&mut held, &mut other, family, n, &mut chance)?;
        drop(held);
        print_mismatch(rt, &mut tally, name.as_str(), case)?;
    }
    println!(rt; "{name}, {kind}: {tally}")?;
    Ok(())
}

// A table for up to fourteen events, or now and then a smaller one.
fn some_room(chance: &mut Chance) -> usize {
    if chance.in_hundred(80) {
        196
    } else {
        chance.below(196)
    }
}

// No frame for this and `run_family`: here each case has a table of its own size.
// a frame of its own: a family shares two tables, and each succession has one of its own size
fn run_successions<K: Sample>(rt: &(impl Print + AllocGlobal), draw: Draw) -> anyhow::Result<()> {
    let heap = rt.alloc();
    let Draw { kind, seed } = draw;
    let mut tally = Tally::default();
    let mut chance = Chance::seeded(seed);
    let name = format!(in heap; "{SUCCESSIONS} successions of calls")?;
    for case in 0..SUCCESSIONS {
        let mut cells = vec![in heap; blank::<K>(); some_room(&mut chance)]?;
        let mut held = Held::over(heap, cells.as_mut_slice(), &mut tally)?;
        try_succession(&mut held, &mut chance)?;
        drop(held);
        print_mismatch(rt, &mut tally, name.as_str(), case)?;
    }
    println!(rt; "{name}, {kind}: {tally}")?;
    Ok(())
}

fn run_kind<K: Sample>(rt: &(impl Print + AllocGlobal), draw: Draw) -> anyhow::Result<()> {
    for family in FAMILIES {
        run_family::<K>(rt, draw, family, SMALL)?;
        run_family::<K>(rt, draw, family, LARGE)?;
    }
    run_successions::<K>(rt, draw)
}

fn run(rt: &(impl Print + AllocGlobal)) -> anyhow::Result<()> {
    run_limits(rt)?;
    run_kind::<Micros>(rt, WHOLE)?;
    run_kind::<StrictMicros>(rt, STRICT)
}

fn main(rt: HostRuntime) -> anyhow::Result<()> {
    run(&rt)
}
