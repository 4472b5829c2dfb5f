// Random successions of calls on one net, some of them refused.
use super::amount::Sample;
use super::bytes::sheet_of;
use super::chance::Chance;
use super::drafts::{Demand, FAMILIES, Family, drafted, shuffled};
use super::failure::expected;
use super::held::Held;
use super::model::{LIMIT, MOST_EVENTS, Model};
use super::sheets::{compare_read, damage};
use std::alloc::AllocError;

const CALLS: usize = 60;

// An event of the net, or now and then one past its end.
fn some_event(model: &Model, chance: &mut Chance) -> usize {
    let n = model.events();
    if chance.in_hundred(4) {
        n.saturating_add(chance.below(3))
    } else {
        chance.below(n)
    }
}

fn some_demand(model: &Model, chance: &mut Chance) -> Demand {
    let number = match chance.below(24) {
        0 => LIMIT + 1,
        1 => -LIMIT - 1,
        2 => LIMIT,
        3 | 4 => chance.between(-60, 0),
        _ => chance.between(-5, 100),
    };
    Demand {
        from: some_event(model, chance),
        to: some_event(model, chance),
        number,
        mark: chance.between(-1, 1),
    }
}

// An ordering of the events, or one with a slip.
fn some_list(model: &Model, chance: &mut Chance) -> Result<Vec<u8>, AllocError> {
    let mut list = shuffled(model.heap, model.events(), chance)?;
    // by the number drawn, as in call_both
    match chance.below(8) {
        0 => list.push(0)?,
        1 => {
            // one event too few, whichever it is
            let _ = list.pop();
        }
        2 => {
            let at = chance.below(list.len());
            if let Some(entry) = list.get_mut(at) {
                *entry = chance.byte() % 16;
            }
        }
        _ => {}
    }
    Ok(list)
}

fn some_family(chance: &mut Chance) -> Family {
    let at = chance.below(FAMILIES.len());
    FAMILIES.get(at).copied().unwrap_or(Family::Sparse)
}

// The sheet of a random net, sound or damaged.
fn some_sheet<K: Sample>(model: &Model, chance: &mut Chance) -> Result<Vec<u8>, AllocError> {
    let n = chance.below(8).saturating_add(1);
    let mut drawn = Model::new(model.heap, n.saturating_mul(n))?;
    // accepted: there are from 1 to 8 events, and a cell for each pair
    let _ = expected(drawn.begin(n))?;
    let demands = drafted(model.heap, some_family(chance), n, chance)?;
    for demand in demands.iter() {
        let bound = K::made(demand.number, demand.mark);
        // what is refused is left out of the sheet
        let _ = drawn.require(demand.from, demand.to, bound.told());
    }
    drawn.rank()?;
    let mut bytes = sheet_of::<K>(&drawn)?;
    damage(&mut bytes, chance)?;
    Ok(bytes)
}

fn some_size(chance: &mut Chance) -> usize {
    match chance.below(12) {
        0 => 0,
        1 => MOST_EVENTS,
        2 => MOST_EVENTS + 1,
        _ => chance.below(14).saturating_add(1),
    }
}

fn call_both<K: Sample>(held: &mut Held<'_, K>, chance: &mut Chance) -> Result<(), AllocError> {
    if held.model.events() == 0 && chance.in_hundred(60) {
        return held.begin(some_size(chance));
    }
    // by the number drawn: an enum of steps would have the same arms, and the draws must stay as they are
    match chance.below(32) {
        0 => held.begin(some_size(chance)),
        1..=2 => {
            let list = some_list(&held.model, chance)?;
            held.arrange(list.as_slice())
        }
        3 => held.rank(),
        4 => {
            let bytes = some_sheet::<K>(&held.model, chance)?;
            compare_read(held, bytes.as_slice())
        }
        5..=8 => held.close(),
        9..=11 => held.ask(),
        12..=17 => {
            let i = some_event(&held.model, chance);
            let j = some_event(&held.model, chance);
            held.withdraw(i, j);
            Ok(())
        }
        _ => {
            let demand = some_demand(&held.model, chance);
            held.require(demand);
            Ok(())
        }
    }
}

// The state agrees after every call.
pub fn try_succession<K: Sample>(
    held: &mut Held<'_, K>,
    chance: &mut Chance,
) -> Result<(), AllocError> {
    held.compare_state();
    for _ in 0..CALLS {
        call_both(held, chance)?;
        held.compare_state();
    }
    held.ask()
}
