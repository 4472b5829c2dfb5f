// Random nets, each laid down, ordered, closed, asked and written.
use super::amount::Sample;
use super::chance::Chance;
use super::drafts::{Family, drafted, shuffled};
use super::held::Held;
use super::sheets::compare_sheet;
use net::net::Net;
use std::alloc::AllocError;

// The ordering stays, is ranked, or is drawn.
fn order_both<K: Sample>(held: &mut Held<'_, K>, chance: &mut Chance) -> Result<(), AllocError> {
    // by the number drawn: the draws must stay as they are
    match chance.below(3) {
        0 => Ok(()),
        1 => held.rank(),
        _ => {
            let list = shuffled(held.model.heap, held.model.events(), chance)?;
            held.arrange(list.as_slice())
        }
    }
}

fn close_and_ask<K: Sample>(held: &mut Held<'_, K>) -> Result<(), AllocError> {
    held.close()?;
    held.compare_state();
    held.ask()
}

// One random net of n events: closed, written into another net, changed in one bound and closed again.
pub fn try_net<K: Sample>(
    held: &mut Held<'_, K>,
    other: &mut Net<'_, K>,
    family: Family,
    n: usize,
    chance: &mut Chance,
) -> Result<(), AllocError> {
    held.begin(n)?;
    let demands = drafted(held.model.heap, family, n, chance)?;
    for demand in demands.iter() {
        held.require(*demand);
    }
    order_both(held, chance)?;
    held.compare_state();
    held.ask()?;
    close_and_ask(held)?;
    compare_sheet(held, other)?;
    let i = chance.below(n);
    let j = chance.below(n);
    held.withdraw(i, j);
    close_and_ask(held)
}
