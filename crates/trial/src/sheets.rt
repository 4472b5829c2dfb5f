// Sheets written by a net and read into another, and damaged sheets.
use super::amount::Sample;
use super::bytes::{read_plainly, sheet_of};
use super::chance::Chance;
use super::compare::{UNTOUCHED, compare_layout, is_untouched, untouched_from};
use super::failure::expected;
use super::faults::PlainFault;
use super::held::{Held, SPARE};
use super::tally::count;
use net::net::Net;
use net::refusal::Refusal;
use sheet::reading::read;
use sheet::writing::write;
use std::alloc::AllocError;

// The net is written, and read into another net.
pub fn compare_sheet<K: Sample>(
    held: &mut Held<'_, K>,
    other: &mut Net<'_, K>,
) -> Result<(), AllocError> {
    let heap = held.model.heap;
    let bytes = sheet_of::<K>(&held.model)?;
    let sheet = bytes.as_slice();
    let tally = &mut *held.tally;
    let mut short = vec![in heap; UNTOUCHED; sheet.len().saturating_sub(1)]?;
    let answer = write(&held.net, short.as_mut_slice());
    tally.refuses(answer, Refusal::PlaceTooShort, "writing into a short place");
    tally.agree(is_untouched(short.as_slice()), "short place of writing");
    let mut place = vec![in heap; UNTOUCHED; sheet.len().saturating_add(SPARE)]?;
    let written = write(&held.net, place.as_mut_slice());
    tally.agree(
        written.is_ok_and(|length| length == sheet.len()),
        "length of the sheet",
    );
    tally.agree(place.starts_with(sheet), "bytes of the sheet");
    tally.agree(
        untouched_from(place.as_slice(), sheet.len()),
        "place after the sheet",
    );
    tally.agree(read(other, sheet).is_ok(), "reading back");
    compare_layout(other, &held.model, tally);
    tally.agree(!other.is_closed(), "open after reading");
    count(&mut tally.sheets);
    Ok(())
}

// Reads the bytes into the net and plainly.
pub fn compare_read<K: Sample>(held: &mut Held<'_, K>, bytes: &[u8]) -> Result<(), AllocError> {
    let answer = read(&mut held.net, bytes).map_err(PlainFault::from);
    let told = expected(read_plainly::<K>(held.model.heap, held.model.cells, bytes))?;
    count(&mut held.tally.sheets);
    match told {
        Ok(model) => {
            held.tally.answer(Ok(()), answer, "reading a sound sheet");
            held.model = model;
        }
        Err(fault) => held.tally.answer(Err(fault), answer, "fault of a sheet"),
    }
    Ok(())
}

// Damages a sheet in one of several ways, or leaves it.
pub fn damage(bytes: &mut Vec<u8>, chance: &mut Chance) -> Result<(), AllocError> {
    let at = chance.below(bytes.len());
    let byte = chance.byte();
    // by the number drawn: the draws must stay as they are
    match chance.below(8) {
        0 => bytes.truncate(at),
        1 => change(bytes, at, byte),
        2 => change(bytes, chance.below(6), chance.byte() % 4),
        3 => bytes.extend_from_slice(&[0, 3, 1, byte & 7, 1 + byte % 2])?,
        4 => bytes.extend_from_slice(&[byte & 3, byte & 15, byte & 3])?,
        _ => {}
    }
    Ok(())
}

fn change(bytes: &mut [u8], at: usize, byte: u8) {
    if let Some(old) = bytes.get_mut(at) {
        *old = byte;
    }
}
