// The listing of a sheet.
ghost use Rattle.std.specs.Prelude.{◌≤◌, length};
ghost use Rattle.net.specs.Refusals.{answered};
ghost use Rattle.listing.specs.Listings.{Listed, NetListed};
ghost use Rattle.listing.specs.Asked.{Kept, state_of};

use super::asking::{ClosedNet, close};
use kinds::kind::Kind;
use kinds::micros::Micros;
use lines::line::Line;
use lines::writing::{CountsLine, FaultLine, write_contradiction};
use net::net::Net;
use net::refusal::Refusal;
use sheet::reading::read;
use table::grid::blank;

// The cells of the listing's own table: enough for 32 events.
pub const OWN_CELLS: usize = 1024;

// The longest sheet that is read, and the shortest place that is written to.
pub const LONGEST_SHEET: usize = 16384;

pub const SHORTEST_PLACE: usize = 32768;

// The fault of a sheet that is too long; it lies in the bytes.
const TOO_LONG: FaultLine = FaultLine {
    number: 27,
    layer: 1,
    offset: 0,
};

// The counts and the windows of a net, or the loop that contradicts, at the front of the place.
fn list(net: &mut Net<Micros>, place: &mut [u8]) -> usize
    requires kept { Kept net.old }
    requires few { (state_of net.old).events ≤ 32 }
    requires room { 32768 ≤ length place.old }
    ensures { NetListed (state_of net.old) place.old place.new result }
{
    // the close fills a place and tells a number, which is cut off at once
    let mut events = [0u8; 128];
    match close(net, &mut events) {
        Ok(counts) => {
            let line = CountsLine {
                width: counts.width,
                fill: counts.fill,
                looks: counts.looks,
            };
            let at = line.write(place).unwrap();
            at + ClosedNet { net }.write_windows(&mut place[at..])
        }
        Err(why) => write_contradiction(place, &events[..why.shown]).unwrap(),
    }
}

// Reads a sheet of whole microseconds and writes its listing at the front of the place: the length is told.
// The rest of the place is left as it was. Too short a place is refused.
pub fn listing(sheet: &[u8], place: &mut [u8]) -> Result<usize, Refusal>
    ensures { Listed sheet.now place.old place.new (answered result) }
{
    if place.len() < SHORTEST_PLACE {
        return Err(Refusal::PlaceTooShort);
    }
    if sheet.len() > LONGEST_SHEET {
        return Ok(TOO_LONG.write(place).unwrap());
    }
    let mut cells = [blank(); OWN_CELLS];
    let mut net = Net::make(&mut cells);
    match read(&mut net, sheet) {
        Ok(()) => Ok(list(&mut net, place)),
        Err(fault) => {
            let line = FaultLine {
                number: fault.number(),
                layer: fault.layer().number(),
                offset: fault.offset(),
            };
            Ok(line.write(place).unwrap())
        }
    }
}
