// Reads a sheet of whole microseconds from standard input and prints its listing.
#![tactic(auto)]

use listing::listing::{SHORTEST_PLACE, listing};
use std::io;
use std::io::{Read, Write};

fn main(rt: HostRuntime) -> io::Result<()> {
    let mut sheet = Vec::new(rt.alloc());
    rt.stdin().read_to_end(&mut sheet)?;
    let mut place = [0u8; SHORTEST_PLACE];
    // a length, as hosts in C get it
    let length = listing(&sheet, &mut place).unwrap();
    rt.stdout().write_all(&place[..length])
}
