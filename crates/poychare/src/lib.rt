// The entry for hosts: the listing of a sheet. The crate poychare_c exports it to C.
#![tactic(auto)]

ghost use Rattle.poychare.specs.Handed.{Handed};

use listing::listing::listing;

// What a host in C gets where its place is too short: there is no Result across that boundary.
const TOO_SHORT: i64 = -5;

// Lists the sheet at the front of the place, and answers the length of the listing or -5.
pub fn poychare_listing(sheet: &[u8], place: &mut [u8]) -> i64
    ensures { Handed sheet.now place.old place.new result }
{
    // `as`: C takes one signed number, and the length fits it
    listing(sheet, place).map_or(TOO_SHORT, |length| length as i64)
}
