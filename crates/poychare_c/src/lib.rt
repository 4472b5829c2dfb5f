// The symbol that a host in C links: the listing of a sheet.
#![tactic(auto)]

ghost use Rattle.poychare.specs.Handed.{Handed};

// Lists the sheet at the front of the place, and answers the length of the listing or -5.
// In C each of the two slices is a pointer and a length.
// The same call once more, since only a static library has symbols for C; a number, since C has no Result.
#[unsafe(no_mangle)]
pub extern "C" fn poychare_listing(sheet: &[u8], place: &mut [u8]) -> i64
    ensures { Handed sheet.now place.old place.new result }
{
    poychare::poychare_listing(sheet, place)
}
