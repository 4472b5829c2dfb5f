// The members of a set of marks as a list, which is quicker to visit again and again.
ghost use Rattle.std.specs.Prelude.{◌≡◌, ◌≤◌, true, length};
ghost use Rattle.marks.specs.Sets.{has};
ghost use Rattle.eliminator.specs.Members.{Lists};

use marks::set::Marks;

// Writes the members at the start of the ranks, and tells how many they are. There is no heap to put them on.
pub fn list(mine: Marks, ranks: &mut [u8]) -> usize
    requires { 128 ≤ length ranks.old }
    ensures long { length ranks.new ≡ length ranks.old }
    ensures few { result ≤ 128 }
    ensures lists { Lists (λ q. has mine q ≡ true) ranks.new result }
{
    // counted by hand: the count is what is told at the end
    let mut m = 0;
    for rank in mine.members() {
        ranks[m] = rank as u8;
        m += 1;
    }
    m
}

// Lists the members in the place, and tells that part of it.
pub fn listed<'r>(mine: Marks, place: &'r mut [u8]) -> &'r [u8]
    requires { 128 ≤ length place.old }
    ensures { Lists (λ q. has mine q ≡ true) result.now (length result.now) }
{
    let count = list(mine, place);
    &place[..count]
}
