// A graph as one set of neighbours for each event: who becomes a neighbour, and who has fewest.
// The sets and the members are no struct, since a caller asks of the same sets with other members each time.
ghost use Rattle.std.specs.Prelude.{◌≡◌, ℕ, ◌<◌, true, false, length, MatchOption};
ghost use Rattle.marks.specs.Sets.{has};
ghost use Rattle.order.specs.Elimination.{joined};
ghost use Rattle.order.specs.Neighbours.{graph_of, free_degree, Chosen};
ghost use Rattle.order.specs.Ranking.{best};

use marks::set::Marks;

// All members become neighbours of each other.
pub fn join(near: &mut [Marks], members: Marks)
    requires { (q : ℕ) → has members q ≡ true → q < length near.old }
    ensures { (i j : ℕ) → graph_of near.new i j ≡ joined (graph_of near.old) (has members) i j }
{
    for event in members.members() {
        near[event] = near[event].union(members.without(event));
    }
}

// The member of `free` with fewest neighbours in it, the lowest among equals.
pub fn fewest(near: &[Marks], free: Marks) -> Option<usize>
    requires { (q : ℕ) → has free q ≡ true → q < length near.now }
    ensures value { result ≡ best (free_degree near.now free) (has free) (length near.now) }
    ensures chosen { MatchOption result ((x : ℕ) → has free x ≡ false) (λ e. Chosen near.now free (length near.now) e) }
{
    free.members()
        .min_by_key(|&event| near[event].intersection(free).count())
}
