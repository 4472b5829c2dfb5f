// The members of a set of marks, from the lowest up.
ghost use Rattle.std.specs.Iterator.{at_most};
ghost use Rattle.marks.specs.Sets.{has, how_many, Visits};

use super::set::Marks;

#[derive(Drop)]
pub struct Members {
    pub rest: Marks,
}

impl Iterator for Members {
    type Item = usize;

    ghost next_gives = { λ s r t. Visits s.rest r t.rest };

    ghost remaining = { λ s. at_most (how_many (has s.rest) 128) };

    fn next(&mut self) -> Option<usize> {
        self.rest.pop_first()
    }
}
