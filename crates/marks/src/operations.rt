// Sets of marks made, joined, counted and visited; what each holds is said of every number.
ghost use Rattle.std.specs.Prelude.{◌≡◌, ℕ, ◌<◌, ◌≤◌, true, false, not, ◌&&◌, ◌||◌, MatchOption, ◌==◌, nat_lt};
ghost use Rattle.marks.specs.Sets.{has, how_many, lowest_of, Visits};

use super::members::Members;
use super::set::Marks;

impl Marks {
    // Not by `Default`: the name says more.
    pub fn none() -> Marks
        ensures { (q : ℕ) → has result q ≡ false }
    {
        Marks { digits: 0 }
    }

    // By halves, since a shift of 128 digits by a number that is not known beforehand is slow.
    pub fn only(event: usize) -> Marks
        requires { event < 128 }
        ensures { (q : ℕ) → has result q ≡ (q == event) }
    {
        // `as` in this file only widens
        let half = (1u64 << (event % 64)) as u128;
        if event < 64 {
            Marks { digits: half }
        } else {
            Marks { digits: half << 64 }
        }
    }

    // All events below n.
    // a plain number: a type of those up to 128 would only move the test to the callers
    pub fn all_below(n: usize) -> Marks
        requires { n ≤ 128 }
        ensures { (q : ℕ) → has result q ≡ nat_lt q n }
    {
        if n == 128 {
            return Marks { digits: u128::MAX };
        }
        Marks {
            digits: (1 << n) - 1,
        }
    }

    // The events below n for which the test holds.
    pub fn of<F: Fn(usize) -> bool + Drop>(n: usize, test: F) -> Marks
        requires few { n ≤ 128 }
        requires asked { (q : ℕ) → q < n → F.pre test q }
        ensures inside { (q : ℕ) → q < n → F.post test q (has result q) }
        ensures outside { (q : ℕ) → n ≤ q → has result q ≡ false }
    {
        let mut marks = Marks::none();
        for event in 0..n {
            if test(event) {
                marks = marks.with(event);
            }
        }
        marks
    }

    pub fn contains(self, event: usize) -> bool
        ensures { result ≡ has self event }
    {
        event < 128 && (self.digits >> event) & 1 == 1
    }

    // Named, and not `|`, `&` and `-`: the names say what is meant of sets.
    #[tactic(auto, using(crate::proofs::Digits::has_or))]
    pub fn union(self, other: Marks) -> Marks
        ensures { (q : ℕ) → has result q ≡ (has self q || has other q) }
    {
        Marks {
            digits: self.digits | other.digits,
        }
    }

    #[tactic(auto, using(crate::proofs::Digits::has_and))]
    pub fn intersection(self, other: Marks) -> Marks
        ensures { (q : ℕ) → has result q ≡ (has self q && has other q) }
    {
        Marks {
            digits: self.digits & other.digits,
        }
    }

    #[tactic(auto, using(crate::proofs::Digits::has_minus))]
    pub fn difference(self, other: Marks) -> Marks
        ensures { (q : ℕ) → has result q ≡ (has self q && not (has other q)) }
    {
        Marks {
            digits: self.digits & !other.digits,
        }
    }

    pub fn with(self, event: usize) -> Marks
        requires { event < 128 }
        ensures { (q : ℕ) → has result q ≡ (has self q || q == event) }
    {
        self.union(Marks::only(event))
    }

    pub fn without(self, event: usize) -> Marks
        ensures { (q : ℕ) → has result q ≡ (has self q && not (q == event)) }
    {
        if event < 128 {
            self.difference(Marks::only(event))
        } else {
            self
        }
    }

    #[tactic(auto, using(crate::proofs::Digits::marks_counted))]
    pub fn count(self) -> u32
        ensures value { result ≡ how_many (has self) 128 }
        ensures bounded { result ≤ 128 }
    {
        self.digits.count_ones()
    }

    // The lowest event marked.
    pub fn first(self) -> Option<usize>
        ensures value { result ≡ lowest_of (has self) 128 }
        ensures least { MatchOption result ((q : ℕ) → has self q ≡ false) (λ e. (e < 128) × (has self e ≡ true) × ((q : ℕ) → q < e → has self q ≡ false)) }
    {
        if self.digits == 0 {
            return None;
        }
        Some(self.digits.trailing_zeros() as usize)
    }

    // Takes the lowest event out.
    #[tactic(auto, using(crate::proofs::Digits::popped))]
    pub fn pop_first(&mut self) -> Option<usize>
        ensures { Visits self.old result self.new }
    {
        let event = self.first()?;
        self.digits &= self.digits - 1;
        Some(event)
    }

    // An iterator over the events marked, from the lowest up.
    pub fn members(self) -> Members
        ensures { result.rest ≡ self }
    {
        Members { rest: self }
    }
}
