// A small generator of random numbers, the same run every time. Its steps wrap by design, and between wraps since its
// ends may be any.
ghost use Rattle.std.specs.Prelude.{◌<◌};

#[derive(Drop)]
pub struct Chance {
    state: u64,
}

impl Chance {
    pub fn seeded(seed: u64) -> Chance {
        Chance { state: seed | 1 }
    }

    fn next(&mut self) -> u64 {
        let mut x = self.state;
        x ^= x >> 12;
        x ^= x << 25;
        x ^= x >> 27;
        self.state = x;
        x.wrapping_mul(0x2545_F491_4F6C_DD1D) >> 11
    }

    // A number below n, or 0 where n is 0.
    // Without a `requires`: no contract tells callers that what they draw from is not empty.
    pub fn below(&mut self, n: usize) -> usize
        ensures { 0 < n → result < n }
    {
        if n == 0 {
            return 0;
        }
        self.next() as usize % n
    }

    pub fn byte(&mut self) -> u8 {
        (self.next() & 0xff) as u8
    }

    // A number from low to high.
    pub fn between(&mut self, low: i64, high: i64) -> i64 {
        let span = high.abs_diff(low).wrapping_add(1);
        // the span of all numbers, which is more than a number can say
        if span == 0 {
            return low;
        }
        low.wrapping_add_unsigned(self.next() % span)
    }

    pub fn in_hundred(&mut self, part: usize) -> bool {
        self.below(100) < part
    }
}
