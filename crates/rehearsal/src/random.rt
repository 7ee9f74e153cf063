//! Numbers that look random: xorshift of 64 bits.
ghost use Rattle.std.specs.Prelude.{◌≡◌, ◌<◌};
ghost use Rattle.rehearsal.specs.Random.{seeded, next_of, below_limit};

#[derive(Drop)]
pub struct Random {
    state: u64,
}

impl Random {
    // The sequence of a seed.
    pub fn new(seed: u64) -> Random
        ensures { result.state ≡ seeded seed }
    {
        Random {
            state: seed.wrapping_mul(0x9E3779B97F4A7C15) | 1,
        }
    }

    // The next number.
    pub fn next(&mut self) -> u64
        ensures number { result ≡ next_of self.old.state }
        ensures state { self.new.state ≡ next_of self.old.state }
    {
        let mut x = self.state;
        x ^= x << 13;
        x ^= x >> 7;
        x ^= x << 17;
        self.state = x;
        x
    }

    // The next number, as one below a limit; 0 where the limit is 0.
    pub fn below(&mut self, limit: usize) -> usize
        ensures within { 0 < limit → result < limit }
        ensures number { result ≡ below_limit limit (next_of self.old.state) }
        ensures state { self.new.state ≡ next_of self.old.state }
    {
        let x = self.next() as usize;
        if limit == 0 { 0 } else { x % limit }
    }
}
