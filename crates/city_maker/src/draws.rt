//! Draws of pseudorandom numbers.
ghost use Rattle.std.specs.Prelude.{◌≡◌, ◌+◌, ◌<◌, ℕ};
ghost use Rattle.city_maker.specs.Draws.{draw_at, state_after};

// The linear congruential generator that the C standard gives as an example.
const MULTIPLIER: u64 = 1_103_515_245;

const INCREMENT: u64 = 12_345;

const MODULUS: u64 = 1 << 31;
// The lowest bits are left out, since they repeat soon.
const LOW_BITS: u32 = 16;

/// The draws that are left.
#[derive(Clone, Copy)]
pub struct Draws {
    pub state: u32,
}

impl Draws {
    /// The draws of a seed.
    pub fn new(seed: u32) -> Draws
        ensures { result.state ≡ state_after seed 0 }
    {
        Draws { state: seed }
    }

    /// A number below a bound.
    pub fn draw(&mut self, bound: u32) -> u32
        requires { 0 < bound }
        ensures below { result < bound }
        ensures value { (seed before : ℕ) → self.old.state ≡ state_after seed before
            → result ≡ draw_at seed before bound }
        ensures state { (seed before : ℕ) → self.old.state ≡ state_after seed before
            → self.new.state ≡ state_after seed (before + 1) }
    {
        self.state = ((MULTIPLIER * u64::from(self.state) + INCREMENT) % MODULUS) as u32;
        (self.state >> LOW_BITS) % bound
    }
}
