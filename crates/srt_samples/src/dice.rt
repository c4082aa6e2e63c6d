//! Random numbers of tests.

ghost use Rattle.std.specs.Prelude.{◌≡◌};
ghost use Rattle.srt_samples.specs.Dice.{next_state, number_below, state_of};

/// A linear congruential generator: the same seed gives the same numbers. `Clone` repeats the numbers that follow.
#[derive(Clone, Copy)]
pub struct Dice {
    state: u64,
}

impl Dice {
    /// Returns the generator with this seed.
    pub fn new(seed: u64) -> Dice
        ensures { state_of result ≡ seed }
    {
        Dice { state: seed }
    }

    /// Returns the next number below `count`; 0 if `count` is 0.
    pub fn below(&mut self, count: u32) -> u32
        ensures state { state_of self.new ≡ next_state (state_of self.old) }
        ensures number { result ≡ number_below count (state_of self.new) }
    {
        self.state = self
            .state
            .wrapping_mul(6364136223846793005)
            .wrapping_add(1442695040888963407);
        let high = (self.state >> 33) as u32;
        if count == 0 { 0 } else { high % count }
    }
}
