//! The round-trip time and its variance as computed from samples, and the effect of the first sample
//! (draft-sharabayko-srt-01, section 4.10).

ghost use Rattle.std.specs.Prelude.{◌≡◌, ℕ, ◌≤◌, List, [], ◌∷◌};
ghost use Rattle.srt_types.specs.declared.shared.Callers.{Callers as TheCallers};
ghost use Rattle.srt_timing.specs.RoundTrip.{round_trip_of};

use crate::round_trip::Rtt;
use srt_types::Callers;

/// The effect of a sample on the round-trip time and its variance.
#[derive(Clone, Copy, Debug, PartialEq, Eq)]
pub enum Fold {
    /// The sample becomes the round-trip time, and half of it the variance.
    Replace,
    /// Both values move towards the sample (section 4.10).
    Smooth,
}

/// A round-trip time and its variance that follow samples. No method allocates, and each is O(1).
#[derive(Clone, Copy, Debug, PartialEq, Eq)]
pub struct SampledRtt {
    values: Rtt,
    /// The effect of the next sample.
    next: Fold,
}

impl SampledRtt {
    ghost use Rattle.srt_timing.specs.RoundTrip.{StandsFor, values_of};

    /// Returns the values before the first sample: 100 ms, and a variance of 50 ms. For callers that run libsrt, the
    /// first sample replaces them.
    pub fn start(callers: Callers) -> SampledRtt
        ensures { StandsFor callers result [] }
    {
        SampledRtt {
            values: Rtt::start(),
            next: match callers {
                Callers::Draft => Fold::Smooth,
                Callers::Libsrt => Fold::Replace,
            },
        }
    }

    /// Updates the values with one more sample, in microseconds. For callers that run libsrt, the first sample becomes
    /// the round-trip time, and half of it, rounded down, the variance. Every other sample is smoothed, as
    /// `Rtt::sample` does.
    pub fn sample(&mut self, sample: u64)
        requires { sample ≤ 10_000_000 }
        ensures { (callers : TheCallers) (samples : List ℕ) → StandsFor callers self.old samples → StandsFor callers self.new (sample ∷ samples) }
    {
        match self.next {
            Fold::Replace => self.values.set(sample as u32, (sample / 2) as u32),
            Fold::Smooth => self.values.sample(sample),
        }
        self.next = Fold::Smooth;
    }

    /// Returns the values after all samples so far.
    pub fn values(&self) -> Rtt
        ensures { round_trip_of result ≡ values_of self.now }
    {
        self.values
    }
}
