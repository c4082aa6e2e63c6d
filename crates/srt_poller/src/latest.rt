//! The greatest timestamp of a poller's source.

ghost use Rattle.std.specs.Prelude.{◌≡◌, ◌<◌, ◌^◌, max};

/// The greatest timestamp of the source, in microseconds; 0 if it has returned none.
#[derive(Clone, Copy)]
pub(crate) struct Latest {
    /// The timestamp, below 2^62.
    pub(crate) moment: u64,
    ghost timely: { moment < 2 ^ 62 },
}

impl Latest {
    /// Takes the timestamp of a datagram into account.
    #[inline(always)]
    pub(crate) fn see(&mut self, moment: u64)
        requires { moment < 2 ^ 62 }
        ensures { self.new.moment ≡ max self.old.moment moment }
    {
        *self = Latest {
            moment: self.moment.max(moment),
        };
    }
}
