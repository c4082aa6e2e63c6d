//! Which of a route's two publisher buffers a publisher's session uses.

ghost use Rattle.std.specs.Prelude.{◌≡◌, ◌<◌};
ghost use Rattle.srt_route.specs.PublisherBuffers.{is_same, other_buffers, place_of};

/// The first or the second of a route's two publisher buffers. Two open publishers use different ones.
#[derive(Clone, Copy, Debug, PartialEq, Eq)]
pub enum PublisherBuffers {
    /// The first buffers.
    First,
    /// The second buffers.
    Second,
}

impl PublisherBuffers {
    /// Returns the index of these buffers in a route's table.
    pub fn place(self) -> usize
        ensures value { result ≡ place_of self }
        ensures below { result < 2 }
    {
        match self {
            PublisherBuffers::First => 0,
            PublisherBuffers::Second => 1,
        }
    }

    /// Returns the other buffers.
    pub fn other(self) -> PublisherBuffers
        ensures { result ≡ other_buffers self }
    {
        match self {
            PublisherBuffers::First => PublisherBuffers::Second,
            PublisherBuffers::Second => PublisherBuffers::First,
        }
    }

    /// Whether both are the same buffers.
    pub fn same_as(self, those: PublisherBuffers) -> bool
        ensures { result ≡ is_same self those }
    {
        match self {
            PublisherBuffers::First => matches!(those, PublisherBuffers::First),
            PublisherBuffers::Second => matches!(those, PublisherBuffers::Second),
        }
    }
}
