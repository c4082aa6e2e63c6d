//! Parts: what an open session is to its route.

ghost use Rattle.std.specs.Prelude.{◌≡◌, ◌&&◌, not};
ghost use Rattle.std.specs.Option.{is_some};
ghost use Rattle.srt_route.specs.PublisherBuffers.{is_same};
ghost use Rattle.srt_route.specs.Sessions.{publishes};
ghost use Rattle.srt_route.specs.Parts.{buffers_used, is_given_up, part_after, part_given_up, part_opened, part_with_end, role_of, saw_end, until_of};

use crate::publisher_buffers::PublisherBuffers;
use srt_types::Role;

/// The part of an open session.
#[derive(Clone, Copy)]
pub enum Part {
    /// A publisher's session.
    Publisher {
        /// Which of the route's two publisher buffers it uses.
        buffers: PublisherBuffers,
    },
    /// A publisher's session that its own SHUTDOWN ended, while something of it is left to deliver.
    Draining {
        /// Which of the route's two publisher buffers it uses.
        buffers: PublisherBuffers,
        /// The time at which it ends if something is still left to deliver, in microseconds.
        until: u64,
    },
    /// A subscriber's session.
    Subscriber {
        /// Whether publishers' sessions ended while this one was open, the last of them by its own SHUTDOWN; on a route
        /// for libsrt callers only.
        file_ended: bool,
        /// Whether it ends as soon as time advances, since it didn't confirm its own key in time.
        given_up: bool,
    },
}

impl Part {
    /// Returns the part of a session that opens: a publisher's with these buffers, or a subscriber's.
    pub fn opened(role: Role, buffers: PublisherBuffers) -> Part
        ensures { result ≡ part_opened role buffers }
    {
        match role {
            Role::Publish => Part::Publisher { buffers },
            Role::Request => Part::Subscriber {
                file_ended: false,
                given_up: false,
            },
        }
    }

    /// Returns the role of the session's caller.
    pub fn role(self) -> Role
        ensures { result ≡ role_of self }
    {
        match self {
            Part::Publisher { .. } => Role::Publish,
            Part::Draining { .. } => Role::Publish,
            Part::Subscriber { .. } => Role::Request,
        }
    }

    /// Whether it is a publisher's session, draining or not.
    pub fn publishes(self) -> bool
        ensures { result ≡ publishes (role_of self) }
    {
        !matches!(self, Part::Subscriber { .. })
    }

    /// Whether it is a publisher's session that sends packets: a draining one sends none.
    pub fn speaks(self) -> bool
        ensures { result ≡ (publishes (role_of self) && not (is_some (until_of self))) }
    {
        matches!(self, Part::Publisher { .. })
    }

    /// Whether the session drains.
    pub fn drains(self) -> bool
        ensures { result ≡ is_some (until_of self) }
    {
        matches!(self, Part::Draining { .. })
    }

    /// Returns the time until which the session drains, in microseconds; None if it doesn't drain.
    pub fn until(self) -> Option<u64>
        ensures { result ≡ until_of self }
    {
        match self {
            Part::Publisher { .. } => None,
            Part::Draining { until, .. } => Some(until),
            Part::Subscriber { .. } => None,
        }
    }

    /// Returns the publisher buffers that the session uses; the first for a subscriber's, which uses none.
    pub fn buffers(self) -> PublisherBuffers
        ensures { result ≡ buffers_used self }
    {
        match self {
            Part::Publisher { buffers } => buffers,
            Part::Draining { buffers, .. } => buffers,
            Part::Subscriber { .. } => PublisherBuffers::First,
        }
    }

    /// Whether it is a publisher's session with these buffers.
    pub fn publishes_from(self, which: PublisherBuffers) -> bool
        ensures { result ≡ (publishes (role_of self) && is_same (buffers_used self) which) }
    {
        match self {
            Part::Publisher { buffers } => buffers.same_as(which),
            Part::Draining { buffers, .. } => buffers.same_as(which),
            Part::Subscriber { .. } => false,
        }
    }

    /// Whether it is a subscriber's session that has recorded the end of a file.
    pub fn saw_end(self) -> bool
        ensures { result ≡ saw_end self }
    {
        match self {
            Part::Publisher { .. } => false,
            Part::Draining { .. } => false,
            Part::Subscriber { file_ended, .. } => file_ended,
        }
    }

    /// Returns the part after a packet: a publisher's session drains from then on, if `drains` is a time.
    pub fn after(self, drains: Option<u64>) -> Part
        ensures { result ≡ part_after drains self }
    {
        match self {
            Part::Publisher { buffers } => match drains {
                Some(until) => Part::Draining { buffers, until },
                None => self,
            },
            Part::Draining { .. } => self,
            Part::Subscriber { .. } => self,
        }
    }

    /// Returns the part after a publisher's session ended, by its own SHUTDOWN or not: a subscriber's records it.
    pub fn with_end(self, by_shutdown: bool) -> Part
        ensures { result ≡ part_with_end by_shutdown self }
    {
        match self {
            Part::Publisher { .. } | Part::Draining { .. } => self,
            Part::Subscriber { given_up, .. } => Part::Subscriber {
                file_ended: by_shutdown,
                given_up,
            },
        }
    }

    /// Whether it is a subscriber's session that is given up.
    pub fn is_given_up(self) -> bool
        ensures { result ≡ is_given_up self }
    {
        match self {
            Part::Publisher { .. } | Part::Draining { .. } => false,
            Part::Subscriber { given_up, .. } => given_up,
        }
    }

    /// Returns the part of a session that is given up if its key is confirmed too `late`: only a subscriber's is.
    pub fn given_up_if(self, late: bool) -> Part
        ensures { result ≡ part_given_up late self }
    {
        match self {
            Part::Publisher { .. } | Part::Draining { .. } => self,
            Part::Subscriber {
                file_ended,
                given_up,
            } => Part::Subscriber {
                file_ended,
                given_up: late || given_up,
            },
        }
    }
}
