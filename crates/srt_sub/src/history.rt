//! The state that a session keeps of its events, including the values that an ACK reports (draft-sharabayko-srt-01,
//! section 3.2.4). Times are microseconds since the opening.

ghost use Rattle.std.specs.Prelude.{◌≡◌, ℕ, [], ◌∷◌, ◌++◌};
ghost use Rattle.srt_sub.specs.Heard.{more_of};
ghost use Rattle.srt_sub.specs.Subscribing.{Terms, Opened, grown, sampled};

use crate::counts::Sendings;
use crate::resend_credit::Credit;
use srt_sendbuf::DropRun;
use srt_timing::Rtt;
use srt_types::read_word;

/// Time without a sent data packet after which a packet may be sent again, in microseconds (our choice).
const RENEWAL_AFTER_US: u64 = 20_000;

/// The values that the last ACKs reported, and the times at which packets were last sent. Times are microseconds since
/// the opening. At the opening, the times of the last packet, data packet and growth are 0.
#[derive(Drop)]
pub struct History {
    /// The flow window, in packets: the agreed one, or the available buffer size of the last ACK that had one
    /// (section 3.2.4).
    pub window: u32,
    /// The round-trip time and its variance, in microseconds, as the last ACK reported them (section 4.10).
    pub round_trip: Rtt,
    /// Time at which a packet of any kind was last sent.
    pub sent: u64,
    /// Time at which a data packet was last sent.
    pub media: u64,
    /// Time at which an ACK last acknowledged more than all earlier ones.
    pub growth: u64,
    /// The pending drop request: a NAK requested expired numbers, and no drop request was sent since.
    pub missed: Option<DropRun>,
    /// Counters of the data packets that were sent.
    pub sendings: Sendings,
    /// The credit for packets that are sent again.
    pub credit: Credit,
    /// Number of times that all packets in flight were marked as lost since the last growth, up to 2^32 - 1.
    pub tries: u32,
}

impl History {
    ghost use Rattle.srt_sub.specs.Stands.{IsHistory, NotesBecome, NotesMedia, NotesOther, NotesRenewal};

    /// Returns the state of a session without events, with the agreed flow window in packets, and the number of
    /// packets that may be sent again for each 100 new ones.
    pub fn start(window: u32, resend_percent: Option<u32>) -> History
        ensures { (initial : ℕ) (agreed : Terms) → agreed.window ≡ window → agreed.resend_percent ≡ resend_percent → IsHistory initial agreed result [] }
    {
        History {
            window,
            round_trip: Rtt::start(),
            sent: 0,
            media: 0,
            growth: 0,
            missed: None,
            sendings: Sendings::none(),
            credit: Credit::start(resend_percent),
            tries: 0,
        }
    }

    /// Records that a packet was sent that is neither a data packet nor a drop request.
    pub fn say(&mut self, time: u64)
        ensures { NotesOther time self.old self.new }
    {
        self.sent = time;
    }

    /// Records that a data packet was sent, for the first time or again.
    pub fn give(&mut self, again: bool, time: u64)
        ensures { NotesMedia again time self.old self.new }
    {
        self.sent = time;
        self.media = time;
        self.sendings.send(again);
        self.credit.note_sent(again);
    }

    /// Raises the credit for resends to one packet, if it is less and no data packet was sent for 20 ms.
    pub fn renew(&mut self, time: u64)
        ensures { NotesRenewal time self.old self.new }
    {
        if time.saturating_sub(self.media) < RENEWAL_AFTER_US {
            return;
        }
        self.credit.renew();
    }

    /// Records that the flow window is this many packets from now on.
    pub fn open(&mut self, window: u32)
        ensures { NotesBecome self.old self.new (λ notes. Opened window ∷ notes) }
    {
        self.window = window;
    }

    /// Records whether an ACK acknowledged more than all earlier ones.
    fn grow(&mut self, grows: bool, time: u64)
        ensures { NotesBecome self.old self.new (λ notes. grown time grows ++ notes) }
    {
        if grows {
            self.growth = time;
            self.tries = 0;
        }
    }

    /// Records the values that an ACK reports in addition to its number. `info` is its body: from 12 bytes on it has a
    /// round-trip time and its variance, from 16 on an available buffer size, which becomes the flow window (section
    /// 3.2.4). The bytes after these aren't read.
    fn hear(&mut self, info: &[u8])
        ensures { NotesBecome self.old self.new (λ notes. sampled (more_of info.now) ++ notes) }
    {
        if info.len() >= 16 {
            self.round_trip.set(read_word(info, 4), read_word(info, 8));
            self.window = read_word(info, 12);
        } else if info.len() >= 12 {
            self.round_trip.set(read_word(info, 4), read_word(info, 8));
        }
    }

    /// Records an ACK whose number is in the window; `grows` if it acknowledged more than all earlier ones. `info` is
    /// its body, `time` is in microseconds since the opening.
    pub fn acknowledge(&mut self, grows: bool, info: &[u8], time: u64)
        ensures { NotesBecome self.old self.new (λ notes. sampled (more_of info.now) ++ (grown time grows ++ notes)) }
    {
        self.grow(grows, time);
        self.hear(info);
    }
}
