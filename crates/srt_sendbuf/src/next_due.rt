//! The next packet to send: the lowest lost one, again with the flag R; if none is lost, the next new one that the flow
//! window allows, which is in `flow_window.rt` (draft-sharabayko-srt-01, sections 3.1, 3.2.4 and 4.8.2).

ghost use Rattle.std.specs.Prelude.{◌≡◌, ◌+◌, ◌<◌, ◌≤◌, true, false, option_map, length, IfSome};
ghost use Rattle.srt_sendbuf.specs.Places.{length_of};

use crate::buffer::{Out, SendBuf};

impl SendBuf {
    ghost use Rattle.srt_sendbuf.specs.Sending.{front, sent, due_past, after_due};
    ghost use Rattle.srt_sendbuf.specs.Outgoing.{outgoing, outgoing_of, next_outgoing};
    ghost use Rattle.srt_sendbuf.specs.Stands.{ForWhatever, Becomes};

    /// Returns the packet of a place.
    pub(crate) fn out(&self, at: usize, again: bool) -> Option<Out<'_>>
        requires { at < length_of self.now.ring }
        ensures answer { ForWhatever self.now (λ width initial r. option_map outgoing_of result ≡ option_map (outgoing initial) (due_past at again r)) }
        ensures fits { IfSome result (λ o. length o.payload.now ≤ 1456) }
    {
        let place = self.ring.place(at)?;
        Some(Out {
            number: self.front.add(at as u32),
            message: place.message,
            again,
            origin: place.origin,
            payload: self.ring.payload(at),
        })
    }

    /// Records that the lowest lost packet was sent again.
    fn sent_again(&mut self)
        requires { self.old.low < self.old.high }
        ensures { Becomes self.old self.new (λ initial r. sent (front r + self.old.low) r) }
    {
        self.ring.unmark(self.low);
        self.low = self.ring.find_lost(self.low + 1, self.high);
    }

    /// Returns the next packet to be sent: the lowest lost one (section 4.8.2). If none is lost, the next new one,
    /// provided that fewer than `window` packets (the flow window) are in flight (section 3.2.4). None if no packet is
    /// due. O(1), and no byte is copied. The packet is counted as sent once `note_sent` is called.
    pub fn next_due(&self, window: u32) -> Option<Out<'_>>
        ensures answer { ForWhatever self.now (λ width initial r. option_map outgoing_of result ≡ next_outgoing initial window r) }
        ensures fits { IfSome result (λ o. length o.payload.now ≤ 1456) }
    {
        if self.low < self.high {
            self.out(self.low, true)
        } else {
            self.next_new(window)
        }
    }

    /// Records that the packet that `next_due` returns for this flow window was sent. Changes nothing if none is due.
    /// The cost is that of the search for the next lost packet, see `Ring::find_lost`.
    pub fn note_sent(&mut self, window: u32)
        ensures { Becomes self.old self.new (λ initial r. after_due window r) }
    {
        if self.low < self.high {
            self.sent_again();
        } else {
            self.note_new_sent(window);
        }
    }
}
