//! Drop requests: after a NAK of expired numbers, the event's packets begin with a DROPREQ for them
//! (draft-sharabayko-srt-01, section 3.2.9).

ghost use Rattle.std.specs.Prelude.{◌≡◌, true, false, option_map, IfSome, IfNone};
ghost use Rattle.srt_types.specs.Given.{given as written};
ghost use Rattle.srt_packet.specs.Encoded.{bytes_of, IsPacketText};
ghost use Rattle.srt_sub.specs.Subscribing.{drops, noted, unreported};
ghost use Rattle.srt_sendbuf.specs.Outgoing.{gone_by};

use crate::history::History;
use crate::packets::dropped;
use crate::session::Subscriber;
use srt_packet::EncodedPacket;
use srt_sendbuf::DropRun;

impl Subscriber {
    ghost use Rattle.srt_sub.specs.Stands.{BecomesAt, WritesAt};
    ghost use Rattle.srt_sub.specs.inside.Turns.{texts};

    /// Writes the pending drop request. Returns whether there is one; if not, `packet` is unchanged.
    pub(crate) fn next_drop(&mut self, time: u64, packet: &mut EncodedPacket) -> bool
        ensures stands { BecomesAt time self.old self.new (λ initial m. record m { notes = noted time (drops m.notes) m.notes }) }
        ensures answer { WritesAt time self.old (texts (written result packet.new)) (λ m. drops m.notes) }
        ensures packet { result ≡ true → IsPacketText (bytes_of packet.new) }
        ensures kept { result ≡ false → packet.new ≡ packet.old }
        ensures phase { self.new.phase ≡ self.old.phase }
    {
        let Some(run) = self.history.take_missed(time) else {
            return false;
        };
        dropped(run, time, self.caller, packet);
        true
    }
}

impl History {
    ghost use Rattle.srt_sub.specs.Stands.{run_gone, ForWhateverNotes, NotesDrop, NotesMissed};

    /// Records that a NAK requested expired numbers; `run` is the drop request for them. It replaces a pending one.
    pub fn note_drop_request(&mut self, run: DropRun)
        ensures { NotesMissed (gone_by run) self.old self.new }
    {
        self.missed = Some(run);
    }

    /// Removes and returns the pending drop request, and records that it is sent. None if there is none; then nothing
    /// changes.
    pub fn take_missed(&mut self, time: u64) -> Option<DropRun>
        ensures answer { ForWhateverNotes self.old (λ initial agreed notes. option_map gone_by result ≡ option_map (run_gone initial) (unreported notes)) }
        ensures some { IfSome result (λ run. NotesDrop time self.old self.new) }
        ensures none { IfNone result (self.new ≡ self.old) }
    {
        let run = self.missed?;
        self.missed = None;
        self.sent = time;
        Some(run)
    }
}
