//! The limit on resends: a share of the new packets (our choice). A packet without credit stays lost until there is
//! some.

ghost use Rattle.std.specs.Prelude.{◌≡◌, ℕ, ◌+◌, ◌-◌, min, Option as TheOption, List, [], ◌∷◌, true, false};

/// Cost of sending a packet again, in hundredths of a packet.
const PACKET: u32 = 100;

/// Credit of a session that has just begun, in hundredths of a packet: 64 packets (our choice).
const FIRST_CREDIT: u32 = 6_400;

/// Maximum credit, in hundredths of a packet: 8192 packets (our choice).
const MAX_CREDIT: u32 = 819_200;

/// The credit for packets that are sent again.
#[derive(Clone, Copy, Debug, PartialEq, Eq)]
pub struct Credit {
    /// Hundredths of a packet that each new packet adds; None if there is no limit.
    percent: Option<u32>,
    /// The credit, in hundredths of a packet; unused without a limit.
    hundredths: u32,
}

impl Credit {
    ghost use Rattle.srt_sub.specs.Stands.{IsCredit};
    ghost use Rattle.srt_sub.specs.Counting.{is_again};
    ghost use Rattle.srt_sub.specs.Subscribing.{credit, may_resend, is_media, Note, Report, Sent, Renewed};

    /// Returns the credit at the start of a session in which each new packet adds this many hundredths of a packet.
    pub fn start(percent: Option<u32>) -> Credit
        ensures { IsCredit percent result [] }
    {
        Credit {
            percent,
            hundredths: FIRST_CREDIT,
        }
    }

    /// Whether a packet may be sent again.
    pub fn allows(&self) -> bool
        ensures { (percent : TheOption ℕ) (notes : List Note) → IsCredit percent self.now notes → result ≡ may_resend percent notes }
    {
        match self.percent {
            None => true,
            Some(_) => self.hundredths >= PACKET,
        }
    }

    /// Records that a data packet is sent, for the first time or again.
    pub fn note_sent(&mut self, again: bool)
        ensures { (percent : TheOption ℕ) (notes : List Note) (time : ℕ) (r : Report) → is_media r ≡ true → is_again r ≡ again
            → IsCredit percent self.old notes → IsCredit percent self.new (Sent time r ∷ notes) }
    {
        let Some(percent) = self.percent else {
            return;
        };
        self.hundredths = credit_after(again, percent, self.hundredths);
    }

    /// Raises the credit to one packet, if it is less.
    pub fn renew(&mut self)
        ensures none { (percent : TheOption ℕ) (notes : List Note) → may_resend percent notes ≡ true
            → IsCredit percent self.old notes → IsCredit percent self.new notes }
        ensures some { (percent : TheOption ℕ) (notes : List Note) (time : ℕ) → may_resend percent notes ≡ false
            → IsCredit percent self.old notes → IsCredit percent self.new (Renewed time ∷ notes) }
    {
        if self.allows() {
            return;
        }
        self.hundredths = PACKET;
    }
}

/// Returns the credit after a data packet, sent for the first time or again, where a new one adds `percent`.
fn credit_after(again: bool, percent: u32, hundredths: u32) -> u32
    ensures again { again ≡ true → result ≡ hundredths - 100 }
    ensures new { again ≡ false → result ≡ min (hundredths + percent) 819_200 }
{
    if again {
        hundredths.saturating_sub(PACKET)
    } else {
        hundredths.saturating_add(percent).min(MAX_CREDIT)
    }
}
