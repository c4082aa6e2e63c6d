//! Which payloads wait: a session may be allowed to send only its first payloads for the first time, as many as it has
//! confirmed keys for (our choice).

ghost use Rattle.std.specs.Prelude.{◌≡◌, ℕ, ◌-◌, min};
ghost use Rattle.srt_sub.specs.Subscribing.{flow_window};
ghost use Rattle.srt_sub.specs.Held.{held, released};

use crate::session::Subscriber;

/// Returns the flow window that ends before the last `waiting` of the stored payloads.
fn narrowed(window: u32, stored: u32, waiting: u64) -> u32
    ensures { result ≡ min (stored - waiting) window }
{
    let free = u64::from(stored).saturating_sub(waiting);
    if free < u64::from(window) {
        free as u32
    } else {
        window
    }
}

impl Subscriber {
    ghost use Rattle.srt_sub.specs.Stands.{StandsIn, ForWhatever, Becomes, BecomesIn};

    /// Lets the session send only its first `bound` payloads for the first time, until `release`: its flow window ends
    /// before the others. They stay queued, and expire as always. What was sent before is sent again as always. Returns
    /// the flow window for `release`. Call it after `expire` and before the first `emit` of an event; without it, all
    /// payloads may be sent. O(1).
    pub fn hold(&mut self, bound: u64) -> u32
        ensures stands { (time : ℕ) → BecomesIn time self.old self.new (λ terms m. held terms bound m) }
        ensures window { ForWhatever self.old (λ terms initial opening caller last m. result ≡ flow_window terms.window m.notes) }
    {
        let window = self.history.window;
        let waiting = self.counts.queued.saturating_sub(bound);
        let narrow = narrowed(window, self.buffer.stored(), waiting);
        self.history.open(narrow);
        window
    }

    /// Gives the session this flow window back, which `hold` returned. Call it after the last `emit` of an event. O(1).
    pub fn release(&mut self, window: u32)
        ensures { Becomes self.old self.new (λ initial m. released window m) }
    {
        self.history.open(window);
    }
}
