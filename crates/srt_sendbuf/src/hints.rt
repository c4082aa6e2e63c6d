//! Hints that let the search for lost packets skip blocks of slots.

ghost use Rattle.std.specs.Prelude.{◌≡◌, ℕ, ◌<◌, ◌≤◌, ◌/◌, ◌==◌, true, false, if◌then◌else◌};

/// Number of slots in a block.
pub const BLOCK: usize = 64;

/// Number of blocks: 8192 slots in all.
const BLOCKS: usize = 128;

/// A flag for each block of 64 slots. If it is off, no packet of the block is lost; if it is on, some may be.
#[derive(Drop)]
pub struct Hints {
    blocks: [bool; BLOCKS],
}

impl Hints {
    ghost use Rattle.srt_sendbuf.specs.inside.Hints.{hint_at};

    /// Returns hints with all flags off.
    pub fn new() -> Hints
        ensures { (slot : ℕ) → hint_at result slot ≡ false }
    {
        Hints {
            blocks: [false; BLOCKS],
        }
    }

    /// Returns the flag of a slot's block. The slot is below 8192. O(1).
    pub fn get(&self, slot: usize) -> bool
        requires { slot < 8192 }
        ensures { result ≡ hint_at self.now slot }
    {
        self.blocks[slot / BLOCK]
    }

    /// Returns the first slot after `slot` and before `end` whose block's flag is on; `end` if there is none. Linear
    /// in the blocks that it passes.
    pub fn skip(&self, slot: usize, end: usize) -> usize
        requires order { slot < end }
        requires inside { end ≤ 8192 }
        requires off { hint_at self.now slot ≡ false }
        ensures low { slot < result }
        ensures high { result ≤ end }
        ensures off { (s : ℕ) → slot ≤ s → s < result → hint_at self.now s ≡ false }
        ensures on { result < end → hint_at self.now result ≡ true }
    {
        let from = slot / BLOCK + 1;
        let past = (end - 1) / BLOCK + 1;
        for block in from..past {
            if self.blocks[block] {
                return block * BLOCK;
            }
        }
        end
    }

    /// Sets the flag of a slot's block. O(1).
    pub fn set(&mut self, slot: usize, hint: bool)
        requires { slot < 8192 }
        ensures { (other : ℕ) → hint_at self.new other ≡ (if other / 64 == slot / 64 then hint else hint_at self.old other) }
    {
        let block = slot / BLOCK;
        self.blocks[block] = hint;
    }
}
