//! Packet sequence numbers and message numbers (draft-sharabayko-srt-01, section 3.1).

ghost use Rattle.std.specs.Prelude.{◌≡◌, ℕ, ◌+◌, ◌-◌, ◌%◌, ◌^◌, ◌<◌, ◌≤◌, ◌↔◌, IsSome, IfSome, if◌then◌else◌, ◌==◌};

/// A packet sequence number: 31 bits, so that 0 follows 2^31 - 1. Numbers that wrap have no order: use
/// [`offset_in`](Seq31::offset_in) to locate one in a window. The default is 0.
#[derive(Clone, Copy, Debug, PartialEq, Eq)]
pub struct Seq31 {
    word: u32,
    pub ghost small: { word < 2 ^ 31 },
}

impl Seq31 {
    ghost use Rattle.std.specs.Option.{option_map};
    ghost use Rattle.srt_types.specs.Window.{IsWindowNumber, in_window, word_of};

    /// The number 0.
    pub const ZERO: Seq31 = Seq31 { word: 0 };

    /// Returns the sequence number of a word. None if the word's top bit is set, as in no sequence number.
    pub fn new(word: u32) -> Option<Seq31>
        ensures some { IsSome result ↔ (word < 2 ^ 31) }
        ensures value { IfSome result (λ s. word_of s ≡ word) }
    {
        if word < 1 << 31 {
            Some(Seq31 { word })
        } else {
            None
        }
    }

    /// Returns the number as a word of 32 bits. Its top bit is 0.
    pub fn get(self) -> u32
        ensures value { result ≡ word_of self }
        ensures small { result < 2 ^ 31 }
    {
        self.word
    }

    /// Returns the number `steps` packets later, modulo 2^31. All values of `steps` are allowed.
    pub fn add(self, steps: u32) -> Seq31
        // If the word is that of an unbounded number n, the result is the word of n + steps.
        ensures number { (n : ℕ) → n % 2 ^ 31 ≡ word_of self → word_of result ≡ (n + steps) % 2 ^ 31 }
        ensures value { word_of result ≡ (word_of self + steps) % 2 ^ 31 }
    {
        Seq31 {
            word: self.word.wrapping_add(steps) & 0x7fff_ffff,
        }
    }

    /// Returns the offset of the number from `front`, in packets, if it is below `width`; else None. `width` is 0 to
    /// 2^31 packets. O(1) for every width.
    #[tactic(auto, unfolding(crate::specs::Window::in_window))]
    pub fn offset_in(self, front: Seq31, width: u32) -> Option<u32>
        requires { width ≤ 2 ^ 31 }
        // `a` plus the result is the only unbounded number in the window that has this word.
        ensures number { (a : ℕ) → a % 2 ^ 31 ≡ word_of front → IsWindowNumber (word_of self) a width (option_map (λ d. a + d) result) }
        ensures value { (a : ℕ) → a % 2 ^ 31 ≡ word_of front → option_map (λ d. a + d) result ≡ in_window (word_of self) a width }
        ensures below { IfSome result (λ d. d < width) }
    {
        let offset = self.word.wrapping_sub(front.word) & 0x7fff_ffff;
        if offset < width { Some(offset) } else { None }
    }
}

impl Default for Seq31 {
    ghost use Rattle.srt_types.specs.Window.{word_of};

    /// Returns the number 0.
    fn default() -> Self
        ensures { word_of result ≡ 0 }
    {
        Seq31::ZERO
    }
}

/// A message number: 1 to 2^26 - 1, so that 1 follows 2^26 - 1.
#[derive(Clone, Copy, Debug, PartialEq, Eq)]
pub struct Msg26 {
    number: u32,
    pub ghost some: { 0 < number },
    pub ghost small: { number < 2 ^ 26 },
}

impl Msg26 {
    ghost use Rattle.srt_types.specs.Counts.{message_number, message_of};

    /// Returns the message number of a subscriber's first packet: 1.
    pub fn first() -> Msg26
        ensures { message_of result ≡ message_number 0 }
    {
        Msg26 { number: 1 }
    }

    /// Returns the message number of the next packet: 1 after 2^26 - 1.
    pub fn next(self) -> Msg26
        ensures number { (k : ℕ) → message_of self ≡ message_number k → message_of result ≡ message_number (k + 1) }
        ensures value { message_of result ≡ (if message_of self == 2 ^ 26 - 1 then 1 else message_of self + 1) }
    {
        if self.number < (1 << 26) - 1 {
            Msg26 {
                number: self.number + 1,
            }
        } else {
            Msg26::first()
        }
    }

    /// Returns the number as a word of 32 bits. Its upper six bits are 0.
    pub fn get(self) -> u32
        ensures value { result ≡ message_of self }
        ensures some { 0 < result }
        ensures small { result < 2 ^ 26 }
    {
        self.number
    }
}
