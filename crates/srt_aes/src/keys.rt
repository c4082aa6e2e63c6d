//! Round keys, and what they make of blocks.

ghost use Rattle.std.specs.Prelude.{◌≡◌, ◌<◌, ◌≤◌, ◌+◌, ◌*◌, ◌/◌, ℕ, List, take, length};
ghost use Rattle.srt_aes.specs.Aes.{schedule_of, IsKeyLength, aes, inv_aes};
ghost use Rattle.srt_aes.specs.inside.Planes.{HoldKeys};

use crate::inverse::open;
use crate::planes::{doubled, first, gather, spread};
use crate::rounds::close;
use crate::schedule::{expand, plane_keys};
use crate::transposing::transposed;

/// The key schedule of a key of 16, 24 or 32 bytes, or room for one. Its size is fixed.
#[derive(Drop)]
pub struct RoundKeys {
    pub(crate) words: [u8; 240],
    pub(crate) size: usize,
    pub(crate) planes: [[u64; 8]; 15],
    ghost few: { size ≤ 32 },
    ghost sized: { length (take size words) ≡ size },
    ghost scheduled: { IsKeyLength (length (take size words)) → take (4 * size + 112) words ≡ schedule_of (take size words) },
    ghost held: { IsKeyLength (length (take size words)) → HoldKeys planes (schedule_of (take size words)) (size / 4 + 6) },
}

impl RoundKeys {
    ghost use Rattle.srt_aes.specs.Keys.{key_of, IsErased};

    /// Returns room for a key: no key, and zeros.
    pub fn none() -> RoundKeys
        ensures { IsErased result }
    {
        RoundKeys {
            words: [0; 240],
            size: 0,
            planes: [[0; 8]; 15],
        }
    }

    /// Makes the schedule of a key. Takes the same time for all keys of one length.
    pub fn new(key: &[u8]) -> RoundKeys
        requires { IsKeyLength (length key.now) }
        ensures { key_of result ≡ key.now }
    {
        let size = key.len();
        let words = expand(key);
        let planes = plane_keys(&words[..4 * size + 112], size / 4 + 6);
        RoundKeys {
            words,
            size,
            planes,
        }
    }

    /// Overwrites the key and all words of its schedule with zeros. There is no key then.
    pub fn forget(&mut self)
        ensures { IsErased self.new }
    {
        self.size = 0;
        self.words = [0; 240];
        self.planes = [[0; 8]; 15];
    }

    /// Nr, the number of rounds.
    pub(crate) fn rounds(&self) -> usize
        ensures value { result ≡ self.now.size / 4 + 6 }
        ensures some { 0 < result }
        ensures few { result < 15 }
    {
        self.size / 4 + 6
    }

    /// The block that the key makes of a block (Cipher() of FIPS 197). Its time doesn't depend on the key or
    /// on the block.
    pub fn encrypt(&self, block: &[u8; 16]) -> [u8; 16]
        requires { IsKeyLength (length (key_of self.now)) }
        ensures { result ≡ aes (key_of self.now) block.now }
    {
        let last = self.size / 4 + 6;
        let planes = spread(0, block);
        let closed = close(doubled(&planes), &self.planes, last);
        gather(last % 4, 0, &first(transposed(closed)))
    }

    /// The block of which the key makes a block (InvCipher() of FIPS 197). It reads a table, so its time may
    /// depend on the key and on the block.
    pub fn decrypt(&self, block: &[u8; 16]) -> [u8; 16]
        requires { IsKeyLength (length (key_of self.now)) }
        ensures { result ≡ inv_aes (key_of self.now) block.now }
    {
        open(
            &self.words[..4 * self.size + 112],
            self.size / 4 + 6,
            *block,
        )
    }
}
