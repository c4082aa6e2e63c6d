//! Words of 32 bits in network byte order, and bytes written at an offset.

ghost use Rattle.std.specs.Prelude.{◌≡◌, ℕ, ◌+◌, ◌*◌, ◌≤◌, ◌++◌, length, take, drop};
ghost use Rattle.srt_types.specs.Words.{word_at, words};

/// Returns the word that the four bytes at the offset `at` encode.
pub fn read_word(bytes: &[u8], at: usize) -> u32
    requires { at + 4 ≤ length bytes.now }
    ensures { result ≡ word_at bytes.now at }
{
    u32::from_be_bytes([bytes[at], bytes[at + 1], bytes[at + 2], bytes[at + 3]])
}

/// Copies `bytes` into `out` at the offset `at`, and returns the offset of their end. The rest of `out` is unchanged.
pub fn write_at(out: &mut [u8], at: usize, bytes: &[u8]) -> usize
    requires { at + length bytes.now ≤ length out.old }
    ensures end { result ≡ at + length bytes.now }
    ensures written { take result out.new ≡ take at out.old ++ bytes.now }
    ensures kept { (k : ℕ) → result ≤ k → drop k out.new ≡ drop k out.old }
{
    let end = at + bytes.len();
    out[at..end].copy_from_slice(bytes);
    end
}

/// Writes the words of `list` into `out` from the offset `at` on, four bytes each, and returns the offset of their end.
/// The rest of `out` is unchanged.
pub fn write_words(out: &mut [u8], at: usize, list: &[u32]) -> usize
    requires { at + 4 * length list.now ≤ length out.old }
    ensures end { result ≡ at + length (words list.now) }
    ensures written { take result out.new ≡ take at out.old ++ words list.now }
    ensures kept { (k : ℕ) → result ≤ k → drop k out.new ≡ drop k out.old }
{
    let mut end = at;
    for word in list {
        end = write_at(out, end, &word.to_be_bytes());
    }
    end
}
