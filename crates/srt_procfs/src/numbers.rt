//! Numbers in digits of the bases 2 to 16.

ghost use Rattle.std.specs.Prelude.{◌≡◌, ◌≤◌};
ghost use Rattle.srt_procfs.specs.Numbers.{digit_of, with_digit, number_in};

/// The value of a digit, of either case; 16 for any other byte.
pub(crate) fn digit_of(byte: u8) -> u64
    ensures value { result ≡ digit_of byte }
    ensures most { result ≤ 16 }
{
    match byte {
        b'0'..=b'9' => u64::from(byte - b'0'),
        b'A'..=b'F' => u64::from(byte - b'A') + 10,
        b'a'..=b'f' => u64::from(byte - b'a') + 10,
        _ => 16,
    }
}

/// The number with one more digit. None if the byte is no digit of the base, or the number isn't below 2^64.
fn with_digit(base: u64, number: u64, byte: u8) -> Option<u64>
    ensures { result ≡ with_digit base number byte }
{
    let digit = digit_of(byte);
    if digit >= base {
        return None;
    }
    number.checked_mul(base)?.checked_add(digit)
}

/// The number that the text has in digits of this base. None if it is empty or has another byte, or the number isn't
/// below 2^64. Linear in the length.
#[tactic(auto, using(crate::proofs::Digits::ends, crate::proofs::Digits::goes_on))]
pub fn number_in(base: u64, text: &[u8]) -> Option<u64>
    ensures { result ≡ number_in base text.now }
{
    if text.is_empty() {
        return None;
    }
    let mut number = 0;
    for byte in text {
        match with_digit(base, number, *byte) {
            Some(more) => number = more,
            None => return None,
        }
    }
    Some(number)
}
