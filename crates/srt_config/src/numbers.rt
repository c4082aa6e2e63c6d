//! Numbers in decimal digits.

ghost use Rattle.std.specs.Prelude.{◌≡◌, ◌^◌, ◌<◌, IfSome};
ghost use Rattle.srt_config.specs.Numbers.{below as under, digits_from, has_leading_zero as starts_with_zero, number_in};

fn has_leading_zero(text: &[u8]) -> bool
    ensures { result ≡ starts_with_zero text.now }
{
    text.len() > 1 && text[0] == b'0'
}

/// Reads decimal digits; None if another byte is among them or the number isn't below 2^64.
fn read_digits(text: &[u8]) -> Option<u64>
    ensures { result ≡ under (2 ^ 64) (digits_from 0 text.now) }
{
    let mut number: u64 = 0;
    for b in text {
        if !b.is_ascii_digit() {
            return None;
        }
        let digit = u64::from(*b - b'0');
        if number > (u64::MAX - digit) / 10 {
            return None;
        }
        number = number * 10 + digit;
    }
    Some(number)
}

/// Reads a decimal number; None if the text is empty, has a leading zero or a byte that is no digit, or if the number
/// isn't below the limit.
#[tactic(auto, unfolding(crate::specs::Numbers::number_in))]
pub fn read_number(text: &[u8], limit: u64) -> Option<u64>
    ensures value { result ≡ number_in limit text.now }
    ensures below { IfSome result (λ n. n < limit) }
{
    if text.is_empty() || has_leading_zero(text) {
        return None;
    }
    let number = read_digits(text)?;
    if number < limit { Some(number) } else { None }
}
