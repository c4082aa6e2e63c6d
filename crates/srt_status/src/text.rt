//! A text while it is made: bytes are put at its end. An error means that memory was refused; the text then has the
//! bytes of all calls before.

ghost use Rattle.std.specs.Prelude.{◌≡◌, ◌++◌, ◌<◌, OnOk, decimal};
ghost use Rattle.std.specs.Char.{digit_char};
ghost use Rattle.std.specs.Fmt.{signed_decimal};
ghost use Rattle.srt_status.specs.Texts.{id_text, micros_text, signed_micros_text, amount_text, shown, name_text};

use crate::figures::Amount;
use itoa::Buffer;
use std::alloc::AllocError;

/// Puts bytes at the end of a text.
pub(crate) fn put(out: &mut Vec<u8>, bytes: &[u8]) -> Result<(), AllocError>
    ensures { OnOk result (out.new.items ≡ out.old.items ++ bytes.now) }
{
    out.extend_from_slice(bytes)
}

/// Puts a number in decimal digits.
pub(crate) fn put_number(out: &mut Vec<u8>, number: u64) -> Result<(), AllocError>
    ensures { OnOk result (out.new.items ≡ out.old.items ++ decimal number) }
{
    let mut digits = Buffer::new();
    put(out, digits.format(number).as_bytes())
}

/// Puts a byte of a name between quotation marks: a quotation mark, a backslash and a line feed after a
/// backslash, and `?` in place of other control characters.
fn put_shown(out: &mut Vec<u8>, byte: u8) -> Result<(), AllocError>
    ensures { OnOk result (out.new.items ≡ out.old.items ++ shown byte) }
{
    match byte {
        b'"' => put(out, b"\\\""),
        b'\\' => put(out, b"\\\\"),
        b'\n' => put(out, b"\\n"),
        0..=31 => put(out, b"?"),
        _ => put(out, &[byte]),
    }
}

/// Puts bytes between quotation marks, without these.
#[tactic(auto, using(crate::proofs::Puts::one_more))]
pub(crate) fn put_shown_bytes(out: &mut Vec<u8>, bytes: &[u8]) -> Result<(), AllocError>
    ensures { OnOk result (out.new.items ≡ out.old.items ++ name_text bytes.now) }
{
    for byte in bytes {
        put_shown(out, *byte)?;
    }
    Ok(())
}

/// Puts a name between quotation marks, without these.
pub(crate) fn put_name(out: &mut Vec<u8>, name: &str) -> Result<(), AllocError>
    ensures { OnOk result (out.new.items ≡ out.old.items ++ name_text name.now) }
{
    put_shown_bytes(out, name.as_bytes())
}

/// The hexadecimal digit of a number below 16, in lower case.
pub(crate) fn hex_digit(number: u8) -> u8
    requires { number < 16 }
    ensures { result ≡ digit_char number }
{
    if number < 10 {
        b'0' + number
    } else {
        b'a' + (number - 10)
    }
}

/// Puts a socket ID as eight hexadecimal digits.
pub(crate) fn put_id(out: &mut Vec<u8>, id: u32) -> Result<(), AllocError>
    ensures { OnOk result (out.new.items ≡ out.old.items ++ id_text id) }
{
    put(
        out,
        &[
            hex_digit((id / 0x1000_0000 % 16) as u8),
            hex_digit((id / 0x100_0000 % 16) as u8),
            hex_digit((id / 0x10_0000 % 16) as u8),
            hex_digit((id / 0x1_0000 % 16) as u8),
            hex_digit((id / 0x1000 % 16) as u8),
            hex_digit((id / 0x100 % 16) as u8),
            hex_digit((id / 0x10 % 16) as u8),
            hex_digit((id % 16) as u8),
        ],
    )
}

/// Puts microseconds as seconds with six decimals.
#[tactic(auto, using(crate::proofs::Puts::joined))]
pub(crate) fn put_micros(out: &mut Vec<u8>, micros: u64) -> Result<(), AllocError>
    ensures { OnOk result (out.new.items ≡ out.old.items ++ micros_text micros) }
{
    put_number(out, micros / 1_000_000)?;
    put(
        out,
        &[
            b'.',
            b'0' + (micros / 100_000 % 10) as u8,
            b'0' + (micros / 10_000 % 10) as u8,
            b'0' + (micros / 1_000 % 10) as u8,
            b'0' + (micros / 100 % 10) as u8,
            b'0' + (micros / 10 % 10) as u8,
            b'0' + (micros % 10) as u8,
        ],
    )
}

/// Puts microseconds that may be negative as seconds with six decimals.
#[tactic(auto, using(crate::proofs::Puts::joined))]
fn put_signed_micros(out: &mut Vec<u8>, micros: i64) -> Result<(), AllocError>
    ensures { OnOk result (out.new.items ≡ out.old.items ++ signed_micros_text micros) }
{
    if micros < 0 {
        put(out, b"-")?;
    }
    put_micros(out, micros.unsigned_abs())
}

/// Puts a number that may be negative in decimal digits.
fn put_signed_number(out: &mut Vec<u8>, number: i128) -> Result<(), AllocError>
    ensures { OnOk result (out.new.items ≡ out.old.items ++ signed_decimal number) }
{
    let mut digits = Buffer::new();
    put(out, digits.format(number).as_bytes())
}

/// Puts a value in its unit.
pub(crate) fn put_amount(out: &mut Vec<u8>, amount: Amount) -> Result<(), AllocError>
    ensures { OnOk result (out.new.items ≡ out.old.items ++ amount_text amount) }
{
    match amount {
        Amount::Number(number) => put_number(out, number),
        Amount::Micros(micros) => put_micros(out, micros),
        Amount::SignedMicros(micros) => put_signed_micros(out, micros),
        Amount::PartsPerMillion(ppm) => put_signed_number(out, ppm),
    }
}
