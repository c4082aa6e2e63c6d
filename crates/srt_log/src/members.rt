//! The members of a JSON object (RFC 8259). An error means that memory was refused; the text then has the bytes of all
//! calls before.

ghost use Rattle.std.specs.Prelude.{◌≡◌, ◌++◌, OnOk};
ghost use Rattle.std.specs.List.{flat_map};
ghost use Rattle.srt_log.specs.Members.{in_quotes, member_start, text_member, number_member, signed_member, truth, flag_member};
ghost use Rattle.srt_log.specs.Members.{shown_member, readable_member, number_if};

use crate::line::{Line, hex_digit};
use itoa::Buffer;
use std::alloc::AllocError;

/// Puts bytes at the end of a text.
pub(crate) fn put(out: &mut Vec<u8>, bytes: &[u8]) -> Result<(), AllocError>
    ensures { OnOk result (out.new.items ≡ out.old.items ++ bytes.now) }
{
    out.extend_from_slice(bytes)
}

/// Puts a byte between quotation marks.
fn put_in_quotes(out: &mut Vec<u8>, byte: u8) -> Result<(), AllocError>
    ensures { OnOk result (out.new.items ≡ out.old.items ++ in_quotes byte) }
{
    match byte {
        b'"' => put(out, b"\\\""),
        b'\\' => put(out, b"\\\\"),
        b' '..=b'~' => put(out, &[byte]),
        _ => put(
            out,
            &[
                b'\\',
                b'u',
                b'0',
                b'0',
                hex_digit(byte / 16),
                hex_digit(byte % 16),
            ],
        ),
    }
}

#[tactic(auto, using(crate::proofs::Growing::one_more))]
fn put_all_in_quotes(out: &mut Vec<u8>, text: &[u8]) -> Result<(), AllocError>
    ensures { OnOk result (out.new.items ≡ out.old.items ++ flat_map in_quotes text.now) }
{
    for byte in text {
        put_in_quotes(out, *byte)?;
    }
    Ok(())
}

/// Puts the name of a member that isn't the first one.
#[tactic(auto, using(crate::proofs::Growing::joined), unfolding(crate::specs::Members::member_start))]
fn put_start(out: &mut Vec<u8>, name: &[u8]) -> Result<(), AllocError>
    ensures { OnOk result (out.new.items ≡ out.old.items ++ member_start name.now) }
{
    put(out, b",\"")?;
    put(out, name)?;
    put(out, b"\":")
}

/// Puts a member whose value is a text.
#[tactic(auto, using(crate::proofs::Growing::joined), unfolding(crate::specs::Members::text_member))]
pub(crate) fn put_text(out: &mut Vec<u8>, name: &[u8], text: &[u8]) -> Result<(), AllocError>
    ensures { OnOk result (out.new.items ≡ out.old.items ++ text_member name.now text.now) }
{
    put_start(out, name)?;
    put(out, b"\"")?;
    put_all_in_quotes(out, text)?;
    put(out, b"\"")
}

/// Puts a member whose value is a number.
#[tactic(auto, using(crate::proofs::Growing::joined), unfolding(crate::specs::Members::number_member))]
pub(crate) fn put_number(out: &mut Vec<u8>, name: &[u8], number: u64) -> Result<(), AllocError>
    ensures { OnOk result (out.new.items ≡ out.old.items ++ number_member name.now number) }
{
    let mut digits = Buffer::new();
    put_start(out, name)?;
    put(out, digits.format(number).as_bytes())
}

/// Puts a member whose value is a number that may be negative.
#[tactic(auto, using(crate::proofs::Growing::joined), unfolding(crate::specs::Members::signed_member))]
pub(crate) fn put_signed(out: &mut Vec<u8>, name: &[u8], number: i128) -> Result<(), AllocError>
    ensures { OnOk result (out.new.items ≡ out.old.items ++ signed_member name.now number) }
{
    let mut digits = Buffer::new();
    put_start(out, name)?;
    put(out, digits.format(number).as_bytes())
}

/// Puts a member whose value is a time in microseconds that may be negative.
#[tactic(auto, using(crate::proofs::Growing::joined), unfolding(crate::specs::Members::signed_member))]
pub(crate) fn put_micros(out: &mut Vec<u8>, name: &[u8], micros: i64) -> Result<(), AllocError>
    ensures { OnOk result (out.new.items ≡ out.old.items ++ signed_member name.now micros) }
{
    let mut digits = Buffer::new();
    put_start(out, name)?;
    put(out, digits.format(micros).as_bytes())
}

fn truth(flag: bool) -> &'static [u8]
    ensures { result.now ≡ truth flag }
{
    if flag { b"true" } else { b"false" }
}

/// Puts a member that is true or false.
#[tactic(auto, using(crate::proofs::Growing::joined), unfolding(crate::specs::Members::flag_member))]
pub(crate) fn put_flag(out: &mut Vec<u8>, name: &[u8], flag: bool) -> Result<(), AllocError>
    ensures { OnOk result (out.new.items ≡ out.old.items ++ flag_member name.now flag) }
{
    put_start(out, name)?;
    put(out, truth(flag))
}

/// Puts a member with bytes that a caller chose, as a line shows them.
pub(crate) fn put_shown(out: &mut Vec<u8>, name: &[u8], bytes: &[u8]) -> Result<(), AllocError>
    ensures { OnOk result (out.new.items ≡ out.old.items ++ shown_member name.now bytes.now) }
{
    let mut piece = Line::new();
    piece.put_escaped(bytes);
    put_text(out, name, &piece.text)
}

/// Puts a member with a text for people, as a line shows it.
pub(crate) fn put_readable(out: &mut Vec<u8>, name: &[u8], bytes: &[u8]) -> Result<(), AllocError>
    ensures { OnOk result (out.new.items ≡ out.old.items ++ readable_member name.now bytes.now) }
{
    let mut piece = Line::new();
    piece.put_readable(bytes);
    put_text(out, name, &piece.text)
}

/// Puts a member whose value is a number, if there is one.
pub(crate) fn put_number_if(
    out: &mut Vec<u8>,
    name: &[u8],
    number: Option<u32>,
) -> Result<(), AllocError>
    ensures { OnOk result (out.new.items ≡ out.old.items ++ number_if name.now number) }
{
    match number {
        Some(number) => put_number(out, name, u64::from(number)),
        None => put(out, b""),
    }
}
