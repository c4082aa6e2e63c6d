//! The lines that a replay writes: the answer to each event.

ghost use Rattle.std.specs.Prelude.{◌≡◌, ◌+◌, ◌*◌, ◌++◌, ◌∷◌, [], ◌≤◌, None, Some, take, length, decimal};
ghost use Rattle.hex.specs.Hex.{encode_lower};
ghost use Rattle.srt_replay.specs.Texts.{digit_of as the_digit, route_text, arrived_text, ticked_text, turned_text, sent_text, opened_text, closed_text};

use itoa::Buffer;
use srt_hub::{Arrived, Cause, Closing, Ticked};
use srt_types::{OpenFault, Peer, Turned, write_at};

/// The greatest length of an answer's line, in bytes, with its LF.
pub(crate) const MAX_TEXT: usize = 4096;

fn digit_of(cause: Cause) -> u8
    ensures { result ≡ the_digit cause }
{
    b'0' + cause.number()
}

/// Writes a number in decimal digits at offset `at`. Returns the offset behind it.
fn write_number(out: &mut [u8; MAX_TEXT], at: usize, number: usize) -> usize
    requires { at ≤ 4000 }
    ensures end { result ≤ at + 20 }
    ensures written { take result out.new ≡ take at out.old ++ decimal number }
{
    let mut digits = Buffer::new();
    write_at(out, at, digits.format(number).as_bytes())
}

/// Writes bytes in hexadecimal digits at offset `at`. Returns the offset behind them.
fn write_hex(out: &mut [u8; MAX_TEXT], at: usize, bytes: &[u8]) -> usize
    requires { at + 2 * length bytes.now ≤ 4096 }
    ensures end { result ≡ at + 2 * length bytes.now }
    ensures written { take result out.new ≡ take at out.old ++ encode_lower bytes.now }
{
    let end = at + 2 * bytes.len();
    let _ = hex::encode_to_slice(bytes, &mut out[at..end]);
    end
}

fn write_route(out: &mut [u8; MAX_TEXT], words: &[u8], route: usize) -> usize
    requires { length words.now ≤ 16 }
    ensures within { result ≤ 4096 }
    ensures text { take result out.new ≡ route_text words.now route }
{
    let end = write_at(out, 0, words);
    let end = write_number(out, end, route);
    write_at(out, end, b"\n")
}

/// Writes the line of an arrival's result to the front of `out`: `answer` and bytes, `accepted` or `full` and the
/// route, or `dropped` and the cause. Returns its length.
pub(crate) fn write_arrived(answer: &Arrived, out: &mut [u8; MAX_TEXT]) -> usize
    ensures within { result ≤ 4096 }
    ensures text { take result out.new ≡ arrived_text answer.now }
{
    match answer {
        Arrived::Answer(bytes) => {
            let end = write_at(out, 0, b"answer ");
            let end = write_hex(out, end, bytes);
            write_at(out, end, b"\n")
        }
        Arrived::Accepted(route) => write_route(out, b"accepted ", *route),
        Arrived::Full(route) => write_route(out, b"full ", *route),
        Arrived::Dropped(cause) => {
            let end = write_at(out, 0, b"dropped ");
            write_at(out, end, &[digit_of(*cause), b'\n'])
        }
    }
}

/// Writes the line of a tick's result to the front of `out`: `accepted` or `full` and the route. Returns its length.
pub(crate) fn write_ticked(route: usize, answer: Ticked, out: &mut [u8; MAX_TEXT]) -> usize
    ensures within { result ≤ 4096 }
    ensures text { take result out.new ≡ ticked_text route answer }
{
    match answer {
        Ticked::Accepted => write_route(out, b"accepted ", route),
        Ticked::Full => write_route(out, b"full ", route),
    }
}

/// Writes the line of a turn's result to the front of `out`: `moved`, `applied`, `blocked` or `idle`. Returns its
/// length.
pub(crate) fn write_turned(answer: Turned, out: &mut [u8; MAX_TEXT]) -> usize
    ensures within { result ≤ 4096 }
    ensures text { take result out.new ≡ turned_text answer }
{
    match answer {
        Turned::Moved => write_at(out, 0, b"moved\n"),
        Turned::Applied => write_at(out, 0, b"applied\n"),
        Turned::Blocked => write_at(out, 0, b"blocked\n"),
        Turned::Idle => write_at(out, 0, b"idle\n"),
    }
}

/// Writes the line of a send with an empty outbox, `none`, to the front of `out`. Returns its length.
pub(crate) fn write_none(out: &mut [u8; MAX_TEXT]) -> usize
    ensures within { result ≤ 4096 }
    ensures text { take result out.new ≡ sent_text None }
{
    write_at(out, 0, b"none\n")
}

/// Writes the line of a datagram that was sent to the front of `out`: `sent`, the address, the port and the bytes.
/// Returns its length.
pub(crate) fn write_sent(peer: Peer, bytes: &[u8], out: &mut [u8; MAX_TEXT]) -> usize
    requires { length bytes.now ≤ 1472 }
    ensures within { result ≤ 4096 }
    ensures text { take result out.new ≡ sent_text (Some (record { peer = peer; bytes = bytes.now })) }
{
    let end = write_at(out, 0, b"sent ");
    let end = write_hex(out, end, &peer.ip);
    let end = write_at(out, end, b" ");
    let end = write_number(out, end, usize::from(peer.port));
    let end = write_at(out, end, b" ");
    let end = write_hex(out, end, bytes);
    write_at(out, end, b"\n")
}

/// Writes the line of an opening's result to the front of `out`: `opened` and the route, or `open fault` and its
/// number; nothing if memory was refused. Returns its length.
pub(crate) fn write_opened(opened: Result<usize, OpenFault>, out: &mut [u8; MAX_TEXT]) -> usize
    ensures within { result ≤ 4096 }
    ensures text { take result out.new ≡ opened_text opened }
{
    match opened {
        Ok(route) => write_route(out, b"opened ", route),
        Err(OpenFault::Names) => write_at(out, 0, b"open fault 1\n"),
        Err(OpenFault::Limits) => write_at(out, 0, b"open fault 2\n"),
        Err(OpenFault::OutOfMemory) => 0,
    }
}

/// Writes the line of a closing's result to the front of `out`: `closing`, `full` or `closed` and the route. Returns
/// its length.
pub(crate) fn write_closed(route: usize, closing: Closing, out: &mut [u8; MAX_TEXT]) -> usize
    ensures within { result ≤ 4096 }
    ensures text { take result out.new ≡ closed_text route closing }
{
    match closing {
        Closing::Accepted => write_route(out, b"closing ", route),
        Closing::Full => write_route(out, b"full ", route),
        Closing::Closed => write_route(out, b"closed ", route),
    }
}
