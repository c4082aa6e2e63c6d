//! The words of a handshake (draft-sharabayko-srt-01, section 3.2.1), also of one with malformed extension blocks.

use crate::blocks::put_blocks;
use crate::text::Words;
use srt_hs::RefusalCode;
use srt_types::read_word;

/// The length of a handshake without extension blocks, in bytes.
const FIXED: usize = 48;

/// The handshake type of a conclusion.
const CONCLUSION: u32 = 0xffff_ffff;

/// Puts the name of a reason for a refusal (section 4.3, table 7), if the gateway refuses for it.
fn put_reason(words: &mut Words, number: u32) {
    if let Some(reason) = RefusalCode::of_number(number) {
        words.put(b" ");
        words.put(reason.name().as_bytes());
    }
}

/// Puts a handshake type.
fn put_type(words: &mut Words, kind: u32) {
    match kind {
        0 => words.put(b"WAVEHAND"),
        1 => words.put(b"INDUCTION"),
        CONCLUSION => words.put(b"CONCLUSION"),
        0xffff_fffe => words.put(b"AGREEMENT"),
        0xffff_fffd => words.put(b"DONE"),
        1000..=2999 => {
            words.put(b"refused ");
            words.put_word(kind);
            put_reason(words, kind);
        }
        _ => {
            words.put(b"type ");
            words.put_word(kind);
        }
    }
}

/// Puts the fields before the handshake type, and the type.
fn put_first(words: &mut Words, body: &[u8]) {
    if body.len() < FIXED {
        return;
    }
    put_type(words, read_word(body, 20));
    words.put(b" version ");
    words.put_word(read_word(body, 0));
    let fields = read_word(body, 4);
    words.put(b", encryption ");
    words.put_word(fields / 0x1_0000);
    words.put(b", extension ");
    words.put_short_hex(fields % 0x1_0000);
    words.put(b", initial ");
    words.put_word(read_word(body, 8));
}

/// Puts the other fields.
fn put_others(words: &mut Words, body: &[u8]) {
    if body.len() < FIXED {
        return;
    }
    words.put(b", MTU ");
    words.put_word(read_word(body, 12));
    words.put(b", window ");
    words.put_word(read_word(body, 16));
    words.put(b", socket ");
    words.put_id(read_word(body, 24));
    words.put(b", cookie ");
    words.put_id(read_word(body, 28));
    if read_word(body, 20) == CONCLUSION {
        put_blocks(words, &body[FIXED..]);
    }
}

/// Puts a handshake, given by the bytes after the packet's header.
pub(crate) fn put_handshake(words: &mut Words, body: &[u8]) {
    words.put(b"HANDSHAKE ");
    if body.len() < FIXED {
        words.put(b"of ");
        words.put_size(body.len());
        return;
    }
    put_first(words, body);
    put_others(words, body);
}
